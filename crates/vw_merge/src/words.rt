//! The values of nets over all values of some leaves, as words of 64 bits: bit k is the value where the leaves have the values
//! at place k.
ghost use Rattle.std.specs.Prelude.{◌≡◌, ◌<◌, ◌≤◌, ◌+◌, ℕ, List, length, IfOk, IfSome, OnOk};
ghost use Rattle.vw_net.specs.declared.flat.Flat.{Flat};
ghost use Rattle.vw_merge.specs.Words.{AreGathered, AreWords, IsWord};

use crate::gate_word::gate_word;
use std::alloc::{AllocError, Global};
use vw_net::{Cell, Ordered, gates_settle};

/// The word of a net.
#[derive(Clone, Copy)]
pub struct NetWord {
    pub net: u32,
    pub word: u64,
}

/// The words of six leaves: bit k of the word of leaf i is bit i of k.
pub const LEAF_WORDS: [u64; 6] = [
    0xAAAA_AAAA_AAAA_AAAA,
    0xCCCC_CCCC_CCCC_CCCC,
    0xF0F0_F0F0_F0F0_F0F0,
    0xFF00_FF00_FF00_FF00,
    0xFFFF_0000_FFFF_0000,
    0xFFFF_FFFF_0000_0000,
];

/// The word of a net among these.
fn word_of(words: &[NetWord], net: u32) -> Option<u64>
    ensures { (flat : Flat) (leaves : List ℕ) → AreWords flat leaves words.now
        → IfSome result (IsWord flat leaves net) }
{
    for one in words {
        if one.net == net {
            return Some(one.word);
        }
    }
    None
}

/// The words of the leaves.
fn put_leaves(leaves: &[u32], words: &mut Vec<NetWord>) -> Result<(), AllocError>
    requires few { length leaves.now ≤ 6 }
    ensures { (flat : Flat) → OnOk result (AreWords flat leaves.now words.new.items) }
{
    words.clear();
    for (i, leaf) in leaves.iter().enumerate() {
        words.push(NetWord {
            net: *leaf,
            word: LEAF_WORDS[i],
        })?;
    }
    Ok(())
}

/// The words of the nets that a gate reads, where each is among these.
fn gathered(words: &[NetWord], ins: &[u32]) -> Option<[u64; 6]>
    requires few { length ins.now ≤ 6 }
    ensures { (flat : Flat) (leaves : List ℕ) → AreWords flat leaves words.now
        → IfSome result (λ found. (length found ≡ 6) × AreGathered flat leaves ins.now found) }
{
    let mut found = [0; 6];
    for (i, net) in ins.iter().enumerate() {
        let word = word_of(words, *net)?;
        found[i] = word;
    }
    Some(found)
}

/// The word of a gate's net, where it reads at most six nets and each has a word among these.
fn word_of_gate(ordered: &Ordered, number: u32, words: &[NetWord]) -> Option<u64>
    requires within { number < length ordered.now.flat.cells }
    ensures { (leaves : List ℕ) → length leaves ≤ 6 → AreWords ordered.now.flat leaves words.now
        → IfSome result (IsWord ordered.now.flat leaves (ordered.now.flat.inputs + number)) }
{
    gates_settle();
    match &ordered.flat().cells()[number as usize] {
        Cell::Gate { ins, cover } => {
            if ins.len() > 6 {
                return None;
            }
            let found = gathered(words, ins.as_slice())?;
            Some(gate_word(cover, &found[..ins.len()]))
        }
        Cell::Latch { .. } => None,
    }
}

/// The number of the gate at a place of the order.
fn gate_at(ordered: &Ordered, place: u32) -> Option<u32>
    ensures { IfSome result (λ number. number < length ordered.now.flat.cells) }
{
    let order = ordered.order();
    if place as usize >= order.len() {
        return None;
    }
    Some(order[place as usize])
}

/// Works out the word of a net: first those of the leaves, then those of the gates at these places of the order. Where it isn't
/// among them, there is none.
pub fn worked_out(
    ordered: &Ordered,
    net: u32,
    leaves: &[u32],
    places: &[u32],
    words: &mut Vec<NetWord>,
) -> Result<Option<u64>, AllocError>
    requires few { length leaves.now ≤ 6 }
    ensures { IfOk result (λ word. IfSome word (IsWord ordered.now.flat leaves.now net)) }
{
    put_leaves(leaves, words)?;
    for place in places {
        let Some(number) = gate_at(ordered, *place) else {
            return Ok(None);
        };
        let Some(word) = word_of_gate(ordered, number, words) else {
            return Ok(None);
        };
        words.push(NetWord {
            net: ordered.flat().inputs() + number,
            word,
        })?;
    }
    Ok(word_of(words, net))
}
