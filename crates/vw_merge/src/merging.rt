//! The tables of a merged netlist, as they are put together.
ghost use Rattle.std.specs.Prelude.{◌≡◌, ◌≤◌, ◌<◌, ◌+◌, ◌++◌, ℕ, Bool, List, length, map, slice_set, IfOk, IfSome, OnOk};
ghost use Rattle.vw_net.specs.Cells.{latch_count};
ghost use Rattle.vw_net.specs.Cover.{cover_value};
ghost use Rattle.vw_net.specs.TruthTable.{bit_of, place_of};
ghost use Rattle.vw_net.specs.Value.{net_value};
ghost use Rattle.vw_merge.specs.Words.{IsWord};
ghost use Rattle.vw_merge.specs.Merging.{IsMerging, SameThere, input_starts, latch_starts};

use crate::table::table_of;
use crate::words::LEAF_WORDS;
use std::alloc::{AllocError, Global};
use vw_net::{Cell, Cover, Flat, Sequence};

/// For each net the net of the merged netlist with the same value, before there are tables: inputs stay where they are, and the
/// latches follow them in their order.
fn start_nets(alloc: Global, flat: &Flat) -> Result<Vec<Option<u32>>, AllocError>
    ensures { IfOk result (λ to. to.items ≡ input_starts 0 flat.now.inputs
        ++ latch_starts flat.now.inputs flat.now.cells) }
{
    let mut to = input_nets(alloc, flat.inputs())?;
    add_latch_nets(flat, &mut to)?;
    Ok(to)
}

/// The nets of so many inputs.
fn input_nets(alloc: Global, inputs: u32) -> Result<Vec<Option<u32>>, AllocError>
    ensures { IfOk result (λ to. to.items ≡ input_starts 0 inputs) }
{
    let mut to = Vec::new(alloc);
    for net in 0..inputs {
        to.push(Some(net))?;
    }
    Ok(to)
}

/// Adds the nets of the latches, and none for gates.
fn add_latch_nets(flat: &Flat, to: &mut Vec<Option<u32>>) -> Result<(), AllocError>
    ensures { OnOk result (to.new.items ≡ to.old.items ++ latch_starts flat.now.inputs flat.now.cells) }
{
    let mut next = flat.inputs();
    for cell in flat.cells() {
        match cell {
            Cell::Gate { .. } => to.push(None)?,
            Cell::Latch { .. } => {
                to.push(Some(next))?;
                next += 1;
            }
        }
    }
    Ok(())
}

/// The net that has the same value as this one, where there is one.
pub fn same_net(to: &[Option<u32>], net: u32) -> Option<u32>
    ensures { (value other : ℕ → Bool) → SameThere to.now value other
        → IfSome result (λ same. value same ≡ other net) }
{
    match to.get(net as usize) {
        Some(same) => *same,
        None => None,
    }
}

/// The nets that have the same values as these; none where one of them isn't there.
pub fn same_nets(
    alloc: Global,
    to: &[Option<u32>],
    nets: &[u32],
) -> Result<Option<Vec<u32>>, AllocError>
    ensures { (value other : ℕ → Bool) → SameThere to.now value other
        → IfOk result (λ found. IfSome found (λ same. map value same.items ≡ map other nets.now)) }
{
    let mut found = Vec::with_capacity(alloc, nets.len())?;
    for net in nets {
        let Some(same) = same_net(to, *net) else {
            return Ok(None);
        };
        found.push(same)?;
    }
    Ok(Some(found))
}

/// The leaf whose word this is.
fn leaf_with(leaves: &[u32], word: u64) -> Option<u32>
    requires { length leaves.now ≤ 6 }
    ensures { (value : ℕ → Bool)
        → IfSome result (λ leaf. bit_of word (place_of (map value leaves.now)) ≡ value leaf) }
{
    for (i, leaf) in leaves.iter().enumerate() {
        if LEAF_WORDS[i] == word {
            return Some(*leaf);
        }
    }
    None
}

/// The net behind so many others.
fn net_behind(first: u32, count: usize) -> Option<u32>
    ensures { IfSome result (λ net. net ≡ first + count) }
{
    match u32::try_from(count) {
        Ok(count) => first.checked_add(count),
        Err(_) => None,
    }
}

/// The tables so far.
pub struct Merging {
    /// The net of the first table.
    pub first: u32,
    pub gates: Vec<Cell>,
    /// For each net of the netlist the net with the same value, where there is one.
    pub to: Vec<Option<u32>>,
}

impl Drop for Merging {
    fn drop(self) {
        let Merging {
            first: _,
            gates: _,
            to: _,
        } = self;
    }
}

impl Merging {
    /// No tables yet, for a netlist with so many latches.
    pub fn start(alloc: Global, flat: &Flat, latches: u32) -> Result<Option<Self>, AllocError>
        requires latches { latches ≡ latch_count flat.now.cells }
        ensures { IfOk result (λ started. IfSome started (IsMerging flat.now)) }
    {
        let Some(first) = net_behind(flat.inputs(), latches as usize) else {
            return Ok(None);
        };
        Ok(Some(Merging {
            first,
            gates: Vec::new(alloc),
            to: start_nets(alloc, flat)?,
        }))
    }

    /// The tables.
    pub fn into_gates(self) -> Vec<Cell>
        ensures { result ≡ self.gates }
    {
        let Merging {
            first: _,
            gates,
            to: _,
        } = self;
        gates
    }

    /// Puts a table in the place of a net, whose value it has where it reads these nets of the netlist. It tells whether each of
    /// them leads to a net.
    fn put(
        &mut self,
        alloc: Global,
        flat: &Flat,
        net: u32,
        nets: &[u32],
        cover: Cover,
    ) -> Result<bool, AllocError>
        requires merging { IsMerging flat.now self.old }
        requires its { (row state : List Bool) → cover_value cover (map (net_value flat.now row state) nets.now)
            ≡ net_value flat.now row state net }
        ensures { OnOk result (IsMerging flat.now self.new) }
    {
        let Some(ins) = same_nets(alloc, &self.to, nets)? else {
            return Ok(false);
        };
        let Some(new) = net_behind(self.first, self.gates.len()) else {
            return Ok(false);
        };
        self.gates.push(Cell::Gate {
            ins: Sequence::of(ins),
            cover,
        })?;
        set_net(&mut self.to, net, Some(new));
        Ok(true)
    }

    /// Copies a gate.
    pub fn copy(
        &mut self,
        alloc: Global,
        flat: &Flat,
        net: u32,
        ins: &[u32],
        cover: &Cover,
    ) -> Result<bool, AllocError>
        requires merging { IsMerging flat.now self.old }
        requires its { (row state : List Bool) → cover_value cover.now (map (net_value flat.now row state) ins.now)
            ≡ net_value flat.now row state net }
        ensures { OnOk result (IsMerging flat.now self.new) }
    {
        let copy = cover.copy(alloc)?;
        self.put(alloc, flat, net, ins, copy)
    }

    /// Puts the table with a net's word over some leaves in its place, or a leaf that has this word.
    pub fn put_word(
        &mut self,
        alloc: Global,
        flat: &Flat,
        net: u32,
        leaves: &[u32],
        word: u64,
    ) -> Result<bool, AllocError>
        requires few { length leaves.now ≤ 6 }
        requires merging { IsMerging flat.now self.old }
        requires its { IsWord flat.now leaves.now net word }
        ensures { OnOk result (IsMerging flat.now self.new) }
    {
        if let Some(leaf) = leaf_with(leaves, word) {
            self.take_over(flat, net, leaf);
            return Ok(true);
        }
        let Some(cover) = table_of(alloc, leaves.len() as u32, word)? else {
            return Ok(false);
        };
        self.put(alloc, flat, net, leaves, cover)
    }

    /// A net leads where another leads that has its value.
    fn take_over(&mut self, flat: &Flat, net: u32, other: u32)
        requires merging { IsMerging flat.now self.old }
        requires same { (row state : List Bool) → net_value flat.now row state other
            ≡ net_value flat.now row state net }
        ensures { IsMerging flat.now self.new }
    {
        let same = same_net(&self.to, other);
        set_net(&mut self.to, net, same);
    }
}

/// Says where a net leads.
fn set_net(to: &mut Vec<Option<u32>>, net: u32, new: Option<u32>)
    ensures { to.new.items ≡ slice_set to.old.items net new }
{
    if (net as usize) < to.len() {
        to[net as usize] = new;
    }
}
