//! Reads any bytes as a state. Of the spelling of a state it is that state; who reads prints it again to see whether it is.
ghost use Rattle.std.specs.Prelude.{◌≡◌, ◌++◌, IfOk, OnOk, unwrap_or};
ghost use Rattle.std.specs.List.{flat_map};
ghost use Rattle.vw_text.specs.Number.{spelled_number};
ghost use Rattle.vw_resume.specs.Steps.Loosely.{before_space, behind_space, bits_named, clock_in, latches_in};

use crate::state::State;
use bstr::ByteSlice;
use std::alloc::{AllocError, Global};
use vw_net::Bits;
use vw_text::number_in;

/// What stands before the first space of a text, and what stands behind it; where there is none, all and nothing.
fn cut_at_space(text: &[u8]) -> (&[u8], &[u8])
    ensures before { result.0.now ≡ before_space text.now }
    ensures behind { result.1.now ≡ behind_space text.now }
{
    match text.find_byte(b' ') {
        Some(end) => (&text[..end], &text[end + 1..]),
        None => (text, &text[text.len()..]),
    }
}

/// The number that a word spells, or 0.
fn number_or_0(word: &[u8]) -> u64
    ensures { result ≡ unwrap_or (spelled_number word.now) 0 }
{
    match number_in(word) {
        Some(number) => number,
        None => 0,
    }
}

/// Appends the bit that a character names, where it names one.
fn push_bit(bits: &mut Vec<bool>, character: u8) -> Result<(), AllocError>
    ensures { OnOk result (bits.new.items ≡ bits.old.items ++ bits_named character) }
{
    if character == b'0' {
        return Ok(bits.push(false)?);
    }
    if character == b'1' {
        return Ok(bits.push(true)?);
    }
    Ok(())
}

/// The bits that the characters of a text name.
fn bits_in(alloc: Global, text: &[u8]) -> Result<Bits, AllocError>
    ensures { IfOk result (λ bits. bits ≡ flat_map bits_named text.now) }
{
    let mut bits = Vec::new(alloc);
    for character in text {
        push_bit(&mut bits, *character)?;
    }
    Ok(Bits::of(bits))
}

/// Reads a text as a state. It takes memory for a bit for each latch.
pub fn read_loosely(alloc: Global, text: &[u8]) -> Result<State, AllocError>
    ensures clock { IfOk result (λ state. state.clock ≡ clock_in text.now) }
    ensures latches { IfOk result (λ state. state.latches ≡ latches_in text.now) }
{
    let (_, behind_kind) = cut_at_space(text);
    let (_, numbers) = cut_at_space(behind_kind);
    let (clock, behind_clock) = cut_at_space(numbers);
    let (_, bits) = cut_at_space(behind_clock);
    Ok(State {
        clock: number_or_0(clock),
        latches: bits_in(alloc, bits)?,
    })
}
