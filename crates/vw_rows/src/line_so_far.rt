//! A line that is read piece by piece.
ghost use Rattle.std.specs.Prelude.{◌≡◌, ◌≢◌, ◌≤◌, ◌<◌, ◌∷◌, ◌==◌, ◌||◌, [], take, length, IfOk, OnOk, MatchOption, Err, true, false};
ghost use Rattle.std.specs.List.{list_all};
ghost use Rattle.vw_rows.specs.Steps.Lines.{bits_said, bits_kept, IsUnended, IsEndOf, EndsBehind, IsLine, GoesOnByFront, TakesBytes, TakesFront, TakesLine};

use crate::fault::StimFault;
use crate::said::{Said, is_bit, with_byte};
use bstr::ByteSlice;
use std::alloc::{AllocError, Global};

/// What was read of a line.
pub struct LineSoFar {
    pub said: Said,
    /// Whether a comment has begun.
    pub commented: bool,
    /// The bits of its row, as long as there are at most `kept`.
    pub bits: Vec<bool>,
    /// How many bits are kept.
    pub kept: u32,
}

impl Drop for LineSoFar {
    fn drop(self) {
        let LineSoFar {
            said: _,
            commented: _,
            bits: _,
            kept: _,
        } = self;
    }
}

/// How many bits a word of bits has that may go on, or begin.
fn bits_said(said: Said) -> Option<u64>
    ensures { result ≡ bits_said said }
{
    match said {
        Said::Nothing => Some(0),
        Said::Bits(count) => Some(count),
        _ => None,
    }
}

/// How many bytes at the front of a piece are bits.
fn bits_in_front(piece: &[u8]) -> usize
    ensures within { result ≤ length piece.now }
    ensures bits { list_all (λ b. b == 48 || b == 49) (take result piece.now) ≡ true }
{
    for (at, byte) in piece.iter().enumerate() {
        if !is_bit(*byte) {
            return at;
        }
    }
    piece.len()
}

/// The place of the byte that ends the line, where it is there.
fn line_end(bytes: &[u8]) -> Option<usize>
    ensures { MatchOption result (IsUnended bytes.now) (IsEndOf bytes.now) }
{
    bytes.find_byte(b'\n')
}

/// How many bytes there are up to the end of a line in a comment, whose bytes up to a place were looked at, and whether
/// the end is there.
fn end_behind(piece: &[u8], from: usize) -> (usize, bool)
    requires { from ≤ length piece.now }
    ensures { EndsBehind piece.now from result.0 result.1 }
{
    let (_, rest) = piece.split_at(from);
    match line_end(rest) {
        Some(end) => (from + end + 1, true),
        None => (piece.len(), false),
    }
}

/// Keeps the bit that a byte spells, where what the line says with it is a word of so few bits.
fn keep_bit(bits: &mut Vec<bool>, kept: u32, said: Said, byte: u8) -> Result<(), AllocError>
    ensures { OnOk result (bits.new.items ≡ bits_kept kept said (byte ∷ []) bits.old.items) }
{
    if let Said::Bits(count) = said
        && count <= u64::from(kept)
    {
        bits.push(byte == b'1')?;
    }
    Ok(())
}

/// Keeps the bits that bytes spell, where with them there are so few.
fn keep_bits(bits: &mut Vec<bool>, kept: u32, count: u64, bytes: &[u8]) -> Result<(), AllocError>
    ensures { OnOk result (bits.new.items
        ≡ bits_kept kept (Said.Bits count) bytes.now bits.old.items) }
{
    if count > u64::from(kept) {
        return Ok(());
    }
    for byte in bytes {
        bits.push(*byte == b'1')?;
    }
    Ok(())
}

impl LineSoFar {
    /// A line of which nothing was read. It takes no memory.
    pub fn new(alloc: Global, kept: u32) -> Self
        ensures line { IsLine [] result }
        ensures kept { result.kept ≡ kept }
    {
        LineSoFar {
            said: Said::Nothing,
            commented: false,
            bits: Vec::new(alloc),
            kept,
        }
    }

    /// Begins the next line.
    pub fn begin(&mut self)
        ensures line { IsLine [] self.new }
        ensures kept { self.new.kept ≡ self.old.kept }
    {
        self.said = Said::Nothing;
        self.commented = false;
        self.bits.clear();
    }

    /// Takes a byte of a word, or a blank.
    fn take_byte(&mut self, byte: u8, number: u64) -> Result<(), StimFault>
        requires word { byte ≢ 35 }
        requires inside { byte ≢ 10 }
        requires plain { self.old.commented ≡ false }
        ensures takes { TakesBytes (byte ∷ []) number self.old self.new result }
        ensures reads_nothing { result ≢ Err StimFault.ReadFault }
    {
        let Some(said) = with_byte(self.said, byte) else {
            return Err(StimFault::BadLine(number));
        };
        keep_bit(&mut self.bits, self.kept, said, byte)?;
        self.said = said;
        Ok(())
    }

    /// Takes the bits at the front of a piece at once, where a word of bits may go on there, and says how many.
    fn take_bits(&mut self, piece: &[u8]) -> Result<usize, AllocError>
        requires plain { self.old.commented ≡ false }
        ensures { IfOk result (λ count. GoesOnByFront piece.now count self.old self.new) }
    {
        let Some(before) = bits_said(self.said) else {
            return Ok(0);
        };
        let count = bits_in_front(piece);
        if count == 0 {
            return Ok(0);
        }
        let longer = before.saturating_add(count as u64);
        keep_bits(&mut self.bits, self.kept, longer, &piece[..count])?;
        self.said = Said::Bits(longer);
        Ok(count)
    }

    /// Takes the words at the front of a piece byte by byte, up to a comment or the end of the line, and says how many
    /// bytes.
    fn take_bytes(&mut self, piece: &[u8], number: u64) -> Result<usize, StimFault>
        requires plain { self.old.commented ≡ false }
        ensures takes { TakesFront piece.now number self.old self.new result }
        ensures reads_nothing { result ≢ Err StimFault.ReadFault }
    {
        for (at, byte) in piece.iter().enumerate() {
            if *byte == b'\n' || *byte == b'#' {
                return Ok(at);
            }
            self.take_byte(*byte, number)?;
        }
        Ok(piece.len())
    }

    /// Takes the words at the front of a piece, up to a comment or the end of the line, and says how many bytes.
    fn take_words(&mut self, piece: &[u8], number: u64) -> Result<usize, StimFault>
        requires plain { self.old.commented ≡ false }
        ensures takes { TakesFront piece.now number self.old self.new result }
        ensures reads_nothing { result ≢ Err StimFault.ReadFault }
    {
        let count = self.take_bits(piece)?;
        let (_, rest) = piece.split_at(count);
        let further = self.take_bytes(rest, number)?;
        Ok(count + further)
    }

    /// Takes the bytes at the front of a piece that belong to the line, with its end where it is there. Says how many
    /// these are, and whether the line has ended.
    pub fn take(&mut self, piece: &[u8], number: u64) -> Result<(usize, bool), StimFault>
        ensures takes { TakesLine piece.now number self.old self.new result }
        ensures reads_nothing { result ≢ Err StimFault.ReadFault }
    {
        if self.commented {
            return Ok(end_behind(piece, 0));
        }
        let words = self.take_words(piece, number)?;
        if words == piece.len() {
            return Ok((words, false));
        }
        if piece[words] == b'\n' {
            return Ok((words + 1, true));
        }
        self.commented = true;
        Ok(end_behind(piece, words))
    }
}
