//! Rows of truth values, one behind the other in one list.
ghost use Rattle.std.specs.Prelude.{◌≡◌, ◌<◌, ◌≤◌, length, Some, IfOk, OnErr, OnOk, ◌++◌, ◌∷◌, [], slice_get, slice_set, slice_index_or, replicate, false, get_or, map};
ghost use Rattle.std.specs.List.{All};
ghost use Rattle.vw_net.specs.Cut.{cut, AreEnds};

use std::alloc::{AllocError, Global};
use std::marker::Model;

/// Lists of truth values, one for each clock, kept in one list. Contracts see the list of these lists.
pub struct Rows {
    bits: Vec<bool>,
    ends: Vec<usize>,
}

impl Drop for Rows {
    fn drop(self) {
        let Rows { bits: _, ends: _ } = self;
    }
}

impl Model for Rows {
    ghost use Rattle.std.specs.Prelude.{List, Bool, length};
    ghost use Rattle.vw_net.specs.Cut.{cut, AreEnds};

    ghost Value = { List (List Bool) };

    ghost view = { λ rows. cut 0 rows.ends.items rows.bits.items };

    ghost invariant = { λ rows. AreEnds 0 rows.ends.items (length rows.bits.items) };
}

/// The place in the list of bits at which a row begins.
fn start_of(ends: &[usize], place: usize) -> usize
    requires { place < length ends.now }
    ensures { result ≡ get_or (0 ∷ ends.now) place 0 }
{
    if place == 0 {
        return 0;
    }
    ends[place - 1]
}

/// The row at a place, of rows that end at these places.
#[tactic(auto, using(crate::proofs::Cuts::ends_at, crate::proofs::Cuts::cut_at))]
fn part_at<'a>(bits: &'a [bool], ends: &[usize], place: usize) -> &'a [bool]
    requires ends { AreEnds 0 ends.now (length bits.now) }
    requires place { place < length ends.now }
    ensures { slice_get (cut 0 ends.now bits.now) place ≡ Some result.now }
{
    let from = start_of(ends, place);
    let to = ends[place];
    &bits[from..to]
}

/// Writes the value at a place of a row, of rows that end at these places.
#[tactic(auto, using(crate::proofs::Cuts::set_within, crate::proofs::Cuts::cut_set))]
fn set_at(bits: &mut [bool], ends: &[usize], row: usize, place: usize, bit: bool)
    requires ends { AreEnds 0 ends.now (length bits.old) }
    requires row { row < length ends.now }
    requires place { place < length (slice_index_or (cut 0 ends.now bits.old) row []) }
    ensures length { length bits.new ≡ length bits.old }
    ensures rows { cut 0 ends.now bits.new ≡ slice_set (cut 0 ends.now bits.old) row
        (slice_set (slice_index_or (cut 0 ends.now bits.old) row []) place bit) }
{
    let at = start_of(ends, row) + place;
    bits[at] = bit;
}

/// Writes the values at some places over a list.
fn pick_bits(values: &[bool], places: &[u32], to: &mut [bool])
    requires known { All (λ place. place < length values.now) places.now }
    requires size { length to.old ≡ length places.now }
    ensures length { length to.new ≡ length to.old }
    ensures bits { to.new ≡ map (λ place. slice_index_or values.now place false) places.now }
{
    for (i, place) in places.iter().enumerate() {
        to[i] = values[*place as usize];
    }
}

/// Writes these bits over a row, of rows that end at these places.
fn write_at(bits: &mut [bool], ends: &[usize], row: usize, from: &[bool])
    requires ends { AreEnds 0 ends.now (length bits.old) }
    requires row { row < length ends.now }
    requires size { length from.now ≡ length (slice_index_or (cut 0 ends.now bits.old) row []) }
    ensures length { length bits.new ≡ length bits.old }
    ensures rows { cut 0 ends.now bits.new ≡ slice_set (cut 0 ends.now bits.old) row from.now }
{
    let start = start_of(ends, row);
    bits[start..ends[row]].copy_from_slice(from);
}

/// Writes the values at some places over a row, of rows that end at these places.
fn pick_at(bits: &mut [bool], ends: &[usize], row: usize, values: &[bool], places: &[u32])
    requires ends { AreEnds 0 ends.now (length bits.old) }
    requires row { row < length ends.now }
    requires known { All (λ place. place < length values.now) places.now }
    requires size { length places.now ≡ length (slice_index_or (cut 0 ends.now bits.old) row []) }
    ensures length { length bits.new ≡ length bits.old }
    ensures rows { cut 0 ends.now bits.new ≡ slice_set (cut 0 ends.now bits.old) row
        (map (λ place. slice_index_or values.now place false) places.now) }
{
    let start = start_of(ends, row);
    pick_bits(values, places, &mut bits[start..ends[row]]);
}

impl Rows {
    /// No rows.
    pub fn new(alloc: Global) -> Self
        ensures { result ≡ [] }
    {
        Rows {
            bits: Vec::new(alloc),
            ends: Vec::new(alloc),
        }
    }

    /// How many rows there are.
    pub fn len(&self) -> usize
        ensures { result ≡ length self.now }
    {
        self.ends.len()
    }

    /// The row at a place.
    #[tactic(auto, using(crate::proofs::Cuts::cut_length))]
    pub fn row(&self, place: usize) -> &[bool]
        requires { place < length self.now }
        ensures { slice_get self.now place ≡ Some result.now }
    {
        part_at(&self.bits, &self.ends, place)
    }

    /// One row more. It takes memory for its bits. Where there is none, the rows are those of before.
    pub fn push(&mut self, row: &[bool]) -> Result<(), AllocError>
        ensures pushed { OnOk result (self.new ≡ self.old ++ (row.now ∷ [])) }
        ensures kept { OnErr result (self.new ≡ self.old) }
    {
        let end = self.bits.len() + row.len();
        self.ends.push(end)?;
        if let Err(fault) = self.bits.extend_from_slice(row) {
            self.ends.pop();
            return Err(fault);
        }
        Ok(())
    }

    /// Writes the value at a place of a row.
    #[tactic(auto, using(crate::proofs::Cuts::cut_length))]
    pub fn set(&mut self, row: usize, place: usize, bit: bool)
        requires row { row < length self.old }
        requires place { place < length (slice_index_or self.old row []) }
        ensures { self.new ≡ slice_set self.old row
            (slice_set (slice_index_or self.old row []) place bit) }
    {
        set_at(&mut self.bits, &self.ends, row, place, bit);
    }

    /// Writes these values over a row of as many.
    #[tactic(auto, using(crate::proofs::Cuts::cut_length))]
    pub fn write(&mut self, row: usize, bits: &[bool])
        requires row { row < length self.old }
        requires size { length bits.now ≡ length (slice_index_or self.old row []) }
        ensures { self.new ≡ slice_set self.old row bits.now }
    {
        write_at(&mut self.bits, &self.ends, row, bits);
    }

    /// Writes the values at some places of a list over a row of as many, in the order of the places.
    #[tactic(auto, using(crate::proofs::Cuts::cut_length))]
    pub fn pick(&mut self, row: usize, values: &[bool], places: &[u32])
        requires row { row < length self.old }
        requires known { All (λ place. place < length values.now) places.now }
        requires size { length places.now ≡ length (slice_index_or self.old row []) }
        ensures { self.new ≡ slice_set self.old row
            (map (λ place. slice_index_or values.now place false) places.now) }
    {
        pick_at(&mut self.bits, &self.ends, row, values, places);
    }

    /// So many rows of so many zeros.
    pub fn blank(alloc: Global, count: usize, width: usize) -> Result<Self, AllocError>
        ensures { IfOk result (λ rows. rows ≡ replicate count (replicate width false)) }
    {
        let zeros = vec![in alloc; false; width]?;
        let mut rows = Rows::new(alloc);
        for _ in 0..count {
            rows.push(&zeros)?;
        }
        Ok(rows)
    }
}
