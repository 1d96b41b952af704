//! Numbers that rise and fall.
ghost use Rattle.std.specs.Prelude.{◌≡◌, ◌≢◌, ◌+◌, ◌<◌, ◌≤◌, ◌^◌, ℕ, length, replicate, slice_index, slice_set, IfOk};
ghost use Rattle.std.specs.List.{All};
ghost use Rattle.vw_part.specs.Steps.CellNets.{times_among};

use std::alloc::{AllocError, Global};

/// A number for each net, or for each cell.
pub struct Tally {
    pub counts: Vec<u32>,
}

impl Drop for Tally {
    fn drop(self) {
        let Tally { counts: _ } = self;
    }
}

impl Tally {
    /// So many zeros.
    pub fn zeros(alloc: Global, many: usize) -> Result<Self, AllocError>
        ensures { IfOk result (λ tally. tally.counts.items ≡ replicate many 0) }
    {
        Ok(Tally {
            counts: vec![in alloc; 0; many]?,
        })
    }

    /// The number at a place, which is 0 past the end.
    pub fn at(&self, place: usize) -> u32
        ensures { result ≡ slice_index self.now.counts.items place }
    {
        match self.counts.get(place) {
            Some(count) => *count,
            None => 0,
        }
    }

    /// Writes the number at a place.
    pub fn set(&mut self, place: usize, count: u32)
        requires { place < length self.old.counts.items }
        ensures { self.new.counts.items ≡ slice_set self.old.counts.items place count }
    {
        self.counts[place] = count;
    }

    /// Adds one at each of these places.
    pub fn add(&mut self, places: &[u32])
        requires within { All (λ place. place < length self.old.counts.items) places.now }
        requires fits { (place : ℕ)
            → slice_index self.old.counts.items place + times_among places.now place < 2 ^ 32 }
        ensures long { length self.new.counts.items ≡ length self.old.counts.items }
        ensures counts { (place : ℕ) → slice_index self.new.counts.items place
            ≡ slice_index self.old.counts.items place + times_among places.now place }
    {
        for place in places {
            self.counts[*place as usize] += 1;
        }
    }

    /// Takes one away at each of these places.
    pub fn take(&mut self, places: &[u32])
        requires within { All (λ place. place < length self.old.counts.items) places.now }
        requires there { (place : ℕ)
            → times_among places.now place ≤ slice_index self.old.counts.items place }
        ensures long { length self.new.counts.items ≡ length self.old.counts.items }
        ensures counts { (place : ℕ)
            → slice_index self.new.counts.items place + times_among places.now place
            ≡ slice_index self.old.counts.items place }
    {
        for place in places {
            self.counts[*place as usize] -= 1;
        }
    }

    /// Adds one at each of these cells that is on a chip.
    pub fn add_on(&mut self, cells: &[u32], chip_of: &[u32], chip: u32)
        requires within { All (λ cell. cell < length self.old.counts.items) cells.now }
        requires fits { (cell : ℕ) → slice_index chip_of.now cell ≡ chip
            → slice_index self.old.counts.items cell + times_among cells.now cell < 2 ^ 32 }
        ensures long { length self.new.counts.items ≡ length self.old.counts.items }
        ensures counts { (cell : ℕ) → slice_index chip_of.now cell ≡ chip
            → slice_index self.new.counts.items cell
            ≡ slice_index self.old.counts.items cell + times_among cells.now cell }
        ensures others { (cell : ℕ) → slice_index chip_of.now cell ≢ chip
            → slice_index self.new.counts.items cell ≡ slice_index self.old.counts.items cell }
    {
        for cell in cells {
            if chip_at(chip_of, *cell) == chip {
                self.counts[*cell as usize] += 1;
            }
        }
    }

    /// Takes one away at each of these cells that is on a chip.
    pub fn take_on(&mut self, cells: &[u32], chip_of: &[u32], chip: u32)
        requires within { All (λ cell. cell < length self.old.counts.items) cells.now }
        requires there { (cell : ℕ) → slice_index chip_of.now cell ≡ chip
            → times_among cells.now cell ≤ slice_index self.old.counts.items cell }
        ensures long { length self.new.counts.items ≡ length self.old.counts.items }
        ensures counts { (cell : ℕ) → slice_index chip_of.now cell ≡ chip
            → slice_index self.new.counts.items cell + times_among cells.now cell
            ≡ slice_index self.old.counts.items cell }
        ensures others { (cell : ℕ) → slice_index chip_of.now cell ≢ chip
            → slice_index self.new.counts.items cell ≡ slice_index self.old.counts.items cell }
    {
        for cell in cells {
            if chip_at(chip_of, *cell) == chip {
                self.counts[*cell as usize] -= 1;
            }
        }
    }
}

/// The chip of a cell, which is the host where it isn't dealt yet.
fn chip_at(chip_of: &[u32], cell: u32) -> u32
    ensures { result ≡ slice_index chip_of.now cell }
{
    match chip_of.get(cell as usize) {
        Some(chip) => *chip,
        None => 0,
    }
}
