//! The rows of a table as numbers with a bit for each input.
ghost use Rattle.std.specs.Prelude.{◌≡◌, ◌≤◌, ◌==◌, length, map, bit_and, bit_xor, IfOk};
ghost use Rattle.std.specs.List.{All};
ghost use Rattle.vw_net.specs.TruthTable.{place_of};
ghost use Rattle.vw_net.specs.Steps.Masks.{masks_of, is_looked, is_wanted, is_matched};

use crate::cover::{Mark, Row};
use std::alloc::{AllocError, Global};

/// A row of a table. Bit i of each number belongs to input i.
#[derive(Clone, Copy, Debug, PartialEq, Eq)]
pub struct Masks {
    /// The inputs that the row looks at.
    pub looked: u128,
    /// The values that it wants there; 0 where it doesn't look.
    pub wanted: u128,
}

impl Masks {
    /// The masks of a row with these marks.
    pub fn of(marks: &[Mark]) -> Self
        requires { length marks.now ≤ 128 }
        ensures { result ≡ masks_of marks.now }
    {
        let mut looked: u128 = 0;
        let mut wanted: u128 = 0;
        for i in (0..marks.len()).rev() {
            looked = looked * 2 + is_looked(marks[i]) as u128;
            wanted = wanted * 2 + is_wanted(marks[i]) as u128;
        }
        Masks { looked, wanted }
    }

    /// Whether the row matches the inputs whose values are the bits of this number.
    pub fn is_matched(self, place: u128) -> bool
        ensures { result ≡ is_matched place self }
    {
        (place ^ self.wanted) & self.looked == 0
    }
}

fn is_looked(mark: Mark) -> bool
    ensures { result ≡ is_looked mark }
{
    match mark {
        Mark::Zero | Mark::One => true,
        Mark::Any => false,
    }
}

fn is_wanted(mark: Mark) -> bool
    ensures { result ≡ is_wanted mark }
{
    match mark {
        Mark::One => true,
        Mark::Zero | Mark::Any => false,
    }
}

/// The masks of each row.
pub(crate) fn all_masks(alloc: Global, rows: &[Row]) -> Result<Vec<Masks>, AllocError>
    requires { All (λ row. length row.marks ≤ 128) rows.now }
    ensures { IfOk result (λ masks. masks.items ≡ map (λ row. masks_of row.marks) rows.now) }
{
    let mut masks = Vec::with_capacity(alloc, rows.len())?;
    for row in rows {
        masks.push(Masks::of(row.marks()))?;
    }
    Ok(masks)
}

/// The number whose bit i is the value of input i.
pub(crate) fn number_of(bits: &[bool]) -> u128
    requires { length bits.now ≤ 128 }
    ensures { result ≡ place_of bits.now }
{
    let mut number: u128 = 0;
    for i in (0..bits.len()).rev() {
        number = number * 2 + bits[i] as u128;
    }
    number
}
