//! The same parts on other chips. A descent of the placement ends elsewhere from another start.
use crate::numbers::NumberList;
use std::alloc::{AllocError, Global};
use vw_plan::Board;

/// The numbers below a limit in some order, which a seed determines: a shuffle (Fisher and Yates 1938) by draws of a linear
/// congruence (Lehmer 1951).
fn shuffled(alloc: Global, many: u32, seed: u32) -> Result<NumberList, AllocError> {
    let mut numbers = NumberList::below(alloc, many)?;
    let mut state = seed;
    for place in 0..many {
        let last = many.saturating_sub(place).saturating_sub(1);
        state = state.wrapping_mul(75).wrapping_add(74) % 65537;
        let other = state.checked_rem(last.saturating_add(1)).unwrap_or(0);
        let number = numbers.at(other);
        numbers.set(other, numbers.at(last));
        numbers.set(last, number);
    }
    Ok(numbers)
}

/// A chip for each cell, given the chips of a plan: cells that share a chip still do, but the chips have other numbers, which a
/// seed determines. Nothing but how good a plan becomes rests on it.
pub fn renumbered(
    alloc: Global,
    board: &Board,
    chip_of: &[u32],
    seed: u32,
) -> Result<Vec<u32>, AllocError> {
    let numbers = shuffled(alloc, board.chips(), seed)?;
    let mut wishes = Vec::with_capacity(alloc, chip_of.len())?;
    for chip in chip_of {
        let number = numbers.at(chip.saturating_sub(1));
        wishes.push(number.saturating_add(1))?;
    }
    Ok(wishes)
}
