//! Numbers in a circle.
ghost use Rattle.std.specs.Prelude.{◌≡◌, ◌<◌, ◌≤◌, ◌==◌, ◌++◌, [], ◌∷◌, ℕ, length, take, drop, IfOk};
ghost use Rattle.std.specs.List.{position_or_len};
ghost use Rattle.vw_order.specs.Steps.Rounds.{IsLeast, round_from};

use std::alloc::{AllocError, Global};

/// The first place of a number; the length where it isn't there.
fn place_among(numbers: &[u32], number: u32) -> usize
    ensures within { result ≤ length numbers.now }
    ensures first { result ≡ position_or_len (λ other. other == number) numbers.now }
{
    for (place, other) in numbers.iter().enumerate() {
        if *other == number {
            return place;
        }
    }
    numbers.len()
}

/// The stack from a number on, with one more at the end.
pub fn round(alloc: Global, stack: &[u32], last: u32, number: u32) -> Result<Vec<u32>, AllocError>
    ensures { IfOk result (λ circle. circle.items ≡ round_from number stack.now ++ last ∷ []) }
{
    let start = place_among(stack, number);
    let mut circle = stack[start..].to_vec(alloc)?;
    circle.push(last)?;
    Ok(circle)
}

/// The place of the least number.
fn least_place(numbers: &[u32]) -> usize
    requires { 0 < length numbers.now }
    ensures { IsLeast numbers.now result }
{
    let mut least = 0;
    for (place, number) in numbers.iter().enumerate() {
        if *number < numbers[least] {
            least = place;
        }
    }
    least
}

/// The numbers of a circle from the least one on, to the end and then from the start.
pub fn from_least(alloc: Global, circle: &[u32]) -> Result<Vec<u32>, AllocError>
    requires { 0 < length circle.now }
    ensures { IfOk result (λ turned. (start : ℕ) × IsLeast circle.now start
        × (turned.items ≡ drop start circle.now ++ take start circle.now)) }
{
    let start = least_place(circle);
    let mut turned = circle[start..].to_vec(alloc)?;
    turned.extend_from_slice(&circle[..start])?;
    Ok(turned)
}
