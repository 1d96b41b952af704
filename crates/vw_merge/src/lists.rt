//! Lists that may be read and written at any place: past the end they are 0, and what is written there is lost.

/// The number at a place.
pub fn at(list: &[u32], place: u32) -> u32 {
    match list.get(place as usize) {
        Some(number) => *number,
        None => 0,
    }
}

/// Writes a number.
pub fn set(list: &mut [u32], place: u32, number: u32) {
    if let Some(old) = list.get_mut(place as usize) {
        *old = number;
    }
}

/// Adds to a number, which ends at the greatest one.
pub fn add(list: &mut [u32], place: u32, amount: u32) {
    if let Some(old) = list.get_mut(place as usize) {
        *old = old.saturating_add(amount);
    }
}

/// The same of numbers with more bits.
pub fn long_at(list: &[u64], place: u32) -> u64 {
    match list.get(place as usize) {
        Some(number) => *number,
        None => 0,
    }
}
