//! Rows of bits, 64 to a word.
ghost use Rattle.std.specs.Prelude.{◌≡◌, ◌==◌, ◌⊎◌, ℕ, length, IsTrue};
ghost use Rattle.vw_short_bound.specs.Steps.Rows.{has};

/// Whether a place has its bit in a row.
pub fn has(row: &[u64], place: usize) -> bool
    ensures { result ≡ has row.now place }
{
    match row.get(place / 64) {
        Some(word) => (*word >> (place % 64) as u32) & 1 == 1,
        None => false,
    }
}

/// Gives a place its bit in a row; a place past its end has none.
pub fn add(row: &mut [u64], place: usize)
    ensures long { length row.new ≡ length row.old }
    ensures bits { (at : ℕ) → IsTrue (has row.new at) → IsTrue (has row.old at) ⊎ (at ≡ place) }
{
    if place / 64 < row.len() {
        row[place / 64] |= 1 << (place % 64) as u32;
    }
}

/// Gives each place its bit that has one in another row.
pub fn merge(row: &mut [u64], other: &[u64])
    ensures long { length row.new ≡ length row.old }
    ensures bits { (at : ℕ) → IsTrue (has row.new at) → IsTrue (has row.old at) ⊎ IsTrue (has other.now at) }
{
    let words = row.len().min(other.len());
    for index in 0..words {
        row[index] |= other[index];
    }
}
