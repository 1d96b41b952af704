//! Tables of at most six inputs over words: the value of a table in 64 lanes at the same time.
ghost use Rattle.std.specs.Prelude.{◌≡◌, ◌<◌, ℕ, [], ◌∷◌, bit_xor, if◌then◌else◌};
ghost use Rattle.vw_net.specs.TruthTable.{bit_of, place_of};

/// In each lane the bit of `one` where that of `by` is 1, and that of `other` where it is 0.
fn chosen(by: u64, one: u64, other: u64) -> u64
    ensures { (lane : ℕ) → bit_of result lane
        ≡ (if bit_of by lane then bit_of one lane else bit_of other lane) }
{
    other ^ (by & (one ^ other))
}

/// The value of a truth table without inputs in each lane: its lowest bit.
pub fn of_none(table: u64) -> u64
    ensures { (lane : ℕ) → lane < 64 → bit_of result lane ≡ bit_of table (place_of []) }
{
    if table % 2 == 1 { u64::MAX } else { 0 }
}

/// The word of a gate's first input, and the four tables of this input alone in each lane, by their truth tables.
#[derive(Drop)]
pub struct First {
    word: u64,
    tables: [u64; 4],
    ghost tables_are: { tables ≡ 0 ∷ bit_xor word 18446744073709551615 ∷ word ∷ 18446744073709551615 ∷ [] },
}

impl First {
    /// The first input of a gate that has this word.
    pub fn of(word: u64) -> Self
        ensures { result.word ≡ word }
    {
        First {
            word,
            tables: [0, word ^ u64::MAX, word, u64::MAX],
        }
    }

    /// The value of a truth table of the first input.
    pub fn value(&self, table: u64) -> u64
        ensures { (lane : ℕ) → lane < 64
            → bit_of result lane ≡ bit_of table (place_of (bit_of self.now.word lane ∷ [])) }
    {
        self.tables[(table % 4) as usize]
    }
}

/// The value of a truth table of two inputs in each lane; of the functions below, of as many as they take words.
pub fn of_two(table: u64, a: &First, b: u64) -> u64
    ensures { (lane : ℕ) → lane < 64
        → bit_of result lane ≡ bit_of table (place_of (bit_of a.now.word lane ∷ bit_of b lane ∷ [])) }
{
    chosen(b, a.value(table / 4), a.value(table))
}

pub fn of_three(table: u64, a: &First, b: u64, c: u64) -> u64
    ensures { (lane : ℕ) → lane < 64 → bit_of result lane
        ≡ bit_of table (place_of (bit_of a.now.word lane ∷ bit_of b lane ∷ bit_of c lane ∷ [])) }
{
    chosen(c, of_two(table / 16, a, b), of_two(table, a, b))
}

pub fn of_four(table: u64, a: &First, b: u64, c: u64, d: u64) -> u64
    ensures { (lane : ℕ) → lane < 64 → bit_of result lane
        ≡ bit_of table (place_of (bit_of a.now.word lane ∷ bit_of b lane ∷ bit_of c lane ∷ bit_of d lane ∷ [])) }
{
    chosen(d, of_three(table / 256, a, b, c), of_three(table, a, b, c))
}

pub fn of_five(table: u64, a: &First, b: u64, c: u64, d: u64, e: u64) -> u64
    ensures { (lane : ℕ) → lane < 64 → bit_of result lane
        ≡ bit_of table (place_of (bit_of a.now.word lane ∷ bit_of b lane ∷ bit_of c lane ∷ bit_of d lane
        ∷ bit_of e lane ∷ [])) }
{
    chosen(
        e,
        of_four(table / 65_536, a, b, c, d),
        of_four(table, a, b, c, d),
    )
}

pub fn of_six(table: u64, a: &First, b: u64, c: u64, d: u64, e: u64, f: u64) -> u64
    ensures { (lane : ℕ) → lane < 64 → bit_of result lane
        ≡ bit_of table (place_of (bit_of a.now.word lane ∷ bit_of b lane ∷ bit_of c lane ∷ bit_of d lane
        ∷ bit_of e lane ∷ bit_of f lane ∷ [])) }
{
    chosen(
        f,
        of_five(table / 4_294_967_296, a, b, c, d, e),
        of_five(table, a, b, c, d, e),
    )
}
