//! The truth table of a gate of at most six inputs: its values as one number of 64 bits.
ghost use Rattle.std.specs.Prelude.{◌≡◌, ◌≤◌, ◌<◌, length};
ghost use Rattle.std.specs.List.{All};
ghost use Rattle.vw_net.specs.TruthTable.{bit_of, place_of};
ghost use Rattle.vw_net.specs.Steps.MatchedPlaces.{mark_places, row_places, rows_places, truth_table_of};

use crate::cover::{Mark, Row};

/// How many inputs a gate has at most whose truth table is kept.
pub const TRUTH_TABLE_INPUTS: u32 = 6;

/// The truth tables of six inputs by themselves: bit k of the table of input i is bit i of k.
const INPUT_TABLES: [u64; 6] = [
    0xAAAA_AAAA_AAAA_AAAA,
    0xCCCC_CCCC_CCCC_CCCC,
    0xF0F0_F0F0_F0F0_F0F0,
    0xFF00_FF00_FF00_FF00,
    0xFFFF_0000_FFFF_0000,
    0xFFFF_FFFF_0000_0000,
];

/// The place of some values: the number whose bit i is the value of input i.
pub(crate) fn place_of(bits: &[bool]) -> u32
    requires { length bits.now ≤ 6 }
    ensures { result ≡ place_of bits.now }
{
    let mut place = 0;
    for i in (0..bits.len()).rev() {
        place = place * 2 + bits[i] as u32;
    }
    place
}

/// The value of a truth table at a place: its bit of that number.
pub fn bit_of(truth_table: u64, place: u32) -> bool
    requires { place < 64 }
    ensures { result ≡ bit_of truth_table place }
{
    (truth_table >> place) & 1 == 1
}

/// The places at which an input with this truth table has a value that a mark asks for.
fn mark_places(input_table: u64, mark: Mark) -> u64
    ensures { result ≡ mark_places input_table mark }
{
    match mark {
        Mark::Zero => !input_table,
        Mark::One => input_table,
        Mark::Any => u64::MAX,
    }
}

/// The places at which each mark of a row matches.
fn row_places(marks: &[Mark]) -> u64
    requires { length marks.now ≤ 6 }
    ensures { result ≡ row_places 18446744073709551615 0 marks.now }
{
    let mut places = u64::MAX;
    for (i, mark) in marks.iter().enumerate() {
        places &= mark_places(INPUT_TABLES[i], *mark);
    }
    places
}

/// The places at which some row matches.
fn rows_places(rows: &[Row]) -> u64
    requires { All (λ row. length row.marks ≤ 6) rows.now }
    ensures { result ≡ rows_places 0 rows.now }
{
    let mut places = 0;
    for row in rows {
        places |= row_places(row.marks());
    }
    places
}

/// The places at which a table has the value 1; none where it has more than six inputs. It takes no memory.
pub(crate) fn truth_table_of(inputs: u32, on: bool, rows: &[Row]) -> u64
    requires { All (λ row. length row.marks ≡ inputs) rows.now }
    ensures { result ≡ truth_table_of inputs on rows.now }
{
    if inputs > TRUTH_TABLE_INPUTS {
        return 0;
    }
    let places = rows_places(rows);
    if on { places } else { !places }
}
