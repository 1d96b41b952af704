ghost use Rattle.std.specs.Prelude.{◌≡◌, ◌≤◌, ◌<◌, ◌^◌, Bool, List, Some, length, IfOk};
ghost use Rattle.std.specs.List.{All};
ghost use Rattle.vw_net.specs.declared.limits.TheConstants.{MOST_TABLE_INPUTS};
ghost use Rattle.vw_net.specs.Mark.{mark_matches};
ghost use Rattle.vw_net.specs.TruthTable.{place_of};
ghost use Rattle.vw_net.specs.Steps.MatchedPlaces.{truth_table_of};
ghost use Rattle.vw_net.specs.Steps.Masks.{rows_of};

use crate::masks::{Masks, all_masks, number_of};
use crate::sequence::{Bits, Sequence};
use crate::truth_table::{TRUTH_TABLE_INPUTS, bit_of, place_of, truth_table_of};
use std::alloc::{AllocError, Global};
use std::marker::Model;

/// What a row asks of one input of its table. Source: the characters `0`, `1` and `-` of a BLIF table.
#[derive(Clone, Copy, Debug, PartialEq, Eq)]
pub enum Mark {
    Zero,
    One,
    /// Both values match.
    Any,
}

impl Mark {
    /// Whether a value is one that the mark asks for.
    pub fn matches(self, bit: bool) -> bool
        ensures { result ≡ mark_matches self bit }
    {
        match self {
            Mark::Zero => !bit,
            Mark::One => bit,
            Mark::Any => true,
        }
    }
}

/// One row of a table: a mark for each input.
pub struct Row {
    pub marks: Sequence<Mark>,
}

impl Drop for Row {
    fn drop(self) {
        let Row { marks: _ } = self;
    }
}

impl Row {
    /// The row of these marks.
    pub fn make(marks: Sequence<Mark>) -> Self
        ensures { result.marks ≡ marks }
    {
        Row { marks }
    }

    /// The marks, one for each input, in the order of the inputs.
    pub fn marks(&self) -> &[Mark]
        ensures { result.now ≡ self.now.marks }
    {
        self.marks.as_slice()
    }
}

/// The table of a gate: its value is `on` where some row matches the inputs, and the other value where none does. Contracts
/// see its inputs, at most 128, the value where a row matches, and the rows. It takes 32 bytes a row.
/// Source: the on-set and the off-set of a BLIF table.
pub struct Cover {
    inputs: u32,
    on: bool,
    masks: Vec<Masks>,
    truth_table: u64,
    ghost narrow: { inputs ≤ MOST_TABLE_INPUTS },
    ghost even: { All (λ row. length row.marks ≡ inputs) (rows_of inputs masks.items) },
    ghost within: { All (λ row. row.looked < 2 ^ inputs) masks.items },
    ghost truth_table_is: { truth_table
        ≡ truth_table_of inputs on (rows_of inputs masks.items) },
}

impl Drop for Cover {
    fn drop(self) {
        let Cover {
            inputs: _,
            on: _,
            masks: _,
            truth_table: _,
        } = self;
    }
}

impl Model for Cover {
    ghost use Rattle.vw_net.specs.Table.{Table};
    ghost use Rattle.vw_net.specs.Steps.Masks.{rows_of};

    ghost Value = { Table };

    ghost view = { λ cover. record {
      inputs = cover.inputs;
      on = cover.on;
      rows = rows_of cover.inputs cover.masks.items;
      narrow = cover.narrow;
      even = cover.even;
    } };
}

impl Cover {
    ghost use Rattle.vw_net.specs.Cover.{cover_value, mark_at};
    ghost use Rattle.vw_net.specs.TruthTable.{truth_table};

    /// The table with these rows. It takes memory for each row, and gives the rows up where there is none.
    pub fn make(
        alloc: Global,
        inputs: u32,
        on: bool,
        rows: Sequence<Row>,
    ) -> Result<Self, AllocError>
        requires narrow { inputs ≤ MOST_TABLE_INPUTS }
        requires even { All (λ row. length row.marks ≡ inputs) rows }
        ensures inputs { IfOk result (λ cover. cover.inputs ≡ inputs) }
        ensures on { IfOk result (λ cover. cover.on ≡ on) }
        ensures rows { IfOk result (λ cover. cover.rows ≡ rows) }
    {
        let truth_table = truth_table_of(inputs, on, rows.as_slice());
        let masks = all_masks(alloc, rows.as_slice())?;
        Ok(Cover {
            inputs,
            on,
            masks,
            truth_table,
        })
    }

    /// The number of inputs.
    pub fn inputs(&self) -> u32
        ensures { result ≡ self.now.inputs }
    {
        self.inputs
    }

    /// The value where some row matches.
    pub fn on(&self) -> bool
        ensures { result ≡ self.now.on }
    {
        self.on
    }

    /// How many rows it has.
    pub fn count(&self) -> u64
        ensures { result ≡ length self.now.rows }
    {
        self.masks.len() as u64
    }

    /// The mark of a row, from 0, for an input.
    pub fn mark(&self, row: u64, input: u32) -> Mark
        requires row { row < length self.now.rows }
        requires input { input < self.now.inputs }
        ensures { mark_at self.now row input ≡ Some result }
    {
        let masks = self.masks[row as usize];
        if (masks.looked >> input) & 1 == 0 {
            return Mark::Any;
        }
        if (masks.wanted >> input) & 1 == 0 {
            return Mark::Zero;
        }
        Mark::One
    }

    /// Its truth table, where it has at most six inputs: bit k is the value where input i has bit i of k. Else 0.
    pub fn truth_table(&self) -> u64
        ensures { result ≡ truth_table self.now }
    {
        self.truth_table
    }

    /// A copy of the table.
    pub fn copy(&self, alloc: Global) -> Result<Self, AllocError>
        ensures inputs { IfOk result (λ copy. copy.inputs ≡ self.now.inputs) }
        ensures on { IfOk result (λ copy. copy.on ≡ self.now.on) }
        ensures rows { IfOk result (λ copy. copy.rows ≡ self.now.rows) }
    {
        Ok(Cover {
            inputs: self.inputs,
            on: self.on,
            masks: Vec::from_slice(alloc, self.masks.as_slice())?,
            truth_table: self.truth_table,
        })
    }

    /// The table's value for one bit per input. It takes no memory.
    pub fn value(&self, bits: &Bits) -> bool
        requires { length bits.now ≡ self.now.inputs }
        ensures { result ≡ cover_value self.now bits.now }
    {
        self.value_on(bits.as_slice())
    }

    /// The same for bits that lie in a slice.
    pub fn value_on(&self, bits: &[bool]) -> bool
        requires { length bits.now ≡ self.now.inputs }
        ensures { result ≡ cover_value self.now bits.now }
    {
        if self.inputs <= TRUTH_TABLE_INPUTS {
            return bit_of(self.truth_table, place_of(bits));
        }
        self.value_by_rows(number_of(bits))
    }

    /// The value where the inputs' values are the bits of this number.
    fn value_by_rows(&self, place: u128) -> bool
        ensures { (bits : List Bool) → length bits ≡ self.now.inputs → place_of bits ≡ place
            → result ≡ cover_value self.now bits }
    {
        for masks in self.masks.as_slice() {
            if masks.is_matched(place) {
                return self.on;
            }
        }
        !self.on
    }
}
