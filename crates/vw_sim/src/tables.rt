//! The gates of a netlist within a clock: tables of at most six inputs one after the other, and wider ones between them.
ghost use Rattle.std.specs.Prelude.{◌≡◌, ◌<◌, ◌≤◌, ◌+◌, ℕ, List, length, slice_get, slice_index, slice_set, Some, IfOk};
ghost use Rattle.vw_net.specs.Order.{gate_inputs};
ghost use Rattle.vw_net.specs.declared.cell.Cell.TheVariants.{Gate};
ghost use Rattle.vw_net.specs.declared.cover.Cover.{Cover};
ghost use Rattle.vw_net.specs.Cover.{cover_value};
ghost use Rattle.vw_sim.specs.Steps.Values.{SettlesGates, bits_at};
ghost use Rattle.vw_sim.specs.Steps.Tables.{table_steps, wide_places};
ghost use Rattle.vw_sim.specs.Steps.Simulator.{AreTables, room_of};

use crate::clock::gate_value;
use crate::kept::{TableStep, run_part, table_steps};
use std::alloc::{AllocError, Global};
use vw_net::{Bits, Cell, Ordered, TRUTH_TABLE_INPUTS};

/// The gates of a netlist in order, all with room for two nets, or for four, or for six.
pub enum Tables {
    Two(Vec<TableStep<2>>),
    Four(Vec<TableStep<4>>),
    Six(Vec<TableStep<6>>),
}

impl Drop for Tables {
    fn drop(self) {
        match self {
            Tables::Two(_) => {}
            Tables::Four(_) => {}
            Tables::Six(_) => {}
        }
    }
}

impl Tables {
    /// How many nets there is room for.
    pub fn room(&self) -> u32
        ensures { result ≡ room_of self.now }
    {
        match self {
            Tables::Two(_) => 2,
            Tables::Four(_) => 4,
            Tables::Six(_) => 6,
        }
    }
}

/// How many nets a cell reads as a gate.
fn width(cell: &Cell) -> usize
    ensures { result ≡ length (gate_inputs (Some cell.now)) }
{
    match cell {
        Cell::Gate { ins, .. } => ins.len(),
        Cell::Latch { .. } => 0,
    }
}

/// The number of nets that the widest of the gates reads, apart from those that have no truth table.
fn widest_table(cells: &[Cell]) -> usize {
    let mut widest = 0;
    for cell in cells {
        let width = width(cell);
        if width <= TRUTH_TABLE_INPUTS as usize {
            widest = widest.max(width);
        }
    }
    widest
}

/// The gates of a netlist, with as little room as the widest of them needs that has a truth table.
pub fn tables_of(alloc: Global, ordered: &Ordered) -> Result<Tables, AllocError>
    ensures { IfOk result (λ tables. AreTables ordered.now tables) }
{
    match widest_table(ordered.flat().cells()) {
        0..=2 => Ok(Tables::Two(table_steps(alloc, ordered)?)),
        3 | 4 => Ok(Tables::Four(table_steps(alloc, ordered)?)),
        _ => Ok(Tables::Six(table_steps(alloc, ordered)?)),
    }
}

/// The places in the order at which a gate reads more nets than this.
pub fn wide_places(alloc: Global, ordered: &Ordered, room: u32) -> Result<Vec<usize>, AllocError>
    ensures { IfOk result (λ places. places.items
        ≡ wide_places room ordered.now.flat.cells 0 ordered.now.order) }
{
    let cells = ordered.flat().cells();
    let mut places = Vec::new(alloc);
    for (place, number) in ordered.order().iter().enumerate() {
        if width(&cells[*number as usize]) > room as usize {
            places.push(place)?;
        }
    }
    Ok(places)
}

/// Puts the value of each gate into the place of its net, in order.
pub fn run_tables(ordered: &Ordered, tables: &Tables, wide: &[usize], values: &mut Bits)
    requires nets { length values.old ≡ ordered.now.flat.inputs + length ordered.now.flat.cells }
    requires tables { AreTables ordered.now tables.now }
    requires wide { wide.now
        ≡ wide_places (room_of tables.now) ordered.now.flat.cells 0 ordered.now.order }
    ensures nets { length values.new ≡ length values.old }
    ensures values { SettlesGates ordered.now.flat values.old values.new }
{
    match tables {
        Tables::Two(steps) => run_gates(ordered, steps, wide, values),
        Tables::Four(steps) => run_gates(ordered, steps, wide, values),
        Tables::Six(steps) => run_gates(ordered, steps, wide, values),
    }
}

/// The same with the gates themselves: those up to a wide one, then this one, and so on.
fn run_gates<const N: usize>(
    ordered: &Ordered,
    steps: &[TableStep<N>],
    wide: &[usize],
    values: &mut Bits,
)
    requires room { N ≤ 6 }
    requires nets { length values.old ≡ ordered.now.flat.inputs + length ordered.now.flat.cells }
    requires steps { steps.now
        ≡ table_steps N ordered.now.flat.inputs ordered.now.flat.cells ordered.now.order }
    requires wide { wide.now ≡ wide_places N ordered.now.flat.cells 0 ordered.now.order }
    ensures nets { length values.new ≡ length values.old }
    ensures values { SettlesGates ordered.now.flat values.old values.new }
{
    let mut made = 0;
    for place in wide {
        run_part(steps, made, *place, values);
        run_wide(ordered, *place, values);
        made = *place + 1;
    }
    run_part(steps, made, steps.len(), values);
}

/// Works out the gate at a place of the order by the rows of its table.
fn run_wide(ordered: &Ordered, place: usize, values: &mut Bits)
    requires place { place < length ordered.now.order }
    requires nets { length values.old ≡ ordered.now.flat.inputs + length ordered.now.flat.cells }
    ensures { (ins : List ℕ) (cover : Cover)
        → slice_get ordered.now.flat.cells (slice_index ordered.now.order place) ≡ Some (Gate ins cover)
        → values.new ≡ slice_set values.old (ordered.now.flat.inputs + slice_index ordered.now.order place)
        (cover_value cover (bits_at values.old ins)) }
{
    let flat = ordered.flat();
    let first = flat.inputs() as usize;
    let cells = flat.cells();
    let order = ordered.order();
    let number = order[place] as usize;
    if let Cell::Gate { ins, cover } = &cells[number] {
        let bit = gate_value(ins.as_slice(), cover, values);
        values.set(first + number, bit);
    }
}
