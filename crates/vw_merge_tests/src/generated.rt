//! Netlists that are generated from a number.
use std::alloc::{AllocError, Global};
use std::test::Fail;
use vw_net::{Cell, Flat, Init, Mark, Ordered, Row, Rows, Sequence};
use vw_order::order;

/// Numbers that follow each other without a pattern.
#[derive(Drop)]
pub struct Dice {
    pub state: u32,
}

impl Dice {
    /// A number below a limit.
    pub fn below(&mut self, limit: u32) -> u32 {
        self.state = self
            .state
            .wrapping_mul(1_664_525)
            .wrapping_add(1_013_904_223);
        (self.state >> 8).checked_rem(limit).unwrap_or(0)
    }

    /// A bit.
    pub fn bit(&mut self) -> bool {
        self.below(2) == 1
    }
}

/// What a netlist is generated from.
#[derive(Clone, Copy)]
pub struct Recipe {
    pub inputs: u32,
    pub cells: u32,
    pub outputs: u32,
    /// The most inputs of most gates.
    pub width: u32,
    /// One gate in so many has up to 128 inputs.
    pub wide: u32,
    /// One cell in so many is a latch.
    pub latches: u32,
    /// How far back gates read.
    pub reach: u32,
}

fn mark(dice: &mut Dice, width: u32) -> Mark {
    // of a wide row few inputs are looked at
    if dice.below(width.saturating_add(4)) >= 5 {
        return Mark::Any;
    }
    match dice.below(5) {
        0 | 1 => Mark::Zero,
        2 | 3 => Mark::One,
        _ => Mark::Any,
    }
}

fn row(alloc: Global, dice: &mut Dice, width: u32) -> Result<Row, AllocError> {
    let mut marks = Vec::new(alloc);
    for _ in 0..width {
        marks.push(mark(dice, width))?;
    }
    Ok(Row::make(Sequence::of(marks)))
}

fn rows(alloc: Global, dice: &mut Dice, width: u32) -> Result<Sequence<Row>, AllocError> {
    let mut list = Vec::new(alloc);
    for _ in 0..dice.below(5) {
        list.push(row(alloc, dice, width)?)?;
    }
    Ok(Sequence::of(list))
}

fn width(dice: &mut Dice, recipe: &Recipe) -> u32 {
    if dice.below(recipe.wide) == 1 {
        return dice.below(129);
    }
    dice.below(recipe.width.saturating_add(1))
}

/// One of the nets not far before this one.
fn net_before(dice: &mut Dice, recipe: &Recipe, net: u32) -> u32 {
    net.saturating_sub(1)
        .saturating_sub(dice.below(recipe.reach.min(net)))
}

fn gate(alloc: Global, dice: &mut Dice, recipe: &Recipe, net: u32) -> Result<Cell, Fail> {
    let mut ins = Vec::new(alloc);
    let mut width = width(dice, recipe);
    if net == 0 {
        width = 0;
    }
    for _ in 0..width {
        ins.push(net_before(dice, recipe, net))?;
    }
    let rows = rows(alloc, dice, width)?;
    match Cell::gate(alloc, Sequence::of(ins), dice.bit(), rows)? {
        Some(cell) => Ok(cell),
        None => Err("no gate".into()),
    }
}

fn init(dice: &mut Dice) -> Init {
    match dice.below(3) {
        0 => Init::Zero,
        1 => Init::One,
        _ => Init::Free,
    }
}

fn cell(alloc: Global, dice: &mut Dice, recipe: &Recipe, net: u32) -> Result<Cell, Fail> {
    if dice.below(recipe.latches) == 1 {
        let d = dice.below(recipe.inputs.saturating_add(recipe.cells));
        return Ok(Cell::Latch {
            d,
            init: init(dice),
        });
    }
    gate(alloc, dice, recipe, net)
}

/// A netlist of a recipe.
pub fn netlist(alloc: Global, dice: &mut Dice, recipe: &Recipe) -> Result<Ordered, Fail> {
    let mut cells = Vec::new(alloc);
    for number in 0..recipe.cells {
        cells.push(cell(alloc, dice, recipe, recipe.inputs.saturating_add(number))?)?;
    }
    let nets = recipe.inputs.saturating_add(recipe.cells);
    let mut outputs = Vec::new(alloc);
    for _ in 0..recipe.outputs {
        outputs.push(dice.below(nets))?;
    }
    netlist_of(alloc, recipe.inputs, cells, &outputs)
}

/// The netlist of these cells, with an order.
pub fn netlist_of(
    alloc: Global,
    inputs: u32,
    cells: Vec<Cell>,
    outputs: &[u32],
) -> Result<Ordered, Fail> {
    let outputs = Sequence::of(outputs.to_vec(alloc)?);
    let flat = Flat::checked(inputs, Sequence::of(cells), outputs).ok_or("no netlist")?;
    Ok(order(alloc, flat).ok().ok_or("no order")?)
}

/// A gate that is 1 where a net is 0.
pub fn inverter(alloc: Global, net: u32) -> Result<Cell, Fail> {
    let mut marks = Vec::new(alloc);
    marks.push(Mark::Zero)?;
    let mut rows = Vec::new(alloc);
    rows.push(Row::make(Sequence::of(marks)))?;
    let mut ins = Vec::new(alloc);
    ins.push(net)?;
    match Cell::gate(alloc, Sequence::of(ins), true, Sequence::of(rows))? {
        Some(cell) => Ok(cell),
        None => Err("no gate".into()),
    }
}

/// So many rows for a netlist.
pub fn stimulus(
    alloc: Global,
    dice: &mut Dice,
    width: u32,
    clocks: u32,
) -> Result<Rows, AllocError> {
    let mut list = Rows::new(alloc);
    for _ in 0..clocks {
        let mut bits = Vec::new(alloc);
        for _ in 0..width {
            bits.push(dice.bit())?;
        }
        list.push(&bits)?;
    }
    Ok(list)
}
