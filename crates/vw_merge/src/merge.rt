//! A netlist with fewer, wider tables.
ghost use Rattle.std.specs.Prelude.{◌≡◌, ◌<◌, ◌++◌, ◌^◌, length, IfOk, IfSome, OnOk};
ghost use Rattle.vw_net.specs.Cells.{latch_count};
ghost use Rattle.vw_merge.specs.Merging.{AreLatchesOf, IsMerging};
ghost use Rattle.vw_merge.specs.Same.{DoesTheSame};

use crate::area::improve;
use crate::between::Between;
use crate::candidates::Candidates;
use crate::choice::Choice;
use crate::lists::at;
use crate::merging::{Merging, same_net, same_nets};
use crate::readers::fan_outs;
use crate::words::{NetWord, worked_out};
use std::alloc::{AllocError, Global};
use vw_net::{Cell, Flat, Ordered, Sequence, gates_settle};
use vw_order::order;

/// What the tables are worked out with.
#[derive(Drop)]
struct Tools {
    choice: Choice,
    between: Between,
    words: Vec<NetWord>,
}

/// Which gates become tables, and over which nets.
fn chosen(alloc: Global, ordered: &Ordered) -> Result<Choice, AllocError> {
    let readers = fan_outs(alloc, ordered)?;
    let candidates = Candidates::of(alloc, ordered, &readers)?;
    let mut choice = Choice::first(alloc, ordered, &candidates)?;
    for _ in 0..2 {
        improve(alloc, ordered, &candidates, &mut choice)?;
    }
    Ok(choice)
}

/// The number of latches among cells.
fn latches_among(cells: &[Cell]) -> u32
    requires { length cells.now < 2 ^ 32 }
    ensures { result ≡ latch_count cells.now }
{
    let mut count = 0;
    for cell in cells {
        if let Cell::Latch { .. } = cell {
            count += 1;
        }
    }
    count
}

/// Puts the table of a gate into the merged netlist. It tells whether it could be worked out.
fn merge_gate(
    alloc: Global,
    ordered: &Ordered,
    number: u32,
    tools: &mut Tools,
    merging: &mut Merging,
) -> Result<bool, AllocError>
    requires number { number < length ordered.now.flat.cells }
    requires merging { IsMerging ordered.now.flat merging.old }
    ensures { OnOk result (IsMerging ordered.now.flat merging.new) }
{
    let flat = ordered.flat();
    let net = flat.inputs() + number;
    gates_settle();
    match &flat.cells()[number as usize] {
        Cell::Gate { ins, cover } => {
            if ins.len() > 6 {
                return merging.copy(alloc, flat, net, ins.as_slice(), cover);
            }
            merge_narrow(alloc, ordered, number, tools, merging)
        }
        Cell::Latch { .. } => Ok(true),
    }
}

/// The same of a gate whose table is worked out.
fn merge_narrow(
    alloc: Global,
    ordered: &Ordered,
    number: u32,
    tools: &mut Tools,
    merging: &mut Merging,
) -> Result<bool, AllocError>
    requires number { number < length ordered.now.flat.cells }
    requires merging { IsMerging ordered.now.flat merging.old }
    ensures { OnOk result (IsMerging ordered.now.flat merging.new) }
{
    let net = ordered.flat().inputs() + number;
    let cut = tools.choice.cut(net);
    let leaves = cut.leaves();
    let places = tools.between.places(ordered, number, leaves)?;
    let Some(word) = worked_out(ordered, net, leaves, places, &mut tools.words)? else {
        return Ok(false);
    };
    merging.put_word(alloc, ordered.flat(), net, leaves, word)
}

/// The tables of all gates that something reads. It tells whether all could be worked out.
fn merge_gates(
    alloc: Global,
    ordered: &Ordered,
    tools: &mut Tools,
    merging: &mut Merging,
) -> Result<bool, AllocError>
    requires { IsMerging ordered.now.flat merging.old }
    ensures { OnOk result (IsMerging ordered.now.flat merging.new) }
{
    let inputs = ordered.flat().inputs();
    for number in ordered.order() {
        if at(&tools.choice.readers, inputs + *number) > 0 {
            let done = merge_gate(alloc, ordered, *number, tools, merging)?;
            if !done {
                return Ok(false);
            }
        }
    }
    Ok(true)
}

/// Latches in the place of those among some cells, in their order.
fn new_latches(
    alloc: Global,
    cells: &[Cell],
    to: &[Option<u32>],
) -> Result<Option<Vec<Cell>>, AllocError>
    ensures { IfOk result (λ made. IfSome made (λ latches. AreLatchesOf cells.now to.now latches.items)) }
{
    let mut latches = Vec::new(alloc);
    for cell in cells {
        match cell {
            Cell::Gate { .. } => {}
            Cell::Latch { d, init } => {
                let Some(net) = same_net(to, *d) else {
                    return Ok(None);
                };
                latches.push(Cell::Latch {
                    d: net,
                    init: *init,
                })?;
            }
        }
    }
    Ok(Some(latches))
}

/// Adds cells behind others.
fn append(cells: &mut Vec<Cell>, more: Vec<Cell>) -> Result<(), AllocError>
    ensures { OnOk result (cells.new.items ≡ cells.old.items ++ more.items) }
{
    for cell in more {
        cells.push(cell)?;
    }
    Ok(())
}

/// The merged netlist: its latches, its tables and its outputs.
fn finished(alloc: Global, flat: &Flat, merging: Merging) -> Result<Option<Ordered>, AllocError>
    requires { IsMerging flat.now merging }
    ensures { IfOk result (λ found. IfSome found (λ ordered. DoesTheSame flat.now ordered.flat)) }
{
    let Some(mut cells) = new_latches(alloc, flat.cells(), &merging.to)? else {
        return Ok(None);
    };
    let Some(outputs) = same_nets(alloc, &merging.to, flat.outputs())? else {
        return Ok(None);
    };
    append(&mut cells, merging.into_gates())?;
    let made = Flat::checked(flat.inputs(), Sequence::of(cells), Sequence::of(outputs));
    let Some(merged) = made else {
        return Ok(None);
    };
    gates_settle();
    match order(alloc, merged) {
        Ok(ordered) => Ok(Some(ordered)),
        Err(_) => Ok(None),
    }
}

/// A netlist that does the same with fewer tables, each of at most six inputs or one of before; none where the tables that were
/// chosen can't be had. In the field: technology mapping.
///
/// It takes memory for some ten words a net and some fifty for each table, goes over the gates a few times, and works out each
/// table once.
pub fn merged(alloc: Global, ordered: &Ordered) -> Result<Option<Ordered>, AllocError>
    ensures { IfOk result (λ found. IfSome found (λ other. DoesTheSame ordered.now.flat other.flat)) }
{
    let flat = ordered.flat();
    let mut tools = Tools {
        choice: chosen(alloc, ordered)?,
        between: Between::of(alloc, ordered)?,
        words: Vec::new(alloc),
    };
    let latches = latches_among(flat.cells());
    let Some(mut merging) = Merging::start(alloc, flat, latches)? else {
        return Ok(None);
    };
    if !merge_gates(alloc, ordered, &mut tools, &mut merging)? {
        return Ok(None);
    }
    finished(alloc, flat, merging)
}
