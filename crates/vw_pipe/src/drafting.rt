//! Schedules in the making, task by task.
ghost use Rattle.std.specs.Prelude.{◌≡◌, ◌<◌, ◌+◌, ◌^◌, false, true, length, slice_get, slice_index, IfOk, OnOk};
ghost use Rattle.std.specs.List.{All};
ghost use Rattle.vw_plan.specs.Chips.{IsChip};
ghost use Rattle.vw_plan.specs.Nets.{greatest_read};
ghost use Rattle.vw_plan.specs.Routes.{AreRoutes};
ghost use Rattle.vw_pipe.specs.Steps.Turns.{AreTurns};
ghost use Rattle.vw_pipe.specs.Steps.Given.{DoesFor, IsDoneFor, IsFitFor, IsReadyFor, IsUntouchedFor, lead_for, net_count, usable_for};

use crate::draft::{Draft, send};
use crate::given::Given;
use crate::task::{Task, tasks_in_order};
use crate::turns::Turns;
use std::alloc::{AllocError, Global};
use vw_net::Sequence;
use vw_plan::node_of;
use vw_ready::LeadTable;
use vw_slots::SlotTable;

/// The lead of the net of a cell on the cell's chip, from the leads and hops so far: 0 for a latch.
fn lead_of_cell(given: &Given, draft: &Draft, number: u32) -> u64
    requires number { number < length given.now.ordered.now.flat.cells }
    requires fit { IsFitFor given.now draft.now }
    ensures { result ≡ greatest_read
        (lead_for given.now draft.now.hops.items draft.now.leads.items
        (slice_index given.now.chip_of.now number))
        (slice_get given.now.ordered.now.flat.cells number) }
{
    let known = LeadTable {
        ordered: given.ordered,
        chip_of: given.chip_of,
        settle: given.board.settle(),
        places: given.places,
        arrivals: draft.arrivals.as_slice(),
        leads: draft.leads.as_slice(),
    };
    known.lead_of_cell(number)
}

/// The microcycle from which on a node can use a net, from the leads and hops so far.
pub fn usable_at(given: &Given, draft: &Draft, node: u32, net: u32) -> u64
    requires net { net < net_count given.now }
    requires fit { IsFitFor given.now draft.now }
    ensures { result ≡ usable_for given.now draft.now.hops.items draft.now.leads.items node net }
{
    let known = LeadTable {
        ordered: given.ordered,
        chip_of: given.chip_of,
        settle: given.board.settle(),
        places: given.places,
        arrivals: draft.arrivals.as_slice(),
        leads: draft.leads.as_slice(),
    };
    known.usable(node, net)
}

/// Works out the lead of the gate at a place of the order.
fn work_out(given: &Given, draft: &mut Draft, place: u32)
    requires { IsReadyFor given.now false place draft.old }
    ensures { DoesFor given.now false place draft.old draft.new }
{
    let number = given.ordered.order()[place as usize];
    let lead = lead_of_cell(given, draft, number);
    draft.leads[(given.ordered.flat().inputs() + number) as usize] = lead;
}

/// Sends the net of a route, once it is usable.
fn send_route(
    alloc: Global,
    given: &Given,
    draft: &mut Draft,
    number: u32,
) -> Result<(), AllocError>
    requires { IsReadyFor given.now true number draft.old }
    ensures { OnOk result (DoesFor given.now true number draft.old draft.new) }
{
    let route = &given.routes[number as usize];
    let node = node_of(given.ordered.flat(), given.chip_of, route.net());
    let usable = usable_at(given, draft, node, route.net());
    send(alloc, given, route, draft, number, usable)
}

/// Does one task.
fn carry_out(alloc: Global, given: &Given, draft: &mut Draft, task: &Task) -> Result<(), AllocError>
    requires { IsReadyFor given.now task.now.sends task.now.place draft.old }
    ensures { OnOk result (DoesFor given.now task.now.sends task.now.place draft.old draft.new) }
{
    if task.sends {
        return send_route(alloc, given, draft, task.place);
    }
    work_out(given, draft, task.place);
    Ok(())
}

/// A schedule in which nothing is done yet.
fn untouched(alloc: Global, given: &Given) -> Result<Draft, AllocError>
    ensures { IfOk result (λ draft. IsUntouchedFor given.now draft) }
{
    let flat = given.ordered.flat();
    let nets = flat.inputs() as usize + flat.cells().len();
    let leads = vec![in alloc; 0; nets]?;
    let mut hops = Vec::with_capacity(alloc, given.routes.len())?;
    for _ in 0..given.routes.len() {
        hops.push(Sequence::of(Vec::new(alloc)))?;
    }
    let arrivals = vec![in alloc; 0; given.routes.len()]?;
    let table = SlotTable::make(alloc, given.board)?;
    Ok(Draft {
        leads,
        hops,
        arrivals,
        table,
        after: 0,
    })
}

/// The leads of all nets, and the hops of all routes, worked out in these turns.
pub fn drafted(alloc: Global, given: &Given, turns: &Turns) -> Result<Draft, AllocError>
    requires chips { All (IsChip given.now.board.now) given.now.chip_of.now }
    requires routes { AreRoutes given.now.ordered.now.flat given.now.board.now given.now.chip_of.now
        given.now.routes.now }
    requires few { length given.now.routes.now < 2 ^ 32 }
    requires turns { AreTurns given.now.ordered.now given.now.chip_of.now given.now.routes.now turns.now }
    ensures { IfOk result (IsDoneFor given.now) }
{
    let tasks = tasks_in_order(alloc, given.ordered, turns)?;
    let mut draft = untouched(alloc, given)?;
    for task in tasks.as_slice() {
        carry_out(alloc, given, &mut draft, task)?;
    }
    Ok(draft)
}
