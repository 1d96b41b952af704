ghost use Rattle.std.specs.Prelude.{◌≡◌, ◌++◌, IfOk};
ghost use Rattle.std.specs.Fmt.{decimal};
ghost use Rattle.vw_check.specs.declared.fault.PlanFault.TheVariants.{LateLatch, PinClash, TooEarly};
ghost use Rattle.vw_check.specs.Messages.{fault_text};

use std::alloc::{AllocError, AllocFailed, Global};

/// Why a plan isn't sound. Cells, nets, wires and hops are numbered from 0, wires in the order of the plan and hops in that
/// of their wire; node 0 is the host.
#[derive(Clone, Copy, Debug, PartialEq, Eq)]
pub enum PlanFault {
    /// The number of entries that the plan has, and the number of cells.
    WrongCells(u32, u32),
    /// The period is 0.
    ZeroPeriod,
    /// The entry of this cell is no chip.
    BadChip(u32),
    /// The chip, and the number of its cells, which is more than it has room for.
    Overfull(u32, u32),
    /// The net, and the node where it is needed and no wire brings it.
    MissingWire(u32, u32),
    /// The wire brings a net to a node where it isn't needed, or where an earlier wire brings it.
    ExtraWire(u32),
    /// The wire, and the hop that doesn't go on where the one before it ended, goes over no link, or is the last and doesn't
    /// end at the wire's node. A wire without hops breaks at hop 0.
    BrokenRoute(u32, u32),
    /// The wire, and the hop whose pin its link doesn't have.
    BadPin(u32, u32),
    /// The wire, and the hop that isn't later than the arrival of the one before it.
    OutOfOrder(u32, u32),
    /// The wire, and the hop that doesn't arrive before the period ends.
    PastPeriod(u32, u32),
    /// The wire and the hop that come first, and the wire and the hop that use the same pin of the same link in the same
    /// microcycle.
    PinClash(u32, u32, u32, u32),
    /// The wire, the microcycle of its first hop, and the one from which on its net is usable.
    TooEarly(u32, u64, u64),
    /// The latch, by its cell, and the microcycle from which on what it reads is usable, which is after the period.
    LateLatch(u32, u64),
    NoMemory,
}

impl From<AllocError> for PlanFault {
    ghost use Rattle.vw_check.specs.declared.fault.PlanFault.TheVariants.{NoMemory};

    ghost from_gives = { λ _ e. e ≡ NoMemory };

    fn from(_: AllocError) -> Self {
        PlanFault::NoMemory
    }
}

impl<T: Drop> From<AllocFailed<T>> for PlanFault {
    ghost use Rattle.vw_check.specs.declared.fault.PlanFault.TheVariants.{NoMemory};

    ghost from_gives = { λ _ e. e ≡ NoMemory };

    fn from(_: AllocFailed<T>) -> Self {
        PlanFault::NoMemory
    }
}

/// A line with one number in it.
fn with_one(alloc: Global, before: &str, number: u32, after: &str) -> Result<Vec<u8>, AllocError>
    ensures { IfOk result (λ line. line.items ≡ before.now ++ (decimal number ++ after.now)) }
{
    let line = format!(in alloc; "{before}{number}{after}")?;
    Ok(line.into_bytes())
}

/// A line with two numbers in it.
fn with_two(
    alloc: Global,
    before: &str,
    first: u32,
    between: &str,
    second: u32,
    after: &str,
) -> Result<Vec<u8>, AllocError>
    ensures { IfOk result (λ line. line.items
        ≡ before.now ++ (decimal first ++ (between.now ++ (decimal second ++ after.now)))) }
{
    let line = format!(in alloc; "{before}{first}{between}{second}{after}")?;
    Ok(line.into_bytes())
}

/// The message of two hops that share a pin.
fn of_clash(
    alloc: Global,
    wire: u32,
    hop: u32,
    other: u32,
    clash: u32,
) -> Result<Vec<u8>, AllocError>
    ensures { IfOk result (λ line. line.items ≡ fault_text (PinClash wire hop other clash)) }
{
    let mut line = with_two(alloc, "plan 13: wire ", wire, " hop ", hop, "")?;
    let rest = with_two(alloc, " and wire ", other, " hop ", clash, " share a pin\n")?;
    line.extend_from_slice(&rest)?;
    Ok(line)
}

/// The message of a wire that is sent too early.
fn of_early(alloc: Global, wire: u32, sent: u64, usable: u64) -> Result<Vec<u8>, AllocError>
    ensures { IfOk result (λ line. line.items ≡ fault_text (TooEarly wire sent usable)) }
{
    let line = format!(in alloc; "plan 14: wire {wire} sent at {sent}, usable at {usable}\n")?;
    Ok(line.into_bytes())
}

/// The message of a latch that reads a net too late.
fn of_late(alloc: Global, cell: u32, usable: u64) -> Result<Vec<u8>, AllocError>
    ensures { IfOk result (λ line. line.items ≡ fault_text (LateLatch cell usable)) }
{
    let line = format!(in alloc; "plan 15: latch {cell} usable at {usable}\n")?;
    Ok(line.into_bytes())
}

impl PlanFault {
    /// The message line, with the end of the line.
    pub fn text(&self, alloc: Global) -> Result<Vec<u8>, AllocError>
        ensures { IfOk result (λ line. line.items ≡ fault_text self.now) }
    {
        match *self {
            PlanFault::WrongCells(found, wanted) => {
                with_two(alloc, "plan 3: ", found, " cells, wanted ", wanted, "\n")
            }
            PlanFault::ZeroPeriod => b"plan 4: period 0\n".to_vec(alloc),
            PlanFault::BadChip(cell) => with_one(alloc, "plan 5: cell ", cell, " has no chip\n"),
            PlanFault::Overfull(chip, count) => {
                with_two(alloc, "plan 6: chip ", chip, " has ", count, " cells\n")
            }
            PlanFault::MissingWire(net, node) => {
                with_two(
                    alloc,
                    "plan 7: no wire of net ",
                    net,
                    " to node ",
                    node,
                    "\n",
                )
            }
            PlanFault::ExtraWire(wire) => with_one(alloc, "plan 8: wire ", wire, " isn't needed\n"),
            PlanFault::BrokenRoute(wire, hop) => {
                with_two(
                    alloc,
                    "plan 9: wire ",
                    wire,
                    " hop ",
                    hop,
                    " breaks the route\n",
                )
            }
            PlanFault::BadPin(wire, hop) => {
                with_two(alloc, "plan 10: wire ", wire, " hop ", hop, " has no pin\n")
            }
            PlanFault::OutOfOrder(wire, hop) => {
                with_two(
                    alloc,
                    "plan 11: wire ",
                    wire,
                    " hop ",
                    hop,
                    " is out of order\n",
                )
            }
            PlanFault::PastPeriod(wire, hop) => {
                with_two(
                    alloc,
                    "plan 12: wire ",
                    wire,
                    " hop ",
                    hop,
                    " is past the period\n",
                )
            }
            PlanFault::PinClash(wire, hop, other, clash) => of_clash(
                alloc, wire, hop, other, clash,
            ),
            PlanFault::TooEarly(wire, sent, usable) => of_early(alloc, wire, sent, usable),
            PlanFault::LateLatch(cell, usable) => of_late(alloc, cell, usable),
            PlanFault::NoMemory => b"out of memory\n".to_vec(alloc),
        }
    }
}
