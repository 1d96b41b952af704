//! The report of a plan.
ghost use Rattle.std.specs.Prelude.{◌≡◌, ◌++◌, IfOk};
ghost use Rattle.vw_plan.specs.PlannedBoard.{planned_board};
ghost use Rattle.vw_plan.specs.Sound.{IsSound};
ghost use Rattle.vw_ready.specs.LeadTables.{planned_in};
ghost use Rattle.vw_chain.specs.Timing.{planned_of};
ghost use Rattle.vw_report.specs.Findings.{AreFindings, IsShortFinding};
ghost use Rattle.vw_report.specs.Report.{IsReport, report_of};

use crate::busy::BusyPins;
use crate::findings::Findings;
use crate::reported::Reported;
use std::alloc::{AllocError, Global};
use vw_board::Distances;
use vw_bound::bound;
use vw_chain::{Timed, critical_chain};
use vw_outside::Name;
use vw_plan::Checked;
use vw_ready::{LinkTable, Wired, arrivals_of, home_leads, wire_table};
use vw_short_bound::short_bound;

/// The bound for plans with shortest wires, where the plan is one.
fn short_finding(alloc: Global, reported: &Reported) -> Result<Option<u64>, AllocError>
    ensures { IfOk result (IsShortFinding (planned_of reported.now.timed.now)) }
{
    let wired = reported.timed.wired;
    let distances = Distances::of(alloc, wired.board)?;
    if !reported.is_short(&distances) {
        return Ok(None);
    }
    let least = short_bound(alloc, wired.ordered, wired.board, wired.plan.chip_of())?;
    Ok(Some(least))
}

/// What is found out of a plan.
fn findings_of(alloc: Global, reported: &Reported) -> Result<Findings, AllocError>
    ensures { IfOk result (AreFindings (planned_of reported.now.timed.now)) }
{
    let wired = reported.timed.wired;
    let least = bound(alloc, wired.ordered, wired.board, wired.plan.chip_of())?;
    Ok(Findings {
        bound: least,
        short: short_finding(alloc, reported)?,
        critical: critical_chain(alloc, reported.timed)?,
    })
}

/// The text of what is found out of a plan.
fn text_of(alloc: Global, reported: &Reported, found: &Findings) -> Result<Vec<u8>, AllocError>
    requires { AreFindings (planned_of reported.now.timed.now) found.now }
    ensures { IfOk result (λ text. text.items
        ≡ report_of (planned_of reported.now.timed.now) reported.now.names.now found.now) }
{
    let hops = reported.hop_counts(alloc)?;
    let mut text = Vec::new(alloc);
    reported.push_head(found, &mut text)?;
    reported.push_host(&mut text)?;
    reported.push_chips(&mut text)?;
    reported.push_links(&hops, &mut text)?;
    reported.push_critical(&found.critical, &mut text)?;
    text.extend_from_slice(b"end\n")?;
    Ok(text)
}

/// The report of a plan whose nets are timed.
fn report_timed(alloc: Global, timed: &Timed, names: &[Name]) -> Result<Vec<u8>, AllocError>
    ensures { IfOk result (λ text. IsReport (planned_of timed.now) names.now text.items) }
{
    let busy = BusyPins::of(alloc, timed.wired.plan)?;
    let reported = Reported {
        timed,
        names,
        busy: &busy,
    };
    let found = findings_of(alloc, &reported)?;
    text_of(alloc, &reported, &found)
}

/// The report of a plan, by the tables of its wires and links.
fn report_wired(alloc: Global, wired: &Wired, names: &[Name]) -> Result<Vec<u8>, AllocError>
    requires { IsSound (planned_in wired.now) }
    ensures { IfOk result (λ text. IsReport (planned_in wired.now) names.now text.items) }
{
    let arrivals = arrivals_of(alloc, wired)?;
    let leads = home_leads(alloc, wired, &arrivals)?;
    let timed = Timed {
        wired,
        arrivals: &arrivals,
        leads: &leads,
    };
    report_timed(alloc, &timed, names)
}

/// The report of a sound plan, with the names of the nets by their numbers: its size, its period and two bounds of periods; the
/// cells and wires of each node, and the hops of each link; and a chain of gates and hops that sets the period. It takes memory
/// for a few numbers for each net and each hop, and for the text.
pub fn report_text(alloc: Global, checked: &Checked, names: &[Name]) -> Result<Vec<u8>, AllocError>
    ensures { IfOk result (λ text. IsReport
        (planned_board checked.now.ordered checked.now.board checked.now.plan) names.now text.items) }
{
    let wires = wire_table(alloc, checked.plan())?;
    let links = LinkTable::of(alloc, checked.board())?;
    let wired = Wired {
        ordered: checked.ordered(),
        board: checked.board(),
        plan: checked.plan(),
        wires: &wires,
        links: &links,
    };
    report_wired(alloc, &wired, names)
}
