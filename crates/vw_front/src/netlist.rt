//! The netlist of the design that a text spells.
ghost use Rattle.std.specs.Prelude.{◌≡◌, ◌<◌, ◌≤◌, List, Some, length, option_map, slice_get, IfOk};
ghost use Rattle.std.specs.List.{All, AllZip};
ghost use Rattle.vw_design.specs.Accepted.{IsAccepted};
ghost use Rattle.vw_design.specs.Flattened.{IsFlatOf};
ghost use Rattle.vw_design.specs.Limits.{cell_count};
ghost use Rattle.vw_design.specs.Preorder.{cells};
ghost use Rattle.vw_design.specs.Paths.{Net};
ghost use Rattle.vw_flat.specs.Printed.{printed_site};
ghost use Rattle.vw_flat.specs.Probed.{IsProbedFlat};
ghost use Rattle.vw_order.specs.Faults.{IsOrderFault};
ghost use Rattle.vw_front.specs.Designs.{SpellsDesign, IsNetlistOf, RefusesText, RefusesElaboration, RefusesModels, RefusesProbe, RefusesLoop, RefusesNetlist, RefusesDesign, Judges};
ghost use Rattle.vw_front.specs.NamedNetlists.{IsNamedNetlistOf};
ghost use Rattle.vw_front.specs.Names.{net_names, output_names};
ghost use Rattle.vw_front.specs.Steps.OrderedDesigns.{IsOrderedOf, IsNamedOf};

use crate::fault::NetlistFault;
use crate::named::NamedNetlist;
use crate::names::{net_names, output_names};
use std::alloc::{AllocError, Global};
use vw_blif::{TextFault, read};
use vw_design::{Design, ordered_is_loop_free};
use vw_elab::{DesignFault, Elaborated, elaborate};
use vw_flat::{FlatFault, flatten, path_of};
use vw_net::{Flat, Ordered, Sequence};
use vw_order::{OrderFault, OrderRefused, order};
use vw_outside::Name;

/// The design that a text spells.
fn design_of_text(alloc: Global, text: &[u8]) -> Result<Design, NetlistFault>
    ensures { Judges (SpellsDesign text.now) (RefusesText text.now) result }
{
    match read(alloc, text) {
        Ok(design) => Ok(design),
        Err(TextFault::NoMemory) => Err(NetlistFault::NoMemory),
        Err(fault) => Err(NetlistFault::Text(fault)),
    }
}

/// A design, elaborated.
fn elaborated_of(alloc: Global, design: Design) -> Result<Elaborated, NetlistFault>
    ensures { Judges (λ elaborated. (elaborated ≡ design) × IsAccepted design)
        (RefusesElaboration design) result }
{
    match elaborate(alloc, design) {
        Ok(elaborated) => Ok(elaborated),
        Err(DesignFault::NoMemory) => Err(NetlistFault::NoMemory),
        Err(fault) => Err(NetlistFault::Design(fault)),
    }
}

/// The elaborated design of a text.
fn elaborated_of_text(alloc: Global, text: &[u8]) -> Result<Elaborated, NetlistFault>
    ensures { Judges (λ elaborated. SpellsDesign text.now elaborated × IsAccepted elaborated)
        (RefusesModels text.now) result }
{
    let design = design_of_text(alloc, text)?;
    elaborated_of(alloc, design)
}

/// The nets that cells drive, as they are printed.
fn nets_of(alloc: Global, elaborated: &Elaborated, numbers: &[u32]) -> Result<Vec<Name>, AllocError>
    requires { All (λ number. number < cell_count elaborated.now) numbers.now }
    ensures { IfOk result (λ names.
        AllZip (λ number name. option_map printed_site (slice_get (cells elaborated.now) number)
        ≡ Some name) numbers.now names.items) }
{
    let mut names = Vec::with_capacity(alloc, numbers.len())?;
    for number in numbers {
        names.push(path_of(alloc, elaborated, *number)?)?;
    }
    Ok(names)
}

/// The fault of a netlist that has no order.
fn loop_fault(
    alloc: Global,
    elaborated: &Elaborated,
    flat: &Flat,
    fault: OrderFault,
) -> Result<Ordered, NetlistFault>
    requires flat { (nets : List Net) × IsFlatOf elaborated.now nets flat.now }
    requires fault { IsOrderFault flat.now fault }
    ensures { Judges (λ ordered. ⊥) (RefusesLoop elaborated.now) result }
{
    let OrderFault::Loop(numbers) = fault else {
        return Err(NetlistFault::NoMemory);
    };
    match nets_of(alloc, elaborated, numbers.as_slice()) {
        Ok(names) => Err(NetlistFault::Loop(Sequence::of(names))),
        Err(_) => Err(NetlistFault::NoMemory),
    }
}

/// The netlist of a design with the nets that probes find.
fn flat_of(alloc: Global, elaborated: &Elaborated, probes: &[Name]) -> Result<Flat, NetlistFault>
    requires { length probes.now ≤ 65 }
    ensures { Judges (IsProbedFlat elaborated.now probes.now) (RefusesProbe probes.now elaborated.now)
        result }
{
    match flatten(alloc, elaborated, probes) {
        Ok(flat) => Ok(flat),
        Err(FlatFault::NoProbe(probe)) => Err(NetlistFault::NoNet(probe)),
        Err(FlatFault::NoMemory) => Err(NetlistFault::NoMemory),
    }
}

/// An order of the gates of a netlist.
fn ordered_flat(alloc: Global, elaborated: &Elaborated, flat: Flat) -> Result<Ordered, NetlistFault>
    requires { (nets : List Net) × IsFlatOf elaborated.now nets flat }
    ensures { Judges (λ ordered. ordered.flat ≡ flat) (RefusesLoop elaborated.now) result }
{
    match order(alloc, flat) {
        Ok(ordered) => Ok(ordered),
        Err(refused) => {
            let OrderRefused { fault, flat } = refused;
            loop_fault(alloc, elaborated, &flat, fault)
        }
    }
}

/// The netlist of a design with the nets that probes find, with an order of its gates.
fn ordered_of(
    alloc: Global,
    elaborated: &Elaborated,
    probes: &[Name],
) -> Result<Ordered, NetlistFault>
    requires { length probes.now ≤ 65 }
    ensures { Judges (IsOrderedOf probes.now elaborated.now)
        (RefusesNetlist probes.now elaborated.now) result }
{
    elaborated.is_accepted();
    ordered_is_loop_free();
    let flat = flat_of(alloc, elaborated, probes)?;
    ordered_flat(alloc, elaborated, flat)
}

/// A netlist with the names that its nets and the outputs of its root have in the design.
fn with_names(
    alloc: Global,
    elaborated: &Elaborated,
    ordered: Ordered,
) -> Result<NamedNetlist, AllocError>
    requires { (nets : List Net) × IsFlatOf elaborated.now nets ordered.flat }
    ensures ordered { IfOk result (λ named. named.ordered ≡ ordered) }
    ensures nets { IfOk result (λ named. named.nets ≡ net_names elaborated.now) }
    ensures outputs { IfOk result (λ named. named.outputs ≡ output_names elaborated.now) }
{
    let nets = Sequence::of(net_names(alloc, elaborated)?);
    let outputs = Sequence::of(output_names(alloc, elaborated)?);
    Ok(NamedNetlist::make(ordered, nets, outputs))
}

/// The netlist of a design with the nets that probes find, with an order of its gates and with its names.
fn named_of(
    alloc: Global,
    elaborated: &Elaborated,
    probes: &[Name],
) -> Result<NamedNetlist, NetlistFault>
    requires { length probes.now ≤ 65 }
    ensures { Judges (IsNamedOf probes.now elaborated.now)
        (RefusesNetlist probes.now elaborated.now) result }
{
    let ordered = ordered_of(alloc, elaborated, probes)?;
    match with_names(alloc, elaborated, ordered) {
        Ok(named) => Ok(named),
        Err(_) => Err(NetlistFault::NoMemory),
    }
}

/// The netlist of the design that a text spells, with an order of its gates. Its outputs are those of the design, and behind
/// them the nets that the probes find.
pub fn netlist_of_text(alloc: Global, text: &[u8], probes: &[Name]) -> Result<Ordered, NetlistFault>
    requires { length probes.now ≤ 65 }
    ensures { Judges (IsNetlistOf probes.now text.now) (RefusesDesign probes.now text.now) result }
{
    let elaborated = elaborated_of_text(alloc, text)?;
    let ordered = ordered_of(alloc, &elaborated, probes);
    drop(elaborated);
    ordered
}

/// The netlist of the design that a text spells, as `netlist_of_text` gives it, and with it the names of the nets and of the
/// outputs. They are made once, and are as large as the paths of all cells.
pub fn named_netlist_of_text(
    alloc: Global,
    text: &[u8],
    probes: &[Name],
) -> Result<NamedNetlist, NetlistFault>
    requires { length probes.now ≤ 65 }
    ensures { Judges (IsNamedNetlistOf probes.now text.now) (RefusesDesign probes.now text.now)
        result }
{
    let elaborated = elaborated_of_text(alloc, text)?;
    let named = named_of(alloc, &elaborated, probes);
    drop(elaborated);
    named
}
