//! Elaboration.
ghost use Rattle.std.specs.Prelude.{◌≡◌, IfOk, IfErr};
ghost use Rattle.vw_design.specs.Accepted.{IsAccepted};
ghost use Rattle.vw_drivers.specs.Tables.{root_firsts};
ghost use Rattle.vw_net_faults.specs.Columns.{AreColumns};
ghost use Rattle.vw_elab.specs.Refusals.{IsRefusal};
ghost use Rattle.vw_elab.specs.Steps.DesignParts.{AreDesignParts, IsElaborated};

use crate::elaborated::Elaborated;
use crate::fault::DesignFault;
use crate::models::{Models, models_of};
use crate::nets::check_nets;
use crate::parts::NumberedParts;
use std::alloc::Global;
use vw_design::Design;
use vw_models::Targets;
use vw_net_faults::{Columns, Nets};

/// The instances, claims and drivers of a design, if its models have no fault.
fn parts_of(alloc: Global, design: &Design) -> Result<NumberedParts, DesignFault>
    ensures parts { IfOk result (AreDesignParts design.now) }
    ensures refused { IfErr result (IsRefusal design.now) }
{
    let Models { targets, sizes } = models_of(alloc, design)?;
    let known = Targets {
        design,
        numbers: &targets,
    };
    let parts = NumberedParts::of(alloc, &known, sizes)?;
    Ok(parts)
}

/// The columns of a design, if its nets have no fault.
fn columns_of(alloc: Global, nets: &Nets) -> Result<Columns, DesignFault>
    ensures accepted { IfOk result (λ _. IsAccepted nets.now.design.now) }
    ensures columns { IfOk result (AreColumns nets.now.design.now
        (root_firsts nets.now.tables.now)) }
    ensures refused { IfErr result (IsRefusal nets.now.design.now) }
{
    check_nets(alloc, nets)?;
    let columns = Columns::of(alloc, nets)?;
    Ok(columns)
}

/// The parts and the columns of a design, if it has no fault.
fn parts_and_columns(
    alloc: Global,
    design: &Design,
) -> Result<(NumberedParts, Columns), DesignFault>
    ensures elaborated { IfOk result (λ found. IsElaborated design.now found.0 found.1) }
    ensures refused { IfErr result (IsRefusal design.now) }
{
    let parts = parts_of(alloc, design)?;
    let nets = parts.nets(design);
    let columns = columns_of(alloc, &nets)?;
    Ok((parts, columns))
}

/// Numbers the instances, cells and drivers of a design, or says what is wrong with it. The faults are tried in the order
/// of their numbers, each over the whole design before the next, and the first place counts. On a refusal the design is
/// given up.
pub fn elaborate(alloc: Global, design: Design) -> Result<Elaborated, DesignFault>
    ensures elaborated { IfOk result (λ elaborated. elaborated ≡ design) }
    ensures accepted { IfOk result (λ _. IsAccepted design) }
    ensures refused { IfErr result (IsRefusal design) }
{
    let (parts, columns) = parts_and_columns(alloc, &design)?;
    Ok(Elaborated::of(design, parts, columns))
}
