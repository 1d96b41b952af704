//! The names of the nets of a design.
ghost use Rattle.std.specs.Prelude.{◌≡◌, ◌++◌, map, IfOk, OnOk};
ghost use Rattle.vw_design.specs.Clocks.{columns};
ghost use Rattle.vw_design.specs.Preorder.{cells};
ghost use Rattle.vw_flat.specs.Printed.{printed_site};
ghost use Rattle.vw_front.specs.Names.{net_names, output_names};

use std::alloc::{AllocError, Global};
use vw_elab::Elaborated;
use vw_flat::path_of;
use vw_outside::Name;

/// Appends copies of some names.
pub(crate) fn push_names(
    alloc: Global,
    list: &[Name],
    names: &mut Vec<Name>,
) -> Result<(), AllocError>
    ensures { OnOk result (names.new.items ≡ names.old.items ++ list.now) }
{
    for name in list {
        names.push(name.copy(alloc)?)?;
    }
    Ok(())
}

/// Appends the names of the columns.
fn push_columns(
    alloc: Global,
    elaborated: &Elaborated,
    names: &mut Vec<Name>,
) -> Result<(), AllocError>
    ensures { OnOk result (names.new.items ≡ names.old.items ++ columns elaborated.now) }
{
    for column in 0..elaborated.columns() {
        names.push(elaborated.column(column).copy(alloc)?)?;
    }
    Ok(())
}

/// Appends the names of the nets that the cells drive.
fn push_cells(
    alloc: Global,
    elaborated: &Elaborated,
    names: &mut Vec<Name>,
) -> Result<(), AllocError>
    ensures { OnOk result (names.new.items ≡ names.old.items
        ++ map printed_site (cells elaborated.now)) }
{
    for cell in 0..elaborated.cells() {
        names.push(path_of(alloc, elaborated, cell)?)?;
    }
    Ok(())
}

/// The names of all nets, by their numbers.
pub(crate) fn net_names(alloc: Global, elaborated: &Elaborated) -> Result<Vec<Name>, AllocError>
    ensures { IfOk result (λ names. names.items ≡ net_names elaborated.now) }
{
    let nets = elaborated.columns() as usize + elaborated.cells() as usize;
    let mut names = Vec::with_capacity(alloc, nets)?;
    push_columns(alloc, elaborated, &mut names)?;
    push_cells(alloc, elaborated, &mut names)?;
    Ok(names)
}

/// The names of the outputs of the root.
pub(crate) fn output_names(alloc: Global, elaborated: &Elaborated) -> Result<Vec<Name>, AllocError>
    ensures { IfOk result (λ names. names.items ≡ output_names elaborated.now) }
{
    let outputs = elaborated.design().models()[0].outputs();
    let mut names = Vec::with_capacity(alloc, outputs.len())?;
    push_names(alloc, outputs, &mut names)?;
    Ok(names)
}
