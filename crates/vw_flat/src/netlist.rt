//! Flat netlists.
ghost use Rattle.std.specs.Prelude.{◌≡◌, ◌<◌, ◌≤◌, Bool, List, Some, length, map, IfOk, IfErr};
ghost use Rattle.std.specs.List.{All, AllZip};
ghost use Rattle.vw_net.specs.Cells.{IsWellFormed, start_values};
ghost use Rattle.vw_net.specs.History.{flat_history};
ghost use Rattle.vw_design.specs.Flattened.{number_of, IsCellOf};
ghost use Rattle.vw_design.specs.Paths.{Net};
ghost use Rattle.vw_design.specs.PathHistory.{path_history};
ghost use Rattle.vw_design.specs.Preorder.{cells};
ghost use Rattle.vw_design.specs.NetReads.{root_outputs};
ghost use Rattle.vw_design.specs.Probes.{FindAll};
ghost use Rattle.vw_flat.specs.Probed.{IsFlatFault, IsProbedFlat};
ghost use Rattle.vw_flat.specs.Steps.Numbers.{net_count};
ghost use Rattle.vw_flat.specs.Steps.Searches.{HasNumberOf};

use crate::cell::{cell_of, item_at_cell};
use crate::fault::FlatFault;
use crate::laws::probes_find_one_net;
use crate::number::number_output;
use crate::probe::probe_number;
use std::alloc::{AllocError, Global};
use vw_design::histories_agree;
use vw_elab::Elaborated;
use vw_net::{Cell, Flat, Sequence};
use vw_outside::Name;

/// The cells: the gates and latches of all instances in preorder.
fn netlist_cells(alloc: Global, elaborated: &Elaborated) -> Result<Vec<Cell>, AllocError>
    ensures are { IfOk result (λ made.
        AllZip (λ site cell. IsCellOf elaborated.now site.path site.item cell)
        (cells elaborated.now) made.items) }
    ensures fit { IfOk result (λ made. All (IsWellFormed (net_count elaborated.now)) made.items) }
{
    let mut made = Vec::with_capacity(alloc, elaborated.cells() as usize)?;
    for cell in 0..elaborated.cells() {
        let item = item_at_cell(elaborated, cell);
        made.push(cell_of(alloc, elaborated, cell, item)?)?;
    }
    Ok(made)
}

/// The numbers of the outputs of the root.
fn output_numbers(alloc: Global, elaborated: &Elaborated) -> Result<Vec<u32>, AllocError>
    ensures are { IfOk result (λ outputs.
        map (λ net. number_of elaborated.now net.path net.name) (root_outputs elaborated.now)
        ≡ map (λ net. Some net) outputs.items) }
    ensures fit { IfOk result
        (λ outputs. All (λ net. net < net_count elaborated.now) outputs.items) }
{
    let names = elaborated.design().models()[0].outputs();
    let mut outputs = Vec::with_capacity(alloc, names.len())?;
    for (place, name) in names.iter().enumerate() {
        outputs.push(number_output(elaborated, place, name))?;
    }
    Ok(outputs)
}

/// The numbers of the nets that probes find.
fn probe_numbers(
    alloc: Global,
    elaborated: &Elaborated,
    probes: &[Name],
) -> Result<Vec<u32>, FlatFault>
    ensures found { IfOk result
        (λ numbers. AllZip (HasNumberOf elaborated.now) probes.now numbers.items) }
    ensures fault { IfErr result (IsFlatFault elaborated.now probes.now) }
{
    let mut numbers = Vec::with_capacity(alloc, probes.len())?;
    for probe in probes {
        match probe_number(elaborated, probe.as_slice()) {
            Some(number) => numbers.push(number)?,
            None => return Err(FlatFault::NoProbe(probe.copy(alloc)?)),
        }
    }
    Ok(numbers)
}

/// The netlist of a design in which probes watch nets. Its inputs are the columns of the stimulus, its cells the gates and
/// latches in preorder, its outputs those of the root and behind them the nets that the probes find; each net that is read
/// or watched has the number of its driver. Its history is that of the design by its paths, from every start value and over
/// all rows, whether it has loops or not. A probe that finds no net is named, the first one of them.
pub fn flatten(alloc: Global, elaborated: &Elaborated, probes: &[Name]) -> Result<Flat, FlatFault>
    requires { length probes.now ≤ 65 }
    ensures flat { IfOk result (IsProbedFlat elaborated.now probes.now) }
    ensures history { IfOk result (λ flat. (nets : List Net) → FindAll elaborated.now probes.now nets
        → (unknown : Bool) (rows : List (List Bool))
        → flat_history flat (start_values unknown flat.cells) rows
        ≡ path_history elaborated.now nets unknown rows) }
    ensures fault { IfErr result (IsFlatFault elaborated.now probes.now) }
{
    elaborated.is_accepted();
    histories_agree();
    probes_find_one_net();
    let cells = netlist_cells(alloc, elaborated)?;
    let mut outputs = output_numbers(alloc, elaborated)?;
    let watched = probe_numbers(alloc, elaborated, probes)?;
    outputs.extend_from_slice(watched.as_slice())?;
    Ok(Flat::make(
        elaborated.columns(),
        Sequence::of(cells),
        Sequence::of(outputs),
    ))
}
