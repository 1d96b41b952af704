//! The models of the board and of its nodes.
ghost use Rattle.std.specs.Prelude.{◌≡◌, ◌≤◌, ◌++◌, length, map, OnOk};
ghost use Rattle.std.specs.List.{flat_map};
ghost use Rattle.vw_net.specs.Cells.{latch_count};
ghost use Rattle.vw_emit_hardware.specs.Items.{node_items, results};
ghost use Rattle.vw_emit_names.specs.Boards.{all_nodes, board_model, node_model, placed_node};
ghost use Rattle.vw_emit_text.specs.Steps.{items_text, model_text, numbered_ports, plain_item_text, planned_by, ports_text};
ghost use Rattle.vw_emit_text.specs.declared.ports.Kind.TheVariants.{Columns, Results, Shown};
ghost use Rattle.vw_emit_text.specs.declared.ports.Listing.TheVariants.{Ports};
ghost use Rattle.vw_net.specs.declared.limits.TheConstants.{MOST_CELLS};

use crate::cells::{push_gates, push_latches, push_registers, push_results, push_sequencer};
use crate::emitter::Emitter;
use crate::ports::{Kind, Listing, push_inputs, push_numbered, push_outputs};
use crate::senders::push_senders;
use std::alloc::AllocError;
use vw_net::Cell;
use vw_text::push_number;

/// How many latches there are.
pub(crate) fn latch_count(cells: &[Cell]) -> u32
    requires { length cells.now ≤ MOST_CELLS }
    ensures { result ≡ latch_count cells.now }
{
    let mut count = 0;
    for cell in cells {
        if let Cell::Latch { .. } = cell {
            count += 1;
        }
    }
    count
}

/// Appends the lines of the outputs, if the node is the host.
fn push_results_at(text: &mut Vec<u8>, emitter: &Emitter, node: u32) -> Result<(), AllocError>
    ensures { OnOk result (text.new.items
        ≡ text.old.items ++ items_text (results (planned_by emitter.now) node)) }
{
    if node == 0 {
        push_results(text, emitter, emitter.ordered.flat().outputs())
    } else {
        Ok(())
    }
}

/// Appends the items of a node.
fn push_items(text: &mut Vec<u8>, emitter: &Emitter, node: u32) -> Result<(), AllocError>
    ensures { OnOk result (text.new.items
        ≡ text.old.items ++ items_text (node_items (planned_by emitter.now) node)) }
{
    let cells = emitter.ordered.flat().cells();
    push_sequencer(text, emitter.plan.period())?;
    push_gates(text, emitter, node, cells)?;
    push_latches(text, emitter, node, cells)?;
    push_registers(text, node, emitter.hops)?;
    push_senders(text, emitter, node, emitter.outlets)?;
    push_results_at(text, emitter, node)?;
    Ok(())
}

/// Appends the model of a node.
fn push_node(text: &mut Vec<u8>, emitter: &Emitter, node: u32) -> Result<(), AllocError>
    ensures { OnOk result (text.new.items
        ≡ text.old.items ++ model_text (node_model (planned_by emitter.now) node)) }
{
    text.extend_from_slice(b".model node")?;
    push_number(text, u64::from(node))?;
    text.extend_from_slice(b"\n.inputs")?;
    push_inputs(text, Listing::Ports, emitter, node)?;
    text.extend_from_slice(b"\n.outputs")?;
    push_outputs(text, Listing::Ports, emitter, node)?;
    text.push(b'\n')?;
    push_items(text, emitter, node)?;
    text.extend_from_slice(b".end\n")?;
    Ok(())
}

/// Appends the line that places a node.
fn push_placed(text: &mut Vec<u8>, emitter: &Emitter, node: u32) -> Result<(), AllocError>
    ensures { OnOk result (text.new.items
        ≡ text.old.items ++ plain_item_text (placed_node (planned_by emitter.now) node)) }
{
    text.extend_from_slice(b".subckt node")?;
    push_number(text, u64::from(node))?;
    push_inputs(text, Listing::Bindings, emitter, node)?;
    push_outputs(text, Listing::Bindings, emitter, node)?;
    text.push(b'\n')?;
    Ok(())
}

/// Appends the lines that place all nodes.
fn push_all_placed(text: &mut Vec<u8>, emitter: &Emitter) -> Result<(), AllocError>
    ensures { OnOk result (text.new.items ≡ text.old.items
        ++ flat_map plain_item_text (map (placed_node (planned_by emitter.now)) (all_nodes (planned_by emitter.now)))) }
{
    for node in 0..emitter.board.chips() + 1 {
        push_placed(text, emitter, node)?;
    }
    Ok(())
}

/// Appends the board's inputs, which are the columns.
fn push_columns(text: &mut Vec<u8>, emitter: &Emitter) -> Result<(), AllocError>
    ensures { OnOk result (text.new.items ≡ text.old.items
        ++ ports_text Ports (numbered_ports Columns 0 emitter.now.ordered.now.flat.inputs)) }
{
    let columns = emitter.ordered.flat().inputs();
    push_numbered(text, Listing::Ports, Kind::Columns, columns)
}

/// Appends those of the board's outputs that are outputs of the design.
fn push_design_outputs(text: &mut Vec<u8>, emitter: &Emitter) -> Result<(), AllocError>
    ensures { OnOk result (text.new.items ≡ text.old.items
        ++ ports_text Ports (numbered_ports Results 0 (length emitter.now.ordered.now.flat.outputs))) }
{
    let outputs = emitter.ordered.flat().outputs().len() as u32;
    push_numbered(text, Listing::Ports, Kind::Results, outputs)
}

/// Appends those of the board's outputs that show latches.
fn push_shown(text: &mut Vec<u8>, emitter: &Emitter) -> Result<(), AllocError>
    ensures { OnOk result (text.new.items ≡ text.old.items
        ++ ports_text Ports (numbered_ports Shown 0 (latch_count emitter.now.ordered.now.flat.cells))) }
{
    let latches = latch_count(emitter.ordered.flat().cells());
    push_numbered(text, Listing::Ports, Kind::Shown, latches)
}

/// Appends the model of the board.
pub(crate) fn push_board(text: &mut Vec<u8>, emitter: &Emitter) -> Result<(), AllocError>
    ensures { OnOk result (text.new.items
        ≡ text.old.items ++ model_text (board_model (planned_by emitter.now))) }
{
    text.extend_from_slice(b".model board\n.inputs")?;
    push_columns(text, emitter)?;
    text.extend_from_slice(b"\n.outputs")?;
    push_design_outputs(text, emitter)?;
    push_shown(text, emitter)?;
    text.push(b'\n')?;
    push_all_placed(text, emitter)?;
    text.extend_from_slice(b".end\n")?;
    Ok(())
}

/// Appends the models of all nodes.
pub(crate) fn push_nodes(text: &mut Vec<u8>, emitter: &Emitter) -> Result<(), AllocError>
    ensures { OnOk result (text.new.items ≡ text.old.items
        ++ flat_map model_text (map (node_model (planned_by emitter.now)) (all_nodes (planned_by emitter.now)))) }
{
    for node in 0..emitter.board.chips() + 1 {
        push_node(text, emitter, node)?;
    }
    Ok(())
}
