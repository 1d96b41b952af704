//! The text of a netlist.
ghost use Rattle.std.specs.Prelude.{◌≡◌, ◌+◌, ◌++◌, ◌∷◌, [], length, IfOk, OnOk};
ghost use Rattle.vw_listing.specs.Netlist.{head_line, netlist_text};

use crate::lines::{push_cells, push_columns, push_outputs};
use crate::words::push_numbers;
use std::alloc::{AllocError, Global};
use vw_net::Flat;
use vw_outside::Name;

/// Appends the line of the counts.
fn push_head(text: &mut Vec<u8>, flat: &Flat) -> Result<(), AllocError>
    ensures { OnOk result (text.new.items ≡ text.old.items ++ (head_line flat.now ++ 10 ∷ [])) }
{
    let cells = flat.cells().len() as u32;
    let outputs = flat.outputs().len() as u32;
    text.extend_from_slice(b"nets 1")?;
    push_numbers(text, &[flat.inputs(), cells, outputs])?;
    text.push(b'\n')?;
    Ok(())
}

/// The text of a netlist: how many columns, cells and outputs it has; then a line for each column, for each cell with the nets
/// that it reads, and for each output, in order; and the end. A net has its number and its name: `nets` are the printed nets by
/// their numbers, `outputs` the names of the first outputs, and `probes` those of the others. It takes memory for the text
/// alone, and nothing but want of memory is an error.
pub fn netlist_text(
    alloc: Global,
    flat: &Flat,
    nets: &[Name],
    outputs: &[Name],
    probes: &[Name],
) -> Result<Vec<u8>, AllocError>
    requires nets { length nets.now ≡ flat.now.inputs + length flat.now.cells }
    requires outputs { length outputs.now + length probes.now ≡ length flat.now.outputs }
    ensures { IfOk result (λ text. text.items
        ≡ netlist_text nets.now (outputs.now ++ probes.now) flat.now) }
{
    let inputs = flat.inputs();
    let mut text = Vec::new(alloc);
    push_head(&mut text, flat)?;
    push_columns(&mut text, &nets[..inputs as usize])?;
    push_cells(&mut text, nets, inputs, flat.cells())?;
    push_outputs(&mut text, outputs, probes, flat.outputs())?;
    text.extend_from_slice(b"end\n")?;
    Ok(text)
}
