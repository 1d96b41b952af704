//! Plans as texts.
ghost use Rattle.std.specs.Prelude.{◌≡◌, ◌++◌, ◌∷◌, [], codes, decimal, map, IfOk, OnOk};
ghost use Rattle.vw_plan.specs.declared.plan.Plan.{Plan};
ghost use Rattle.vw_plantext.specs.Content.{content_of};
ghost use Rattle.vw_plantext.specs.Grammar.{numbers_text, number_line, chips_line, spelling};
ghost use Rattle.vw_text.specs.Printed.{with_newline};
ghost use Rattle.vw_plantext.specs.Steps.Pieces.{hops_text, wire_text, wires_text};

use std::alloc::{AllocError, Global};
use vw_plan::{Hop, Plan, Wire};
use vw_text::push_number;

/// Appends a number behind a space.
fn push_behind_space(text: &mut Vec<u8>, number: u64) -> Result<(), AllocError>
    ensures { OnOk result (text.new.items ≡ text.old.items ++ 32 ∷ decimal number) }
{
    text.push(b' ')?;
    push_number(text, number)
}

/// Appends a line of a word and numbers.
fn push_line(text: &mut Vec<u8>, word: &[u8], numbers: &[u64]) -> Result<(), AllocError>
    ensures { OnOk result (text.new.items
        ≡ text.old.items ++ with_newline (number_line word.now numbers.now)) }
{
    text.extend_from_slice(word)?;
    for number in numbers {
        push_behind_space(text, *number)?;
    }
    text.push(b'\n')?;
    Ok(())
}

/// Appends the line of the chips of cells.
fn push_chips(text: &mut Vec<u8>, chip_of: &[u32]) -> Result<(), AllocError>
    ensures { OnOk result (text.new.items
        ≡ text.old.items ++ with_newline (chips_line chip_of.now)) }
{
    text.extend_from_slice(b"chips")?;
    for chip in chip_of {
        push_behind_space(text, u64::from(*chip))?;
    }
    text.push(b'\n')?;
    Ok(())
}

/// Appends the lines of hops.
fn push_hops(text: &mut Vec<u8>, hops: &[Hop]) -> Result<(), AllocError>
    ensures { OnOk result (text.new.items ≡ text.old.items ++ hops_text hops.now) }
{
    for hop in hops {
        let (from, to, pin) = (hop.from(), hop.to(), hop.pin());
        let numbers = [u64::from(from), u64::from(to), u64::from(pin), hop.at()];
        push_line(text, b"hop", &numbers)?;
    }
    Ok(())
}

/// Appends the lines of a wire.
fn push_wire(text: &mut Vec<u8>, wire: &Wire) -> Result<(), AllocError>
    ensures { OnOk result (text.new.items ≡ text.old.items ++ wire_text wire.now) }
{
    let hops = wire.hops();
    let numbers = [
        u64::from(wire.net()),
        u64::from(wire.to()),
        hops.len() as u64,
    ];
    push_line(text, b"wire", &numbers)?;
    push_hops(text, hops)
}

/// Appends the lines of wires.
fn push_wires(text: &mut Vec<u8>, wires: &[Wire]) -> Result<(), AllocError>
    ensures { OnOk result (text.new.items ≡ text.old.items ++ wires_text wires.now) }
{
    for wire in wires {
        push_wire(text, wire)?;
    }
    Ok(())
}

/// The one spelling of a plan.
pub fn print(alloc: Global, plan: &Plan) -> Result<Vec<u8>, AllocError>
    ensures { IfOk result (λ text. text.items ≡ spelling (content_of plan.now)) }
{
    let cells = plan.chip_of();
    let wires = plan.wires();
    let numbers = [1, cells.len() as u64, wires.len() as u64, plan.period()];
    let mut text = Vec::new(alloc);
    push_line(&mut text, b"plan", &numbers)?;
    push_chips(&mut text, cells)?;
    push_wires(&mut text, wires)?;
    text.extend_from_slice(b"end\n")?;
    Ok(text)
}
