ghost use Rattle.std.specs.Prelude.{◌≡◌, ◌≤◌, ◌<◌, ◌+◌, ◌^◌, ◌++◌, ◌∷◌, [], length, map, IfOk, OnOk};
ghost use Rattle.std.specs.Fmt.{decimal};
ghost use Rattle.vw_rows.specs.Trace.{head_text, clock_text, rows_text, end_text};

use std::alloc::{AllocError, Global};
use vw_net::{Bits, Rows};
use vw_text::{push_bits, push_number};

/// Appends the line of one clock.
fn push_clock(
    text: &mut Vec<u8>,
    clock: u128,
    outputs: &[bool],
    latches: &[bool],
) -> Result<(), AllocError>
    ensures { OnOk result (text.new.items
        ≡ text.old.items ++ clock_text clock outputs.now latches.now) }
{
    push_number(text, clock)?;
    text.push(b' ')?;
    push_bits(text, outputs)?;
    text.push(b' ')?;
    push_bits(text, latches)?;
    text.push(b'\n')?;
    Ok(())
}

/// The first line of a trace: the numbers of outputs, of probes where there are any, and of latches.
pub fn trace_head(
    alloc: Global,
    outputs: u32,
    probes: u32,
    latches: u32,
) -> Result<Vec<u8>, AllocError>
    ensures { IfOk result (λ text. text.items ≡ head_text outputs probes latches) }
{
    let line = if probes == 0 {
        format!(in alloc; "trace 1 {outputs} {latches}\n")?
    } else {
        format!(in alloc; "trace 2 {outputs} {probes} {latches}\n")?
    };
    Ok(line.into_bytes())
}

/// The lines of clocks numbered from `first` on: the outputs of each, and the latch values before its step. Clocks are
/// counted in 128 bits, so that each `first` will do.
pub fn trace_rows(
    alloc: Global,
    first: u64,
    outputs: &Rows,
    latches: &Rows,
) -> Result<Vec<u8>, AllocError>
    requires { length outputs.now ≡ length latches.now }
    ensures { IfOk result (λ text. text.items ≡ rows_text first outputs.now latches.now) }
{
    let mut text = Vec::new(alloc);
    for i in 0..outputs.len() {
        push_clock(
            &mut text,
            u128::from(first) + i as u128,
            outputs.row(i),
            latches.row(i),
        )?;
    }
    Ok(text)
}

/// The last line of a trace: the number of clocks, and the latch values after the last.
pub fn trace_end(alloc: Global, clocks: u64, last: &Bits) -> Result<Vec<u8>, AllocError>
    ensures { IfOk result (λ text. text.items ≡ end_text clocks last.now) }
{
    let mut text = format!(in alloc; "end {clocks} ")?.into_bytes();
    push_bits(&mut text, last.as_slice())?;
    text.push(b'\n')?;
    Ok(text)
}
