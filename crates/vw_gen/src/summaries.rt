//! Summaries of traces.
ghost use Rattle.std.specs.Prelude.{◌≡◌, ◌<◌, ◌^◌, IfOk};
ghost use Rattle.vw_gen.specs.Summary.{folded, ones, summary};

use std::alloc::{AllocError, Global};

/// How many bytes of a trace are the digit 1.
fn ones(trace: &[u8]) -> usize
    ensures { result ≡ ones trace.now }
{
    trace.iter().filter(|byte| **byte == b'1').count()
}

/// All bytes of a trace, folded into 32 bits.
fn folded(trace: &[u8]) -> u64
    ensures is { result ≡ folded trace.now }
    ensures small { result < 2 ^ 32 }
{
    let mut so_far = 0u64;
    for byte in trace {
        so_far = (so_far * 31 + *byte as u64) % 4_294_967_296;
    }
    so_far
}

/// The line that sums up a trace of the generated texts of so many cells: the cells, the clocks, how many bytes of the trace
/// are the digit 1, and all its bytes folded into 32 bits. It takes memory for the line, and nothing but want of memory is an
/// error.
pub fn summary(alloc: Global, cells: u32, trace: &[u8]) -> Result<Vec<u8>, AllocError>
    ensures { IfOk result (λ line. line.items ≡ summary cells trace.now) }
{
    let (ones, folded) = (ones(trace), folded(trace));
    let line = format!(in alloc; "demo {cells} 300 {ones} {folded}\n")?;
    Ok(line.into_bytes())
}
