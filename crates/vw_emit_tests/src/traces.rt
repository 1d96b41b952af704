//! Traces of designs and of emitted boards, for tests.
use std::alloc::Global;
use std::test::Fail;

/// The output bits of each clock of a trace that is the last of so many, a line each.
pub fn last_outputs(alloc: Global, trace: &[u8], group: usize) -> Result<Vec<u8>, Fail> {
    let mut outputs = Vec::new(alloc);
    let mut left = group;
    for line in trace.split(|byte| *byte == b'\n').skip(1) {
        left = left.saturating_sub(1);
        if left == 0 {
            let word = line.split(|byte| *byte == b' ').nth(1).unwrap_or(b"");
            outputs.extend_from_slice(word)?;
            outputs.push(b'\n')?;
            left = group;
        }
    }
    Ok(outputs)
}

/// The output bits of each clock of a trace with the latch values behind them, a line each.
pub fn outputs_and_latches(alloc: Global, trace: &[u8]) -> Result<Vec<u8>, Fail> {
    let mut bits = Vec::new(alloc);
    for line in trace.split(|byte| *byte == b'\n').skip(1) {
        if line.starts_with(b"end") || line.is_empty() {
            continue;
        }
        for word in line.split(|byte| *byte == b' ').skip(1) {
            bits.extend_from_slice(word)?;
        }
        bits.push(b'\n')?;
    }
    Ok(bits)
}
