//! Emitted boards of generated designs.
use crate::traces::{last_outputs, outputs_and_latches};
use std::alloc::Global;
use std::test::Fail;
use vw_emit::emit;
use vw_example::simulate;
use vw_front::netlist_of_text;
use vw_plan::Checked;
use vw_run::compile;

/// Rows of eight bits.
const ROWS: [&[u8]; 6] = [
    b"00000000",
    b"11111111",
    b"10101010",
    b"01100110",
    b"11110000",
    b"00000001",
];

/// A generated design of so many cells on a generated board, by a good plan.
fn compiled(alloc: Global, design: &[u8], board: &[u8]) -> Result<Checked, Fail> {
    let design = netlist_of_text(alloc, design, &[]).ok().ok_or("no design")?;
    let board = vw_board::read(alloc, board).ok().ok_or("no board")?;
    Ok(compile(alloc, design, board).ok().ok_or("no plan")?)
}

/// The rows, each held for so many further clocks.
fn held_rows(alloc: Global, further: u64) -> Result<Vec<u8>, Fail> {
    let mut text = Vec::new(alloc);
    for row in ROWS {
        text.extend_from_slice(row)?;
        text.push(b'\n')?;
        if further > 0 {
            let line = format!(in alloc; "hold {further}\n")?;
            text.extend_from_slice(line.as_bytes())?;
        }
    }
    Ok(text)
}

/// The emitted board of a generated design, and the period of its plan.
fn emitted_demo(alloc: Global, design: &[u8], board: &[u8]) -> Result<(Vec<u8>, u64), Fail> {
    let checked = compiled(alloc, design, board)?;
    let period = checked.plan().period();
    let text = emit(alloc, &checked).ok().ok_or("no text")?;
    Ok((text, period))
}

/// The output bits and latch values of a design over the rows.
fn of_itself(alloc: Global, design: Vec<u8>) -> Result<Vec<u8>, Fail> {
    let simulated = simulate(alloc, design, held_rows(alloc, 0)?)?;
    outputs_and_latches(alloc, &simulated.out)
}

/// The outputs of an emitted board with this period, at the last microcycle of each clock.
fn of_board(alloc: Global, text: Vec<u8>, period: u64) -> Result<Vec<u8>, Fail> {
    let simulated = simulate(alloc, text, held_rows(alloc, period)?)?;
    let group = usize::try_from(period).unwrap_or(0).saturating_add(1);
    last_outputs(alloc, &simulated.out, group)
}

#[test]
fn a_demo_behaves_as_itself(rt: HostRuntime) -> Result<(), Fail> {
    let alloc = rt.alloc();
    let design = vw_gen::design(alloc, 100)?;
    let board = vw_gen::board(alloc, 100)?;
    let (text, period) = emitted_demo(alloc, &design, &board)?;
    let wanted = of_itself(alloc, design)?;
    let found = of_board(alloc, text, period)?;
    assert_eq!(&rt; found.as_slice(), wanted.as_slice());
    Ok(())
}
