//! Runs on boards beside the simulator: both write the same trace.
use std::alloc::{AllocError, Global};
use std::test::Fail;
use vw_sample_calls::{Fault, MOST, SIM, are_found, call_over, files_of};

/// The next of some numbers that look as if they came by chance.
fn next(seed: u32) -> u32 {
    seed.wrapping_mul(75).wrapping_add(74) % 65537
}

/// A cell: every fourth is a latch. It reads nets that are no further back than 12.
fn push_cell(text: &mut String, alloc: Global, net: u32, seed: u32) -> Result<(), AllocError> {
    let first = net.saturating_sub(1 + seed % 4);
    let second = net.saturating_sub(5 + seed / 4 % 4);
    let third = net.saturating_sub(9 + seed / 16 % 4);
    let cell = if net % 4 == 3 {
        format!(in alloc; ".latch n{third} n{net} 0\n")?
    } else {
        format!(in alloc; ".names n{first} n{second} n{third} n{net}\n11- 1\n--0 1\n")?
    };
    text.push_str(cell.as_str())
}

/// A design of 500 cells with 16 inputs, whose gates read nets before them.
fn design_of_500_cells(alloc: Global) -> Result<String, AllocError> {
    let mut text = String::new(alloc);
    text.push_str(".model m\n.inputs n0 n1 n2 n3 n4 n5 n6 n7 n8 n9 n10 n11 n12 n13 n14 n15\n")?;
    text.push_str(".outputs n515 n400 n301 n22\n")?;
    let mut seed = 7;
    for net in 16..516 {
        push_cell(&mut text, alloc, net, seed)?;
        seed = next(seed);
    }
    text.push_str(".end\n")?;
    Ok(text)
}

/// Rows of 16 bits, more than a batch.
fn rows_of_16_bits(alloc: Global) -> Result<String, AllocError> {
    let mut text = String::new(alloc);
    let mut seed = 9;
    for _ in 0..270 {
        for place in 0..16u32 {
            text.push(if (seed >> place) & 1 == 1 { '1' } else { '0' })?;
        }
        text.push('\n')?;
        seed = next(seed);
    }
    Ok(text)
}

/// The plan with a period that is more than ten times as long, which no planner would choose.
fn slower(alloc: Global, plan: &str) -> Result<String, AllocError> {
    let mut text = String::new(alloc);
    let mut first = true;
    for letter in plan.chars() {
        if first && letter == '\n' {
            text.push('9')?;
            first = false;
        }
        text.push(letter)?;
    }
    Ok(text)
}

/// What a call writes that ends with status 0.
pub fn written(alloc: Global, words: &[&str], texts: &[(&str, &str)]) -> Result<String, Fail> {
    let ran = call_over(alloc, words, files_of(alloc, texts)?, MOST, Fault::None)?;
    if ran.status != 0 {
        return Err("not done".into());
    }
    let bytes = ran.out.bytes().to_vec(alloc)?;
    Ok(String::from_utf8(bytes).ok().ok_or("no text")?)
}

/// Asserts that a run on a board writes this trace, by a plan of its own and by the one that is given.
fn writes_trace<'t>(
    alloc: Global,
    design: &'t str,
    rows: &'t str,
    board: &'t str,
    plan: &'t str,
    trace: &str,
) -> Result<(), Fail> {
    let texts = [("d", design), ("s", rows), ("b", board), ("p", plan)];
    let own = written(alloc, &["run", "d", "b", "s", "workers=1"], &texts)?;
    are_found(own.as_bytes(), trace.as_bytes(), board)?;
    let given = written(
        alloc,
        &["run", "d", "b", "s", "workers=1", "plan=p"],
        &texts,
    )?;
    are_found(given.as_bytes(), trace.as_bytes(), board)?;
    Ok(())
}

/// A plan of a design on a board that is slower than the one that is made.
fn slower_plan<'t>(alloc: Global, design: &'t str, board: &'t str) -> Result<String, Fail> {
    let plan = written(alloc, &["plan", "d", "b"], &[("d", design), ("b", board)])?;
    Ok(slower(alloc, plan.as_str())?)
}

/// Asserts that runs on a board write this trace.
fn has_trace(
    alloc: Global,
    design: &str,
    rows: &str,
    board: &str,
    trace: &str,
) -> Result<(), Fail> {
    let plan = slower_plan(alloc, design, board)?;
    writes_trace(alloc, design, rows, board, plan.as_str(), trace)
}

/// Two chips beside the host; four in a row; five in a ring whose links take one to three microcycles; and eight on a grid.
const BOARDS: &[&str] = &[
    "board 1\nchips 2\ncells 256\nsettle 1\npins 64\nlink 0 1 8\nlink 1 0 8\nlink 0 2 8\nlink 2 0 8\nlink 1 2 8\nlink 2 1 8\n",
    "board 1\nchips 4\ncells 130\nsettle 0\npins 64\nlink 0 1 4\nlink 1 0 4\nlink 1 2 4\nlink 2 1 4\nlink 2 3 4\nlink 3 2 4\nlink 3 4 4\nlink 4 3 4\n",
    "board 2\nchips 5\ncells 110\nsettle 2\npins 64\nlink 0 1 6 1\nlink 1 0 6 1\nlink 1 2 6 2\nlink 2 1 6 2\nlink 2 3 6 3\nlink 3 2 6 3\nlink 3 4 6 1\nlink 4 3 6 1\nlink 4 5 6 2\nlink 5 4 6 2\nlink 5 1 6 3\nlink 1 5 6 3\n",
    "board 1\nchips 8\ncells 64\nsettle 0\npins 64\nlink 0 1 5\nlink 1 0 5\nlink 1 2 5\nlink 2 1 5\nlink 2 3 5\nlink 3 2 5\nlink 3 4 5\nlink 4 3 5\nlink 5 6 5\nlink 6 5 5\nlink 6 7 5\nlink 7 6 5\nlink 7 8 5\nlink 8 7 5\nlink 1 5 5\nlink 5 1 5\nlink 2 6 5\nlink 6 2 5\nlink 3 7 5\nlink 7 3 5\nlink 4 8 5\nlink 8 4 5\n",
];

#[test]
fn a_run_on_any_board_writes_what_the_simulator_writes(rt: HostRuntime) -> Result<(), Fail> {
    let alloc = rt.alloc();
    let design = design_of_500_cells(alloc)?;
    let rows = rows_of_16_bits(alloc)?;
    let texts = [("d", design.as_str()), ("s", rows.as_str())];
    let trace = written(alloc, SIM, &texts)?;
    for board in BOARDS {
        has_trace(alloc, design.as_str(), rows.as_str(), board, trace.as_str())?;
    }
    Ok(())
}
