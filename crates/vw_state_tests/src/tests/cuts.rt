//! Runs that are cut in pieces, each on another board, with another number of workers.
use super::*;

/// Two chips beside the host; and five in a ring whose links take one to three microcycles. Both have room for 500 cells.
const BOARDS: [&str; 2] = [
    "board 1\nchips 2\ncells 256\nsettle 1\npins 64\nlink 0 1 8\nlink 1 0 8\nlink 0 2 8\nlink 2 0 8\nlink 1 2 8\nlink 2 1 8\n",
    "board 2\nchips 5\ncells 110\nsettle 2\npins 64\nlink 0 1 6 1\nlink 1 0 6 1\nlink 1 2 6 2\nlink 2 1 6 2\nlink 2 3 6 3\nlink 3 2 6 3\nlink 3 4 6 1\nlink 4 3 6 1\nlink 4 5 6 2\nlink 5 4 6 2\nlink 5 1 6 3\nlink 1 5 6 3\n",
];

/// The first lines of a text, and the others.
pub fn cut(alloc: Global, text: &str, lines: u32) -> Result<(String, String), AllocError> {
    let mut front = String::new(alloc);
    let mut rest = String::new(alloc);
    let mut seen: u32 = 0;
    for letter in text.chars() {
        if seen < lines {
            front.push(letter)?;
        } else {
            rest.push(letter)?;
        }
        if letter == '\n' {
            seen = seen.saturating_add(1);
        }
    }
    Ok((front, rest))
}

/// How many lines a text has.
pub fn lines_of(text: &str) -> u32 {
    let mut lines: u32 = 0;
    for letter in text.chars() {
        if letter == '\n' {
            lines = lines.saturating_add(1);
        }
    }
    lines
}

/// One trace without its last line, and behind it another without its first.
pub fn joined(alloc: Global, one: &str, other: &str) -> Result<String, AllocError> {
    let (mut text, _) = cut(alloc, one, lines_of(one).saturating_sub(1))?;
    let (_, later) = cut(alloc, other, 1)?;
    text.push_str(later.as_str())?;
    Ok(text)
}

/// A design on the first board, and its first rows.
pub fn first_piece<'x>(design: &'x str, rows: &'x str) -> [(&'x str, &'x str); 3] {
    [("d", design), ("b", BOARDS[0]), ("s", rows)]
}

/// A design on the second board, a state, and the rows that follow it.
pub fn later_piece<'x>(design: &'x str, state: &'x str, rows: &'x str) -> [(&'x str, &'x str); 4] {
    [("d", design), ("b", BOARDS[1]), ("t", state), ("s", rows)]
}

/// The trace of a run on the first board, and the state after it.
fn first_of<R: Threads + Wait + Copy + Send + Sync>(
    rt: &R,
    alloc: Global,
    design: &str,
    rows: &str,
) -> Result<(String, String), Fail> {
    let texts = first_piece(design, rows);
    let trace = written_on(rt, alloc, &["run", "d", "b", "s", "workers=1"], &texts)?;
    let state = written_on(rt, alloc, &["save", "d", "b", "s", "workers=2"], &texts)?;
    Ok((trace, state))
}

/// The trace of the run on the second board that goes on from a state.
fn rest_from<R: Threads + Wait + Copy + Send + Sync>(
    rt: &R,
    alloc: Global,
    design: &str,
    state: &str,
    rows: &str,
) -> Result<String, Fail> {
    let texts = later_piece(design, state, rows);
    written_on(
        rt,
        alloc,
        &["resume", "d", "b", "t", "s", "workers=3"],
        &texts,
    )
}

/// Fails unless the traces of a run before and after so many rows, joined, are the trace of the whole. The first piece runs on
/// the one board, and the second goes on from its state on the other.
fn joins_at<R: Threads + Wait + Copy + Send + Sync>(
    rt: &R,
    alloc: Global,
    design: &str,
    rows: &str,
    whole: &str,
    place: u32,
) -> Result<(), Fail> {
    let (first, later) = cut(alloc, rows, place)?;
    let (trace, state) = first_of(rt, alloc, design, first.as_str())?;
    let rest = rest_from(rt, alloc, design, state.as_str(), later.as_str())?;
    let all = joined(alloc, trace.as_str(), rest.as_str())?;
    are_found(all.as_bytes(), whole.as_bytes(), first.as_str())
}

/// What such words write of a design over rows.
pub fn simulated_with<R: Threads + Wait + Copy + Send + Sync>(
    rt: &R,
    alloc: Global,
    design: &str,
    rows: &str,
    words: &[&str],
) -> Result<String, Fail> {
    let texts = [("d", design), ("s", rows)];
    written_on(rt, alloc, words, &texts)
}

/// The trace of a design over rows.
fn simulated<R: Threads + Wait + Copy + Send + Sync>(
    rt: &R,
    alloc: Global,
    design: &str,
    rows: &str,
) -> Result<String, Fail> {
    simulated_with(rt, alloc, design, rows, SIM)
}

/// Fails unless this holds of a generated design at each of these places.
fn joins_at_all<R: Threads + Wait + Copy + Send + Sync>(
    rt: &R,
    alloc: Global,
    cells: u32,
    places: &[u32],
) -> Result<(), Fail> {
    let (design, rows) = demonstrated(alloc, cells)?;
    let whole = simulated(rt, alloc, design.as_str(), rows.as_str())?;
    for place in places {
        joins_at(
            rt,
            alloc,
            design.as_str(),
            rows.as_str(),
            whole.as_str(),
            *place,
        )?;
    }
    Ok(())
}

/// At the ends, inside a batch of 256 rows, at its edge and beside it.
#[test]
fn pieces_join_wherever_a_run_is_cut(rt: HostRuntime) -> Result<(), Fail> {
    joins_at_all(&rt, rt.alloc(), 40, &[0, 1, 97, 255, 256, 257, 300])
}

#[test]
fn pieces_of_other_designs_join(rt: HostRuntime) -> Result<(), Fail> {
    let alloc = rt.alloc();
    joins_at_all(&rt, alloc, 1, &[31])?;
    joins_at_all(&rt, alloc, 9, &[256])?;
    joins_at_all(&rt, alloc, 130, &[150])?;
    joins_at_all(&rt, alloc, 500, &[211])
}

/// The `end` line of a trace has the state: `end 3 0` is `state 1 3 1 0`, where there is one latch.
#[test]
fn a_run_is_cut_in_three(rt: HostRuntime) -> Result<(), Fail> {
    let alloc = rt.alloc();
    const ROWS: [&str; 3] = ["1\n1\n0\n", "1\n", "hold 2\n1\n"];
    let all = [("d", TOGGLE), ("s", "1\n1\n0\n1\n0\n0\n1\n")];
    let whole = written_on(&rt, alloc, SIM, &all)?;
    let first = [("d", TOGGLE), ("b", TRIANGLE), ("s", ROWS[0])];
    let one = written_on(&rt, alloc, &["run", "d", "b", "s"], &first)?;
    are_found(
        one.as_bytes(),
        b"trace 1 1 1\n0 0 0\n1 1 1\n2 0 0\nend 3 0\n",
        "first",
    )?;
    let second = [
        ("d", TOGGLE),
        ("b", TRIANGLE),
        ("t", "state 1 3 1 0\n"),
        ("s", ROWS[1]),
    ];
    let two = written_on(&rt, alloc, &["resume", "d", "b", "t", "s"], &second)?;
    are_found(two.as_bytes(), b"trace 1 1 1\n3 0 0\nend 4 1\n", "second")?;
    let third = [
        ("d", TOGGLE),
        ("b", TRIANGLE),
        ("t", "state 1 4 1 1\n"),
        ("s", ROWS[2]),
    ];
    let three = written_on(&rt, alloc, &["resume", "d", "b", "t", "s"], &third)?;
    let front = joined(alloc, one.as_str(), two.as_str())?;
    let found = joined(alloc, front.as_str(), three.as_str())?;
    are_found(found.as_bytes(), whole.as_bytes(), "all")
}
