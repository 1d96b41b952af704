//! Generated texts worked out by hand, and each call near its limit.
use std::process::Abort;
use std::test::Fail;
use vw_gen::{board, design, stimulus};

/// The design of four cells: three gates and a latch.
const FOUR: &[u8] = b".model demo
.inputs i0 i1 i2 i3 i4 i5 i6 i7
.outputs c0 c1 c2 c3
.names i1 i3 c0
10 1
01 1
.names c0 i7 c1
1- 1
-1 1
.names i7 i5 c2
1- 1
-1 1
.latch c2 c3 0
.end
";

/// The design of one cell.
const ONE: &[u8] = b".model demo
.inputs i0 i1 i2 i3 i4 i5 i6 i7
.outputs c0
.names i2 i6 c0
1- 1
-1 1
.end
";

/// Asserts that this text is found.
fn is_text(rt: &impl Abort, found: &[u8], wanted: &[u8]) {
    assert_eq!(rt; found, wanted);
}

/// Asserts that a text begins and ends so, and has so many bytes and lines.
fn is_between(
    rt: &impl Abort,
    found: &[u8],
    front: &[u8],
    back: &[u8],
    bytes: usize,
    lines: usize,
) {
    assert!(rt; found.starts_with(front) && found.ends_with(back));
    assert_eq!(rt; found.len(), bytes);
    let ends = found.iter().filter(|byte| **byte == b'\n').count();
    assert_eq!(rt; ends, lines);
}

#[test]
fn designs_have_their_gates_and_latches(rt: HostRuntime) -> Result<(), Fail> {
    is_text(&rt, &design(rt.alloc(), 1)?, ONE);
    is_text(&rt, &design(rt.alloc(), 4)?, FOUR);
    let most = design(rt.alloc(), 20_000)?;
    let back = b"c19992 c19998\n1- 1\n-1 1\n.latch c4634 c19999 1\n.end\n";
    is_between(&rt, &most, b".model demo\n", back, 616_235, 42_446);
    Ok(())
}

#[test]
fn boards_have_four_rows_of_four_chips(rt: HostRuntime) -> Result<(), Fail> {
    let back =
        b"link 16 15 2\nlink 0 1 2\nlink 1 0 2\nlink 0 4 2\nlink 4 0 2\nlink 0 13 2\nlink 13 0 2\nlink 0 16 2\nlink 16 0 2\n";
    let few = board(rt.alloc(), 4)?;
    let front =
        b"board 1\nchips 16\ncells 1\nsettle 1\npins 16\nlink 1 2 2\nlink 2 1 2\nlink 1 5 2\nlink 5 1 2\n";
    is_between(&rt, &few, front, back, 704, 61);
    let most = board(rt.alloc(), 20_000)?;
    let front = b"board 1\nchips 16\ncells 1667\nsettle 1\npins 16\nlink 1 2 2\n";
    is_between(&rt, &most, front, back, 707, 61);
    Ok(())
}

#[test]
fn stimuli_have_300_rows_of_eight_bits(rt: HostRuntime) -> Result<(), Fail> {
    let few = stimulus(rt.alloc(), 4)?;
    is_between(
        &rt,
        &few,
        b"11110001\n",
        b"\n00000110\n01001110\n",
        2_700,
        300,
    );
    let most = stimulus(rt.alloc(), 20_000)?;
    is_between(&rt, &most, b"11111011\n", b"\n10001111\n", 2_700, 300);
    Ok(())
}
