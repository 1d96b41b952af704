//! Boards that are too large to be written as designs.
use std::alloc::Global;
use std::test::Fail;
use vw_sample_calls::{End, words_end_so};
use vw_samples::{Piece, spelled};

/// A chip with room for all cells that a design may have.
const ROOMY: &str = "board 1\nchips 1\ncells 65536\nsettle 0\npins 2\nlink 0 1 1\nlink 1 0 1\n";

/// Fails unless an emission of a design, in pieces, on that chip is refused with status 10 and this line.
fn emission_is_refused(alloc: Global, design: &[Piece], line: &str) -> Result<(), Fail> {
    let design = spelled(alloc, design)?;
    let texts = [("d", design.as_str()), ("b", ROOMY)];
    words_end_so(alloc, &["emit", "d", "b"], &texts, End::refused(10, line))
}

/// An output and 4,096 latches are one more than the outputs that a design may have.
#[test]
fn a_board_shows_its_outputs_and_latches(rt: HostRuntime) -> Result<(), Fail> {
    const DESIGN: &[Piece] = &[
        (1, ".model m\n.inputs i\n.outputs q0\n"),
        (4096, ".latch i q# 0\n"),
        (1, ".end\n"),
    ];
    emission_is_refused(rt.alloc(), DESIGN, "emit 2: 4097 outputs\n")
}

/// The thousand rows of a table that is placed 1,300 times stand in the board's text as often.
#[test]
fn each_placed_table_has_its_rows_in_a_board(rt: HostRuntime) -> Result<(), Fail> {
    const DESIGN: &[Piece] = &[
        (1, ".model m\n.inputs a\n.outputs n0\n"),
        (1300, ".subckt t a=a y=n#\n"),
        (1, ".end\n.model t\n.inputs a\n.outputs y\n"),
        (1, ".names a a a a a a a a a a y\n"),
        (1000, "1111111111 1\n"),
        (1, ".end\n"),
    ];
    emission_is_refused(rt.alloc(), DESIGN, "emit 3: 16981324 bytes\n")
}
