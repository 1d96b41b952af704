//! The words `--help` and `--version`.
use std::test::Fail;
use vw_sample_calls::{Call, Fault, MOST, carried_out, faults_end, is_status, words_end};

const HELP: &[&str] = &["--help"];

#[test]
fn the_version_stands_alone_on_its_line(rt: HostRuntime) -> Result<(), Fail> {
    const TABLE: &[(&[&str], u8, &str, &str)] = &[
        (&["--version"], 0, "vwires 1.0.0\n", ""),
        (&["--version", "x"], 2, "", "usage: word 2\n"),
        (&["--help", "x"], 2, "", "usage: word 2\n"),
        (&["--help", "probe=a"], 2, "", "usage: word 2\n"),
        (&["--help", "--version"], 2, "", "usage: word 2\n"),
        (&["--helpx"], 2, "", "usage: word 1\n"),
        (&["-h"], 2, "", "usage: word 1\n"),
        (&["sim", "--help"], 2, "", "usage: word 3\n"),
    ];
    words_end(rt.alloc(), &[], TABLE)
}

#[test]
fn a_help_that_can_not_be_written_is_a_write_fault(rt: HostRuntime) -> Result<(), Fail> {
    const TABLE: &[(u32, Fault, u8, &str, &str)] = &[
        (4096, Fault::Write(1), 8, "", "write fault\n"),
        (10, Fault::Write(2), 8, "vwires: a ", "write fault\n"),
        (4, Fault::Write(3), 8, "vwires: ", "write fault\n"),
    ];
    faults_end(rt.alloc(), HELP, &[], TABLE)
}

#[test]
fn the_help_has_at_most_50_lines_of_80_columns(rt: HostRuntime) -> Result<(), Fail> {
    let alloc = rt.alloc();
    let call = Call {
        words: HELP,
        texts: &[],
        most: MOST,
        fault: Fault::None,
    };
    let ran = carried_out(alloc, &call)?;
    is_status(ran.status, 0, "the help")?;
    let (lines, columns) = size_of(ran.out.bytes());
    assert!(&rt; 20 <= lines && lines <= 50);
    assert!(&rt; 60 <= columns && columns <= 80);
    Ok(())
}

/// How many lines a text has, and how many bytes its longest line.
fn size_of(text: &[u8]) -> (u32, u32) {
    let mut lines = 0_u32;
    let mut longest = 0_u32;
    let mut columns = 0_u32;
    for byte in text {
        columns = columns.saturating_add(1);
        if *byte == b'\n' {
            lines = lines.saturating_add(1);
            longest = longest.max(columns.saturating_sub(1));
            columns = 0;
        }
    }
    (lines, longest)
}
