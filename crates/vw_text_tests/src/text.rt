use crate::same::{assert_number, assert_same};
use std::alloc::{AllocError, Global};
use std::process::Abort;
use std::test::Fail;
use vw_samples::{add_number, add_words, name};
use vw_text::{Line, lines, number};

/// Adds a line: its number and its words, and `|`.
fn add_line(alloc: Global, shown: &mut Vec<u8>, line: &Line) -> Result<(), AllocError> {
    add_number(alloc, shown, line.number())?;
    add_words(shown, line.words())?;
    shown.push(b'|')?;
    Ok(())
}

/// The word lines of a text, written plainly.
fn shown(alloc: Global, text: &[u8]) -> Result<Vec<u8>, AllocError> {
    let lines = lines(alloc, text)?;
    let mut shown = Vec::new(alloc);
    for line in lines.as_slice() {
        add_line(alloc, &mut shown, line)?;
    }
    Ok(shown)
}

/// Asserts of each text what its word lines are.
fn assert_all(rt: &impl Abort, alloc: Global, table: &[(&[u8], &[u8])]) -> Result<(), AllocError> {
    for (text, wanted) in table {
        let found = shown(alloc, text)?;
        assert_same(rt, text, &found, wanted);
    }
    Ok(())
}

/// Texts and their word lines.
const LINES: &[(&[u8], &[u8])] = &[
    (b"", b""),
    (b"\n\n \n", b""),
    (b"a b", b"1 a b|"),
    (b"a\nb\n", b"1 a|2 b|"),
    (b"\n\na\n", b"3 a|"),
    (b"  a\t\x0b\x0cb \r\n", b"1 a b|"),
    // comments, also inside a word and before a continuation
    (b"# all\na#b c\nd # e", b"2 a|3 d|"),
    (b"a \\ # x\nb\n", b"1 a b|"),
    (b"a # x \\\nb\n", b"1 a|2 b|"),
    // continuations: nothing is put between, and blanks before the `\\` stay
    (b"a\\\nb\nc", b"1 ab|3 c|"),
    (b"a \\\nb \\\nc\nd", b"1 a b c|4 d|"),
    (b"a \\  \nb", b"1 a b|"),
    (b"a\\\\\nb", b"1 a\\b|"),
    (b"a\\", b"1 a|"),
    (b"a\\\n", b"1 a|"),
    (b"a\\\n\nb", b"1 a|3 b|"),
    (b"a\\\n# c\nb", b"1 a|3 b|"),
    (b"\\\n\\\na", b"1 a|"),
    // a `\\` amid a line is a byte like others, and so are bytes 0 and 255
    (b"a\\b c", b"1 a\\b c|"),
    (b"\x00 \xff", b"1 \x00 \xff|"),
    (b".inputs \\\n a b\n", b"1 .inputs a b|"),
];

#[test]
fn lines_are_cut_joined_and_numbered(rt: HostRuntime) -> Result<(), Fail> {
    assert_all(&rt, rt.alloc(), LINES)?;
    Ok(())
}

/// Asserts of each word what number it spells.
fn assert_numbers(
    rt: &impl Abort,
    alloc: Global,
    table: &[(&[u8], Option<u64>)],
) -> Result<(), AllocError> {
    for (word, wanted) in table {
        let found = number(&name(alloc, word)?);
        assert_number(rt, word, found, *wanted);
    }
    Ok(())
}

/// Words and the numbers that they spell.
const NUMBERS: &[(&[u8], Option<u64>)] = &[
    (b"", None),
    (b"0", Some(0)),
    (b"7", Some(7)),
    (b"10", Some(10)),
    (b"00", None),
    (b"01", None),
    (b"1a", None),
    (b"-1", None),
    (b"+1", None),
    (b"1 ", None),
    (b"/", None),
    (b":", None),
    (b"18446744073709551615", Some(18_446_744_073_709_551_615)),
    (b"18446744073709551616", None),
];

#[test]
fn numbers_have_one_spelling(rt: HostRuntime) -> Result<(), Fail> {
    assert_numbers(&rt, rt.alloc(), NUMBERS)?;
    Ok(())
}
