//! Physical lines without their comments and the blanks at their ends.
ghost use Rattle.std.specs.Prelude.{◌≡◌, option_map};
ghost use Rattle.vw_text.specs.Bare.{is_blank, without_comment, trimmed, bare};
ghost use Rattle.vw_text.specs.Logical.{before_backslash};

use bstr::ByteSlice;

/// Whether a byte separates words: tabs and feeds, the return, and the space.
pub fn is_blank(byte: u8) -> bool
    ensures { result ≡ is_blank byte }
{
    matches!(byte, b'\t' | b'\x0b' | b'\x0c' | b'\r' | b' ')
}

/// The line without its comment: what stands before the first `#`.
pub fn without_comment(line: &[u8]) -> &[u8]
    ensures { result.now ≡ without_comment line.now }
{
    match line.find_byte(b'#') {
        Some(end) => &line[..end],
        None => line,
    }
}

/// The line without the blanks at its end.
fn trimmed(line: &[u8]) -> &[u8]
    ensures { result.now ≡ trimmed line.now }
{
    let mut end = line.len();
    while end > 0 && is_blank(line[end - 1]) {
        end -= 1;
    }
    &line[..end]
}

/// A physical line without its comment and without the blanks at its end.
pub fn bare(line: &[u8]) -> &[u8]
    ensures { result.now ≡ bare line.now }
{
    trimmed(without_comment(line))
}

/// What stands before the `\` at the end of a line, where there is one.
pub fn before_backslash(line: &[u8]) -> Option<&[u8]>
    ensures { option_map (λ front. front.now) result ≡ before_backslash line.now }
{
    line.strip_suffix(b"\\")
}
