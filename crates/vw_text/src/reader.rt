ghost use Rattle.std.specs.Prelude.{◌≡◌, ◌+◌, ◌<◌, ◌^◌, length, IfOk, OnErr};
ghost use Rattle.vw_text.specs.WordLines.{word_lines};

use crate::bare::{bare, before_backslash};
use crate::line::Line;
use crate::physical::first_line;
use crate::words::{joined_words, words_of};
use std::alloc::{AllocError, Global};
use vw_net::Sequence;

/// A text that is read one logical line after the other.
#[derive(Drop)]
pub struct LineReader<'a> {
    /// What wasn't read yet: whole physical lines.
    pub rest: &'a [u8],
    /// The number of the first of them, from 1.
    pub number: u64,
    ghost counted: { number + length rest.now < 2 ^ 64 },
}

impl<'a> LineReader<'a> {
    ghost use Rattle.vw_text.specs.Reading.{lines_left, ReadsNext};

    /// A text of which nothing was read. It takes no memory.
    pub fn new(text: &'a [u8]) -> Self
        ensures { lines_left result ≡ word_lines text.now }
    {
        LineReader {
            rest: text,
            number: 1,
        }
    }

    /// The next logical line with words; nothing where none is left, and then none comes later either. It takes
    /// memory for its words; where there is none, no line is lost.
    ///
    /// A `#` begins a comment to the end of a physical line. Then the blanks at the end are taken off (bytes 9, 11,
    /// 12, 13 and 32). A line that then ends with `\` goes on with the next one. Words are separated by blanks.
    pub fn next_line(&mut self, alloc: Global) -> Result<Option<Line>, AllocError>
        ensures read { IfOk result (λ line. ReadsNext self.old line self.new) }
        ensures kept { OnErr result (lines_left self.new ≡ lines_left self.old) }
    {
        if self.rest.is_empty() {
            return Ok(None);
        }
        // the bytes so far of a logical line, and its number
        let mut front = Vec::new(alloc);
        let mut number = self.number;
        let mut next = self.number;
        let mut rest = self.rest;
        while !rest.is_empty() {
            let (line, after) = first_line(rest);
            let line = bare(line);
            rest = after;
            next += 1;
            if let Some(part) = before_backslash(line) {
                front.extend_from_slice(part)?;
            } else {
                let words = joined_words(alloc, &mut front, line)?;
                if !words.is_empty() {
                    self.rest = rest;
                    self.number = next;
                    return Ok(Some(Line::make(number, Sequence::of(words))));
                }
                number = next;
            }
        }
        let words = words_of(alloc, &front)?;
        self.rest = rest;
        self.number = next;
        if words.is_empty() {
            return Ok(None);
        }
        Ok(Some(Line::make(number, Sequence::of(words))))
    }
}

/// The logical lines with words of a text, in order. It takes memory for the words, and for one line.
pub fn lines(alloc: Global, bytes: &[u8]) -> Result<Vec<Line>, AllocError>
    ensures { IfOk result (λ lines. lines.items ≡ word_lines bytes.now) }
{
    let mut lines = Vec::new(alloc);
    let mut reader = LineReader::new(bytes);
    while let Some(line) = reader.next_line(alloc)? {
        lines.push(line)?;
    }
    Ok(lines)
}
