ghost use Rattle.std.specs.Prelude.{◌≡◌, IfOk};
ghost use Rattle.vw_blif.specs.declared.fault.TextFault.TheVariants.{Unsupported};
ghost use Rattle.vw_blif.specs.MessageLines.{at_line};
ghost use Rattle.vw_blif.specs.Messages.{fault_text};

use std::alloc::{AllocError, AllocFailed, Global};
use vw_outside::Name;

/// Why a text is no design. Lines are numbered from 1.
#[derive(Drop)]
pub enum TextFault {
    /// The text has more than 16,777,216 bytes.
    TooLarge,
    /// A line stands outside a model; line 0 where the text has no words.
    NoModel(u64),
    /// A line begins with a word that isn't read, and has a point in front.
    Unsupported(u64, Name),
    /// A line has too few or too many words.
    BadWords(u64),
    /// A row has another form than those of its table, or belongs to none.
    BadRow(u64),
    /// A row ends in another digit than the first row of its table.
    MixedRows(u64),
    /// A table has more than 128 inputs.
    TooWide(u64),
    /// The type of a latch is neither `re` nor `fe`.
    BadLatchType(u64),
    /// The initial value of a latch is none of `0`, `1`, `2` and `3`.
    BadInit(u64),
    /// A model has the name of an earlier one.
    DuplicateModel(u64),
    /// A name stands twice in a list of ports of one model.
    DuplicatePort(u64),
    /// A binding has no `=`, an empty side, or a formal that is bound before.
    BadBind(u64),
    NoMemory,
}

impl From<AllocError> for TextFault {
    ghost use Rattle.vw_blif.specs.declared.fault.TextFault.TheVariants.{NoMemory};

    ghost from_gives = { λ _ e. e ≡ NoMemory };

    fn from(_: AllocError) -> Self {
        TextFault::NoMemory
    }
}

impl<T: Drop> From<AllocFailed<T>> for TextFault {
    ghost use Rattle.vw_blif.specs.declared.fault.TextFault.TheVariants.{NoMemory};

    ghost from_gives = { λ _ e. e ≡ NoMemory };

    fn from(_: AllocFailed<T>) -> Self {
        TextFault::NoMemory
    }
}

/// The message of a fault at a line: its number, the line, and what is wrong.
fn at_line(alloc: Global, fault: u32, line: u64, what: &[u8]) -> Result<Vec<u8>, AllocError>
    ensures { IfOk result (λ text. text.items ≡ at_line fault line what.now) }
{
    let mut text = format!(in alloc; "design {fault}: line {line}: ")?.into_bytes();
    text.extend_from_slice(what)?;
    text.push(b'\n')?;
    Ok(text)
}

/// The message of a line that begins with a word that isn't read.
fn of_unsupported(alloc: Global, line: u64, word: &Name) -> Result<Vec<u8>, AllocError>
    ensures { IfOk result (λ text. text.items ≡ fault_text (Unsupported line word.now)) }
{
    let mut what = b"unsupported ".to_vec(alloc)?;
    what.extend_from_slice(word.as_slice())?;
    at_line(alloc, 3, line, &what)
}

impl TextFault {
    /// The message line, with the end of the line.
    pub fn text(&self, alloc: Global) -> Result<Vec<u8>, AllocError>
        ensures { IfOk result (λ line. line.items ≡ fault_text self.now) }
    {
        match self {
            TextFault::TooLarge => b"design 1: text longer than 16777216 bytes\n".to_vec(alloc),
            TextFault::NoModel(line) => at_line(alloc, 2, *line, b"no model"),
            TextFault::Unsupported(line, word) => of_unsupported(alloc, *line, word),
            TextFault::BadWords(line) => at_line(alloc, 4, *line, b"wrong number of words"),
            TextFault::BadRow(line) => at_line(alloc, 5, *line, b"bad row"),
            TextFault::MixedRows(line) => at_line(alloc, 6, *line, b"rows of both kinds"),
            TextFault::TooWide(line) => at_line(alloc, 7, *line, b"more than 128 inputs"),
            TextFault::BadLatchType(line) => at_line(alloc, 8, *line, b"bad latch type"),
            TextFault::BadInit(line) => at_line(alloc, 9, *line, b"bad initial value"),
            TextFault::DuplicateModel(line) => at_line(alloc, 10, *line, b"duplicate model"),
            TextFault::DuplicatePort(line) => at_line(alloc, 11, *line, b"duplicate port"),
            TextFault::BadBind(line) => at_line(alloc, 12, *line, b"bad binding"),
            TextFault::NoMemory => b"out of memory\n".to_vec(alloc),
        }
    }
}
