//! Texts in memory that every read finds.
ghost use Rattle.std.specs.Prelude.{◌≡◌};
ghost use Rattle.vw_outside.specs.Sure.{sure_text};

use crate::memory_shelf::fill;
use crate::name::Name;
use crate::shelf::Shelf;
use crate::sink::Failed;

/// Texts in memory under their names; every other name has an empty text. No read of it fails, and it counts no fault.
#[derive(Drop)]
pub struct SureShelf {
    pub files: Vec<(Name, Vec<u8>)>,
}

impl SureShelf {
    /// A shelf of these texts; of equal names the first counts. It takes no memory.
    pub fn new(files: Vec<(Name, Vec<u8>)>) -> Self
        ensures { result.files.items ≡ files.items }
    {
        SureShelf { files }
    }
}

/// The first text of a name, or the empty text.
fn text_of<'a>(files: &'a [(Name, Vec<u8>)], name: &[u8]) -> &'a [u8]
    ensures { result.now ≡ sure_text files.now name.now }
{
    for file in files {
        if file.0.is(name) {
            return file.1.as_slice();
        }
    }
    &[]
}

impl Shelf for SureShelf {
    ghost use Rattle.std.specs.Prelude.{IsOk};
    ghost use Rattle.vw_outside.specs.Reads.{ReadEnds};
    ghost use Rattle.vw_outside.specs.Sure.{seen_sure};

    ghost seen = { λ shelf. seen_sure shelf.files.items };

    fn read(&mut self, name: &Name, from: u64, into: &mut [u8]) -> Result<usize, Failed>
        ensures reads { ReadEnds name.now from into.new (seen_sure self.old.files.items)
            (seen_sure self.new.files.items) result }
        ensures sure { IsOk result }
    {
        Ok(fill(text_of(&self.files, name.as_slice()), from, u32::MAX, into))
    }
}
