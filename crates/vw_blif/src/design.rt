//! Whole design texts.
ghost use Rattle.std.specs.Prelude.{◌≡◌, true, map, IfOk, IfErr, Ok, Err};
ghost use Rattle.vw_blif.specs.Spelled.{spelled_model};
ghost use Rattle.vw_blif.specs.Read.{design_of, is_text_fault};

use crate::fault::TextFault;
use crate::reader::Reader;
use bumpalo::Bump;
use std::alloc::Global;
use vw_design::Design;
use vw_net::Sequence;
use vw_text::{LineReader, MOST_DESIGN_BYTES};

/// Reads the design that a text spells, or says what is wrong with the text: the fault of the first line at fault.
pub fn read(alloc: Global, text: &[u8]) -> Result<Design, TextFault>
    ensures design { IfOk result
        (λ design. design_of text.now ≡ Ok (map spelled_model design.models)) }
    ensures fault { IfErr result
        (λ fault. is_text_fault fault ≡ true → design_of text.now ≡ Err fault) }
{
    if text.len() > MOST_DESIGN_BYTES {
        return Err(TextFault::TooLarge);
    }
    // the words that are looked for again
    let arena = Bump::new(alloc);
    let mut lines = LineReader::new(text);
    let mut reader = Reader::new(alloc)?;
    while let Some(line) = lines.next_line(alloc)? {
        reader = reader.read_line(alloc, &arena, &line)?;
    }
    let models = reader.finish(alloc)?;
    if models.is_empty() {
        return Err(TextFault::NoModel(0));
    }
    Ok(Design::make(Sequence::of(models)))
}
