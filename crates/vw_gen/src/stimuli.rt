//! Generated stimuli.
ghost use Rattle.std.specs.Prelude.{◌≡◌, ◌≤◌, ◌++◌, ◌∷◌, [], IfOk, OnOk};
ghost use Rattle.vw_gen.specs.Draws.{drawn_state};
ghost use Rattle.vw_gen.specs.Stimulus.{drawn_bits, stimulus_text};

use crate::draws::Draws;
use std::alloc::{AllocError, Global};

/// Appends a row of eight bits.
fn push_row(text: &mut Vec<u8>, draws: &mut Draws) -> Result<(), AllocError>
    ensures text { OnOk result (text.new.items
        ≡ text.old.items ++ (drawn_bits draws.old 0 ++ 10 ∷ [])) }
    ensures draws { OnOk result (draws.new ≡ drawn_state draws.old 8) }
{
    for _column in 0..8u32 {
        text.push(b'0' + draws.draw(2) as u8)?;
    }
    text.push(b'\n')?;
    Ok(())
}

/// The text of a stimulus for the design of `n` cells: 300 rows of eight bits. It takes memory for the text, and nothing
/// but want of memory is an error.
pub fn stimulus(alloc: Global, n: u32) -> Result<Vec<u8>, AllocError>
    requires some { 1 ≤ n }
    requires few { n ≤ 20000 }
    ensures { IfOk result (λ text. text.items ≡ stimulus_text n) }
{
    let mut draws = Draws::start(n + 1);
    let mut text = Vec::new(alloc);
    for _row in 0..300u32 {
        push_row(&mut text, &mut draws)?;
    }
    Ok(text)
}
