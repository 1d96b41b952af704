//! The lines of clocks.
ghost use Rattle.std.specs.Prelude.{◌≡◌, ◌<◌, ◌++◌, ◌^◌, ◌∷◌, [], length, if◌then◌else◌, None, OnOk, Some};
ghost use Rattle.vw_text.specs.Physical.{lines_text};
ghost use Rattle.vw_vcd.specs.Lines.{lines_of_clock, time_line};

use crate::changes::{has_change, push_changes, push_values};
use std::alloc::AllocError;
use vw_text::push_number;

/// Appends the line of a time.
pub(crate) fn push_time(text: &mut Vec<u8>, clock: u64) -> Result<(), AllocError>
    ensures { OnOk result (text.new.items ≡ text.old.items ++ (time_line clock ++ 10 ∷ [])) }
{
    text.push(b'#')?;
    push_number(text, clock)?;
    text.push(b'\n')?;
    Ok(())
}

/// Appends the lines of the first clock of a wave, with all values.
fn push_first(text: &mut Vec<u8>, clock: u64, bits: &[bool]) -> Result<(), AllocError>
    requires { length bits.now < 2 ^ 32 }
    ensures { OnOk result (text.new.items
        ≡ text.old.items ++ lines_text (lines_of_clock clock None bits.now)) }
{
    push_time(text, clock)?;
    text.extend_from_slice(b"$dumpvars\n")?;
    push_values(text, bits)?;
    text.extend_from_slice(b"$end\n")?;
    Ok(())
}

/// Appends the lines of a later clock, with the values that differ from those before. Where none does it has no line.
fn push_later(
    text: &mut Vec<u8>,
    clock: u64,
    before: &[bool],
    bits: &[bool],
) -> Result<(), AllocError>
    requires same { length before.now ≡ length bits.now }
    requires few { length bits.now < 2 ^ 32 }
    ensures { OnOk result (text.new.items
        ≡ text.old.items ++ lines_text (lines_of_clock clock (Some before.now) bits.now)) }
{
    if has_change(before, bits) {
        push_time(text, clock)?;
        push_changes(text, before, bits)?;
    }
    Ok(())
}

/// Appends the lines of a clock. Where the wave has begun, a clock with the values before came before it.
pub(crate) fn push_clock(
    text: &mut Vec<u8>,
    clock: u64,
    begun: bool,
    before: &[bool],
    bits: &[bool],
) -> Result<(), AllocError>
    requires same { length before.now ≡ length bits.now }
    requires few { length bits.now < 2 ^ 32 }
    ensures { OnOk result (text.new.items ≡ text.old.items
        ++ lines_text (lines_of_clock clock (if begun then Some before.now else None) bits.now)) }
{
    if begun {
        push_later(text, clock, before, bits)
    } else {
        push_first(text, clock, bits)
    }
}
