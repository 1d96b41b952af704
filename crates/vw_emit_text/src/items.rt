//! The items of nodes, as they stand in the text.
ghost use Rattle.std.specs.Prelude.{◌≡◌, ◌++◌, ◌∷◌, [], true, OnOk};
ghost use Rattle.vw_emit_hardware.specs.Locals.{register, table};
ghost use Rattle.vw_emit_hardware.specs.Tables.{both, both_or, choice, pass};
ghost use Rattle.vw_emit_text.specs.Steps.{item_of, item_text, local_of, three_names};

use crate::names::{Name, push_name};
use crate::rows::start_word;
use std::alloc::AllocError;
use vw_net::Init;

/// An item of a node: one of four tables, whose last name is what it drives, or a register.
#[derive(Clone, Copy)]
pub enum Item {
    /// The bit itself.
    Pass(Name, Name),
    /// Both of two bits.
    Both(Name, Name, Name),
    /// Where the first bit is 1 the second, else the third.
    Choice(Name, Name, Name, Name),
    /// Both of the first two bits, or the third.
    BothOr(Name, Name, Name, Name),
    /// What the first net had a microclock before, which the second one has.
    Register(Name, Name, Init),
}

/// Appends a table that passes a bit on.
fn push_pass(text: &mut Vec<u8>, from: Name, out: Name) -> Result<(), AllocError>
    ensures { OnOk result (text.new.items
        ≡ text.old.items ++ item_text (table (local_of from ∷ []) (local_of out) true pass)) }
{
    text.extend_from_slice(b".names")?;
    push_name(text, b' ', from)?;
    push_name(text, b' ', out)?;
    text.extend_from_slice(b"\n1 1\n")?;
    Ok(())
}

/// Appends a table of both of two bits.
fn push_both(text: &mut Vec<u8>, one: Name, other: Name, out: Name) -> Result<(), AllocError>
    ensures { OnOk result (text.new.items
        ≡ text.old.items ++ item_text (table (local_of one ∷ local_of other ∷ []) (local_of out) true both)) }
{
    text.extend_from_slice(b".names")?;
    push_name(text, b' ', one)?;
    push_name(text, b' ', other)?;
    push_name(text, b' ', out)?;
    text.extend_from_slice(b"\n11 1\n")?;
    Ok(())
}

/// Appends the first line of a table with three inputs.
fn push_three_names(
    text: &mut Vec<u8>,
    one: Name,
    other: Name,
    third: Name,
    out: Name,
) -> Result<(), AllocError>
    ensures { OnOk result (text.new.items ≡ text.old.items
        ++ three_names (local_of one) (local_of other) (local_of third) (local_of out)) }
{
    text.extend_from_slice(b".names")?;
    push_name(text, b' ', one)?;
    push_name(text, b' ', other)?;
    push_name(text, b' ', third)?;
    push_name(text, b' ', out)?;
    Ok(())
}

/// Appends a table that chooses between two bits.
fn push_choice(
    text: &mut Vec<u8>,
    test: Name,
    one: Name,
    other: Name,
    out: Name,
) -> Result<(), AllocError>
    ensures { OnOk result (text.new.items ≡ text.old.items
        ++ item_text (table (local_of test ∷ local_of one ∷ local_of other ∷ []) (local_of out) true choice)) }
{
    push_three_names(text, test, one, other, out)?;
    text.extend_from_slice(b"\n11- 1\n0-1 1\n")?;
    Ok(())
}

/// Appends a table of both of two bits, or a third.
fn push_both_or(
    text: &mut Vec<u8>,
    one: Name,
    other: Name,
    third: Name,
    out: Name,
) -> Result<(), AllocError>
    ensures { OnOk result (text.new.items ≡ text.old.items
        ++ item_text (table (local_of one ∷ local_of other ∷ local_of third ∷ []) (local_of out) true both_or)) }
{
    push_three_names(text, one, other, third, out)?;
    text.extend_from_slice(b"\n11- 1\n--1 1\n")?;
    Ok(())
}

/// Appends a register.
fn push_register(text: &mut Vec<u8>, next: Name, own: Name, init: Init) -> Result<(), AllocError>
    ensures { OnOk result (text.new.items
        ≡ text.old.items ++ item_text (register (local_of next) (local_of own) init)) }
{
    text.extend_from_slice(b".latch")?;
    push_name(text, b' ', next)?;
    push_name(text, b' ', own)?;
    text.push(b' ')?;
    text.extend_from_slice(start_word(init))?;
    text.push(b'\n')?;
    Ok(())
}

/// Appends the lines of an item.
pub(crate) fn push_item(text: &mut Vec<u8>, item: Item) -> Result<(), AllocError>
    ensures { OnOk result (text.new.items ≡ text.old.items ++ item_text (item_of item)) }
{
    match item {
        Item::Pass(from, out) => push_pass(text, from, out),
        Item::Both(one, other, out) => push_both(text, one, other, out),
        Item::Choice(test, one, other, out) => push_choice(text, test, one, other, out),
        Item::BothOr(one, other, third, out) => push_both_or(text, one, other, third, out),
        Item::Register(next, own, init) => push_register(text, next, own, init),
    }
}
