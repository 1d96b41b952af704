//! The text of a grading.
ghost use Rattle.std.specs.Prelude.{◌≡◌, ◌<◌, ◌≤◌, ◌+◌, ◌*◌, ◌++◌, ◌∷◌, [], length, IfOk, OnOk};
ghost use Rattle.std.specs.List.{All};
ghost use Rattle.vw_net.specs.Cells.{latch_count};
ghost use Rattle.vw_text.specs.Physical.{lines_text};
ghost use Rattle.vw_fault.specs.Shares.{share_text};
ghost use Rattle.vw_fault.specs.Text.{head_line, open_line, open_lines, grading_lines, grading_text};

use crate::open::Open;
use crate::passes::{grade, grade_share};
use crate::share::Share;
use std::alloc::{AllocError, Global};
use std::marker::Sync;
use std::thread::Threads;
use vw_net::{Bits, Ordered, Rows};
use vw_outside::Name;
use vw_text::push_number;

/// Appends the line of the counts.
fn push_head(text: &mut Vec<u8>, faults: u64, detected: u64) -> Result<(), AllocError>
    ensures { OnOk result (text.new.items ≡ text.old.items ++ (head_line faults detected ++ 10 ∷ [])) }
{
    text.extend_from_slice(b"grade 1 ")?;
    push_number(text, faults)?;
    text.push(b' ')?;
    push_number(text, detected)?;
    text.push(b'\n')?;
    Ok(())
}

/// Appends the line of a fault.
fn push_open(text: &mut Vec<u8>, net: &[u8], bit: bool) -> Result<(), AllocError>
    ensures { OnOk result (text.new.items ≡ text.old.items ++ (open_line net.now bit ++ 10 ∷ [])) }
{
    text.extend_from_slice(b"open ")?;
    text.extend_from_slice(net)?;
    if bit {
        text.extend_from_slice(b" 1\n")?;
    } else {
        text.extend_from_slice(b" 0\n")?;
    }
    Ok(())
}

/// Appends the line of each fault.
fn push_all(text: &mut Vec<u8>, names: &[Name], faults: &[Open]) -> Result<(), AllocError>
    requires { All (λ fault. fault.net < length names.now) faults.now }
    ensures { OnOk result (text.new.items
        ≡ text.old.items ++ lines_text (open_lines names.now faults.now)) }
{
    for fault in faults {
        push_open(text, names[fault.net as usize].as_slice(), fault.bit)?;
    }
    Ok(())
}

/// The text of those of so many faults that rows don't reveal: how many faults there are, and how many of them are revealed; a
/// line for each that isn't, with its net as it is printed; and the end. `names` are the printed nets.
pub fn text_of(
    alloc: Global,
    names: &[Name],
    count: u64,
    left: &[Open],
) -> Result<Vec<u8>, AllocError>
    requires named { All (λ fault. fault.net < length names.now) left.now }
    requires few { length left.now ≤ count }
    ensures { IfOk result (λ text. text.items ≡ lines_text (grading_lines names.now count left.now)) }
{
    let mut text = Vec::new(alloc);
    push_head(&mut text, count, count - left.len() as u64)?;
    push_all(&mut text, names, left)?;
    text.extend_from_slice(b"end\n")?;
    Ok(text)
}

/// The text of the grading of a netlist whose nets are printed so, by so many workers at most.
pub fn grading_text<R: Threads + Sync>(
    rt: &R,
    alloc: Global,
    ordered: &Ordered,
    names: &[Name],
    start: &Bits,
    rows: &Rows,
    workers: u32,
) -> Result<Vec<u8>, AllocError>
    requires names { length names.now
        ≡ ordered.now.flat.inputs + length ordered.now.flat.cells }
    requires latches { length start.now ≡ latch_count ordered.now.flat.cells }
    requires columns { All (λ row. length row ≡ ordered.now.flat.inputs) rows.now }
    requires workers { (1 ≤ workers) × (workers ≤ 64) }
    ensures { IfOk result (λ text. text.items
        ≡ grading_text names.now ordered.now.flat start.now rows.now) }
{
    let left = grade(rt, alloc, ordered, start, rows, workers)?;
    text_of(alloc, names, names.len() as u64 * 2, &left)
}

/// The text of the grading of a share of the faults of such a netlist, by so many workers at most.
pub fn share_text<R: Threads + Sync>(
    rt: &R,
    alloc: Global,
    ordered: &Ordered,
    names: &[Name],
    share: Share,
    start: &Bits,
    rows: &Rows,
    workers: u32,
) -> Result<Vec<u8>, AllocError>
    requires names { length names.now
        ≡ ordered.now.flat.inputs + length ordered.now.flat.cells }
    requires latches { length start.now ≡ latch_count ordered.now.flat.cells }
    requires columns { All (λ row. length row ≡ ordered.now.flat.inputs) rows.now }
    requires workers { (1 ≤ workers) × (workers ≤ 64) }
    ensures { IfOk result (λ text. text.items
        ≡ share_text share.number share.shares names.now ordered.now.flat start.now rows.now) }
{
    let graded = grade_share(rt, alloc, ordered, share, start, rows, workers)?;
    text_of(alloc, names, graded.count as u64, &graded.left)
}
