ghost use Rattle.std.specs.Prelude.{◌≡◌, ◌≤◌, [], length, IfOk};

use crate::boards::board;
use std::alloc::{AllocError, Global};
use std::process::Abort;
use std::test::Fail;
use vw_slots::SlotTable;

/// Two pins lead from the host to the chip, and one back.
const BOARD: &[u8] = b"board 1\nchips 1\ncells 1\nsettle 0\npins 3\nlink 0 1 2\nlink 1 0 1\n";

/// A link and the earliest microcycle, and the pin and the microcycle that are taken.
type SlotCase = (u32, u64, u32, u64);

/// A table of that board with so much room.
fn table_of(alloc: Global, room: u64) -> Result<SlotTable, Fail>
    ensures links { IfOk result (λ table. length table.widths ≡ 2) }
    ensures room { IfOk result (λ table. room ≤ table.spare) }
    ensures none { IfOk result (λ table. table.taken ≡ []) }
{
    let board = board(alloc, BOARD)?;
    if board.links().len() != 2 {
        return Err("another board".into());
    }
    let mut table = SlotTable::make(alloc, &board)?;
    table.reserve(room)?;
    Ok(table)
}

/// Takes slots in an empty table, and asserts what each row says.
fn take(rt: &impl Abort, table: &mut SlotTable, rows: &[SlotCase])
    requires links { length table.old.widths ≡ 2 }
    requires room { length rows.now ≤ table.old.spare }
    requires none { table.old.taken ≡ [] }
    requires few { length rows.now ≤ 1000000 }
{
    for (link, not_before, pin, at) in rows {
        assert!(rt; *link < 2 && *not_before <= 1 << 61);
        let slot = table.take_first(*link, *not_before);
        assert!(rt; slot.pin() == *pin && slot.at() == *at);
    }
    assert!(rt; table.taken().len() == rows.len());
}

/// Whether a table refuses room for 2 ^ 62 more slots.
fn refuses(table: &mut SlotTable) -> bool {
    table.reserve(1 << 62).is_err()
}

/// Takes slots in a table of that board with so much room. Asserts what each row says, and that the table then refuses room
/// for 2 ^ 62 more slots.
fn are_taken(rt: &impl Abort, alloc: Global, room: u64, rows: &[SlotCase]) -> Result<(), Fail> {
    let mut table = table_of(alloc, room)?;
    assert!(rt; rows.len() as u64 <= room && rows.len() <= 1_000_000);
    take(rt, &mut table, rows);
    assert!(rt; refuses(&mut table));
    Ok(())
}

const FREE: &[SlotCase] = &[
    (0, 0, 0, 0),
    (0, 0, 1, 0),
    (0, 0, 0, 1),
    (1, 0, 0, 0),
    (1, 0, 0, 1),
    (0, 5, 0, 5),
    (1, 1, 0, 2),
    (0, 1, 1, 1),
    (0, 0, 0, 2),
    (0, 1 << 61, 0, 1 << 61),
    (1, 1 << 61, 0, 1 << 61),
];

#[test]
fn the_earliest_free_pin_is_taken(rt: HostRuntime) -> Result<(), Fail> {
    are_taken(&rt, rt.alloc(), 11, FREE)
}

/// Rows that fill the one pin of the second link from the first microcycle on.
fn rows_from_front(alloc: Global) -> Result<Vec<SlotCase>, AllocError> {
    let mut rows = Vec::new(alloc);
    for count in 0..200_000u64 {
        rows.push((1, 0, 0, count))?;
    }
    Ok(rows)
}

#[test]
fn a_full_link_is_quick(rt: HostRuntime) -> Result<(), Fail> {
    let rows = rows_from_front(rt.alloc())?;
    are_taken(&rt, rt.alloc(), 200_000, &rows)
}

/// Rows that fill microcycles 99,999 down to 0 of that pin, and then 100,000 and on.
fn rows_from_behind(alloc: Global) -> Result<Vec<SlotCase>, AllocError> {
    let mut rows = Vec::new(alloc);
    for count in 0..100_000u64 {
        rows.push((1, 99_999 - count, 0, 99_999 - count))?;
    }
    for count in 100_000..200_000u64 {
        rows.push((1, count % 1000, 0, count))?;
    }
    Ok(rows)
}

#[test]
fn a_link_that_fills_from_behind_is_quick(rt: HostRuntime) -> Result<(), Fail> {
    let rows = rows_from_behind(rt.alloc())?;
    are_taken(&rt, rt.alloc(), 200_000, &rows)
}

#[test]
fn too_much_room_is_refused(rt: HostRuntime) -> Result<(), Fail> {
    are_taken(&rt, rt.alloc(), 2, &[(1, 7, 0, 7)])
}
