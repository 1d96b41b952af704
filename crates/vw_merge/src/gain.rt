//! Where a merge saves more time than it takes.
ghost use Rattle.std.specs.Prelude.{◌≡◌, IfSome};
ghost use Rattle.vw_merge.specs.Same.{DoesTheSame};

use crate::merge::merged;
use std::alloc::Global;
use vw_net::{Cell, Flat, Ordered, TRUTH_TABLE_INPUTS};

/// From how many clocks on a netlist is merged whose gates have two inputs at most. To merge takes as long as some three to
/// seven thousand clocks save.
const FROM_CLOCKS: u64 = 4_000;

/// From how many clocks on others are merged: less can be saved, or nothing.
const FROM_CLOCKS_OF_TABLES: u64 = 20_000;

/// The tables of a netlist, as a simulator keeps them: so many, all with room for as many nets as the widest needs.
#[derive(Drop)]
struct KeptTables {
    tables: u64,
    room: u64,
}

/// The tables of a netlist. Those that have no truth table need no room.
fn kept_in(flat: &Flat) -> KeptTables {
    let mut tables: u64 = 0;
    let mut widest = 0;
    for cell in flat.cells() {
        if let Cell::Gate { ins, .. } = cell {
            tables = tables.saturating_add(1);
            if ins.len() <= TRUTH_TABLE_INPUTS as usize {
                widest = widest.max(ins.len());
            }
        }
    }
    let room = match widest {
        0..=2 => 2,
        3 | 4 => 4,
        _ => 6,
    };
    KeptTables { tables, room }
}

/// What they cost in a clock, about: two reads for each net that there is room for, and two for the table itself.
fn cost(kept: &KeptTables) -> u64 {
    let each = kept.room.saturating_mul(2).saturating_add(2);
    kept.tables.saturating_mul(each)
}

/// A netlist in the place of another, where it costs less.
fn cheaper(ordered: &Ordered, other: Ordered) -> Option<Ordered>
    ensures { IfSome result (λ kept. kept ≡ other) }
{
    if cost(&kept_in(other.flat())) < cost(&kept_in(ordered.flat())) {
        return Some(other);
    }
    None
}

/// The netlist with fewer tables, where so many clocks take less time with it than without, and there is memory for it.
pub fn merged_for(alloc: Global, ordered: &Ordered, clocks: u64) -> Option<Ordered>
    ensures { IfSome result (λ other. DoesTheSame ordered.now.flat other.flat) }
{
    let from = if kept_in(ordered.flat()).room == 2 {
        FROM_CLOCKS
    } else {
        FROM_CLOCKS_OF_TABLES
    };
    if clocks < from {
        return None;
    }
    match merged(alloc, ordered) {
        Ok(Some(other)) => cheaper(ordered, other),
        _ => None,
    }
}
