//! Gates by their truth tables. All gates of a node have room for the same number of reads, so that a loop over them needs no
//! length.
ghost use Rattle.std.specs.Prelude.{◌≡◌, ◌≤◌, map, IfOk};
ghost use Rattle.std.specs.Bool.{OnTrue};
ghost use Rattle.std.specs.List.{All};
ghost use Rattle.vw_prog.specs.SeenGates.{AreNarrowed, narrow_gate};

use std::alloc::{AllocError, Global};

/// A gate of at most six inputs, as it is made.
#[derive(Clone, Copy)]
pub struct PaddedGate {
    /// The slots of its inputs. Where it has fewer than six, further slots that there are follow.
    pub reads: [u32; 6],
    /// How many inputs it has.
    pub inputs: u32,
    /// Its truth table, over six inputs.
    pub truth_table: u64,
}

/// A gate of at most `N` inputs, which are at most six.
#[derive(Drop)]
pub struct TableGate<const N: usize> {
    /// The slots of its inputs. Where it has fewer than `N`, further slots that there are follow.
    pub reads: [u32; N],
    /// Its truth table, which repeats itself over the inputs that it hasn't.
    pub truth_table: u64,
}

/// The gates of a node that have at most six inputs, in order, all with room for two reads, or for four, or for six.
pub enum Gates {
    Two(Vec<TableGate<2>>),
    Four(Vec<TableGate<4>>),
    Six(Vec<TableGate<6>>),
}

impl Drop for Gates {
    fn drop(self) {
        match self {
            Gates::Two(_) => {}
            Gates::Four(_) => {}
            Gates::Six(_) => {}
        }
    }
}

/// A gate with its first reads.
fn narrow_gate<const N: usize>(gate: &PaddedGate) -> TableGate<N>
    requires { N ≤ 6 }
    ensures { result ≡ narrow_gate N gate.now }
{
    let mut reads = [0; N];
    reads[..N].copy_from_slice(&gate.reads[..N]);
    TableGate {
        reads,
        truth_table: gate.truth_table,
    }
}

/// Gates with their first reads.
fn narrow_gates<const N: usize>(
    alloc: Global,
    gates: &[PaddedGate],
) -> Result<Vec<TableGate<N>>, AllocError>
    requires { N ≤ 6 }
    ensures { IfOk result (λ list. list.items ≡ map (narrow_gate N) gates.now) }
{
    let mut list = Vec::new(alloc);
    for gate in gates {
        list.push(narrow_gate(gate))?;
    }
    Ok(list)
}

/// Whether all gates have at most so many inputs.
fn are_within(gates: &[PaddedGate], room: u32) -> bool
    ensures { OnTrue result (All (λ gate. gate.inputs ≤ room) gates.now) }
{
    for gate in gates {
        if gate.inputs > room {
            return false;
        }
    }
    true
}

/// The gates of a node, with as little room as the widest of them needs.
pub fn gates_of(alloc: Global, gates: &[PaddedGate]) -> Result<Gates, AllocError>
    ensures { IfOk result (λ made. AreNarrowed gates.now made) }
{
    if are_within(gates, 2) {
        return Ok(Gates::Two(narrow_gates(alloc, gates)?));
    }
    if are_within(gates, 4) {
        return Ok(Gates::Four(narrow_gates(alloc, gates)?));
    }
    Ok(Gates::Six(narrow_gates(alloc, gates)?))
}
