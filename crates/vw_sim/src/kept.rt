//! Gates whose tables have at most six inputs, each with room for the same number of nets, so that a loop over them needs no
//! length.
ghost use Rattle.std.specs.Prelude.{◌≡◌, ◌<◌, ◌≤◌, ◌-◌, length, take, drop, Some, IfOk};
ghost use Rattle.std.specs.List.{All};
ghost use Rattle.vw_net.specs.TruthTable.{bit_of, place_of};
ghost use Rattle.vw_sim.specs.Steps.Values.{bits_at};
ghost use Rattle.vw_sim.specs.Steps.Tables.{IsWithin, kept_reads, table_step, table_steps, with_steps};

use std::alloc::{AllocError, Global};
use vw_net::{Bits, Cell, Ordered, bit_of};

/// A gate with room for `N` nets, at most six.
#[derive(Drop)]
pub struct TableStep<const N: usize> {
    /// The nets that it reads, and net 0 in the places behind them; where it reads more than `N`, net 0 everywhere.
    reads: [u32; N],
    /// Its own net.
    net: u32,
    /// Its truth table, which repeats itself over the inputs that it hasn't.
    truth_table: u64,
}

/// These nets where there is room for them, and net 0 in each place that is left.
fn kept_reads<const N: usize>(nets: &[u32]) -> [u32; N]
    ensures { result ≡ kept_reads N nets.now }
{
    let mut reads = [0; N];
    if nets.len() <= N {
        reads[..nets.len()].copy_from_slice(nets);
    }
    reads
}

/// How the cell that drives a net is kept. Only a gate that reads at most `N` nets is worked out by this.
fn table_step<const N: usize>(net: u32, cell: &Cell) -> TableStep<N>
    ensures { result ≡ table_step N net (Some cell.now) }
{
    match cell {
        Cell::Gate { ins, cover } => TableStep {
            reads: kept_reads(ins.as_slice()),
            net,
            truth_table: cover.truth_table(),
        },
        Cell::Latch { .. } => TableStep {
            reads: [0; N],
            net,
            truth_table: 0,
        },
    }
}

/// The gates of a netlist, in order. It takes 12 bytes a gate, and 4 for each net that there is room for.
pub fn table_steps<const N: usize>(
    alloc: Global,
    ordered: &Ordered,
) -> Result<Vec<TableStep<N>>, AllocError>
    ensures { IfOk result (λ steps. steps.items
        ≡ table_steps N ordered.now.flat.inputs ordered.now.flat.cells ordered.now.order) }
{
    let flat = ordered.flat();
    let first = flat.inputs();
    let cells = flat.cells();
    let mut steps = Vec::new(alloc);
    for number in ordered.order() {
        let step = table_step(first + *number, &cells[*number as usize]);
        steps.push(step)?;
    }
    Ok(steps)
}

/// Works out the gates from one place of the order up to another.
pub fn run_part<const N: usize>(steps: &[TableStep<N>], first: usize, end: usize, values: &mut Bits)
    requires room { N ≤ 6 }
    requires first { first ≤ end }
    requires end { end ≤ length steps.now }
    requires within { All (IsWithin N (length values.old)) steps.now }
    ensures { values.new ≡ with_steps N (take (end - first) (drop first steps.now)) values.old }
{
    run_all(&steps[first..end], values);
}

/// Works out gates, one after the other.
fn run_all<const N: usize>(steps: &[TableStep<N>], values: &mut Bits)
    requires room { N ≤ 6 }
    requires within { All (IsWithin N (length values.old)) steps.now }
    ensures { values.new ≡ with_steps N steps.now values.old }
{
    for step in steps {
        let bit = bit_of(step.truth_table, place_at(&step.reads, values));
        values.set(step.net as usize, bit);
    }
}

/// The place of the values of some nets in the truth table of a gate that reads them.
fn place_at(nets: &[u32], values: &Bits) -> u32
    requires few { length nets.now ≤ 6 }
    requires within { All (λ net. net < length values.now) nets.now }
    ensures place { result ≡ place_of (bits_at values.now nets.now) }
    ensures below { result < 64 }
{
    let all = values.as_slice();
    let mut place = 0;
    for i in (0..nets.len()).rev() {
        place = place * 2 + all[nets[i] as usize] as u32;
    }
    place
}
