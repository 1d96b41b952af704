ghost use Rattle.std.specs.Prelude.{◌≡◌, ◌+◌, ◌<◌, ◌^◌, length};
ghost use Rattle.std.specs.List.{All};

use crate::pairs::PairTable;
use vw_net::Ordered;

/// What is known of when nets are at nodes, while a plan is made or checked.
#[derive(Drop)]
pub struct LeadTable<'a> {
    /// The netlist, with the order of its gates.
    pub ordered: &'a Ordered,
    /// The chip of each cell.
    pub chip_of: &'a [u32],
    /// How many microcycles a gate's value takes to settle on its chip.
    pub settle: u32,
    /// The place of each pair of a net and a node to which the net is brought.
    pub places: &'a PairTable,
    /// One past the arrival of each of these pairs, by its place.
    pub arrivals: &'a [u64],
    /// The lead of each net at its own node.
    pub leads: &'a [u64],
    ghost each: { length chip_of.now ≡ length ordered.now.flat.cells },
    ghost nets: { length leads.now ≡ ordered.now.flat.inputs + length ordered.now.flat.cells },
    ghost early: { All (λ microcycle. microcycle < 2 ^ 63) arrivals.now },
    ghost low: { All (λ lead. lead < 2 ^ 63) leads.now },
}
