//! The nodes and links of a world at work.
ghost use Rattle.std.specs.Prelude.{◌≡◌, ◌<◌, ◌≤◌, ℕ, List, length, map, slice_get, Some};
ghost use Rattle.std.specs.Bool.{OnFalse, OnTrue};
ghost use Rattle.vw_node.specs.declared.node.Node.{Node};
ghost use Rattle.vw_node.specs.Fits.{state_of};
ghost use Rattle.vw_world.specs.Able.{IsAble, IsUnfinished};
ghost use Rattle.vw_world.specs.Boards.{IsBoard, lefts, world_of};
ghost use Rattle.vw_world.specs.Worlds.{happens, played};

use crate::lanes::Lanes;
use vw_node::Node;

/// The next action of a node, where it has one and its link doesn't refuse it.
fn event(nodes: &mut [Node<'_>], lanes: &mut Lanes<'_>, node: u32)
    requires board { IsBoard lanes.old.job nodes.old lanes.old }
    requires node { node < length nodes.old }
    ensures board { IsBoard lanes.old.job nodes.new lanes.new }
    ensures happens { world_of nodes.new lanes.new
        ≡ happens lanes.old.job (world_of nodes.old lanes.old) node }
    ensures count { length nodes.new ≡ length nodes.old }
{
    lanes.turn_to(node);
    let _ = nodes[node as usize].step(lanes);
    lanes.carry_scripts();
}

/// The actions of some events; a number that is no node's does nothing.
pub fn play(nodes: &mut [Node<'_>], lanes: &mut Lanes<'_>, events: &[u32])
    requires board { IsBoard lanes.old.job nodes.old lanes.old }
    ensures board { IsBoard lanes.old.job nodes.new lanes.new }
    ensures played { world_of nodes.new lanes.new
        ≡ played lanes.old.job (world_of nodes.old lanes.old) events.now }
    ensures count { length nodes.new ≡ length nodes.old }
{
    for node in events {
        if (*node as usize) < nodes.len() {
            event(nodes, lanes, *node);
        }
    }
}

/// The actions of a node up to one that its link refuses, or to the end.
fn go_on(nodes: &mut [Node<'_>], lanes: &mut Lanes<'_>, node: u32)
    requires board { IsBoard lanes.old.job nodes.old lanes.old }
    requires node { node < length nodes.old }
    ensures board { IsBoard lanes.old.job nodes.new lanes.new }
    ensures leads { (events : List ℕ) × (world_of nodes.new lanes.new
        ≡ played lanes.old.job (world_of nodes.old lanes.old) events) }
    ensures count { length nodes.new ≡ length nodes.old }

    // No more actions are to come. Where there are as many, nothing has changed, and the node can't act.
    ensures less { lefts lanes.old.job 0 (map state_of nodes.new)
        ≤ lefts lanes.old.job 0 (map state_of nodes.old) }
    ensures still { lefts lanes.old.job 0 (map state_of nodes.new)
        ≡ lefts lanes.old.job 0 (map state_of nodes.old)
        → (world_of nodes.new lanes.new ≡ world_of nodes.old lanes.old)
        × (IsAble lanes.old.job (world_of nodes.old lanes.old) node → ⊥) }
{
    lanes.turn_to(node);
    let _ = nodes[node as usize].go(lanes);
    lanes.carry_scripts();
}

/// Each node goes on, one after the other. As long as one has clocks to come, at least one of them acts, since a world is never
/// stuck.
fn round(nodes: &mut [Node<'_>], lanes: &mut Lanes<'_>)
    requires board { IsBoard lanes.old.job nodes.old lanes.old }
    requires some { (node : ℕ) × IsUnfinished lanes.old.job (world_of nodes.old lanes.old) node }
    ensures board { IsBoard lanes.old.job nodes.new lanes.new }
    ensures leads { (events : List ℕ) × (world_of nodes.new lanes.new
        ≡ played lanes.old.job (world_of nodes.old lanes.old) events) }
    ensures less { lefts lanes.old.job 0 (map state_of nodes.new)
        < lefts lanes.old.job 0 (map state_of nodes.old) }
    ensures count { length nodes.new ≡ length nodes.old }
{
    for node in 0..nodes.len() {
        go_on(nodes, lanes, node as u32);
    }
}

/// Whether all nodes have finished so many clocks.
fn are_done(nodes: &[Node<'_>], clocks: u64) -> bool
    ensures done { OnTrue result ((node : ℕ) (there : Node)
        → slice_get nodes.now node ≡ Some there → there.clock ≡ clocks) }
    ensures rest { OnFalse result ((node : ℕ) × ((there : Node)
        × ((slice_get nodes.now node ≡ Some there) × (there.clock ≡ clocks → ⊥)))) }
{
    for node in nodes {
        if node.clock != clocks {
            return false;
        }
    }
    true
}

/// All actions of so many clocks, by rounds. There are at most as many rounds as actions.
pub fn finish(nodes: &mut [Node<'_>], lanes: &mut Lanes<'_>, clocks: u64)
    requires board { IsBoard lanes.old.job nodes.old lanes.old }
    requires clocks { clocks ≡ length lanes.old.job.rows }
    ensures board { IsBoard lanes.old.job nodes.new lanes.new }
    ensures leads { (events : List ℕ) × (world_of nodes.new lanes.new
        ≡ played lanes.old.job (world_of nodes.old lanes.old) events) }
    ensures done { (node : ℕ) (there : Node) → slice_get nodes.new node ≡ Some there
        → there.clock ≡ clocks }
    ensures count { length nodes.new ≡ length nodes.old }
{
    while !are_done(nodes, clocks) {
        round(nodes, lanes);
    }
}
