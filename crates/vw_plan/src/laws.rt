//! Laws of the definitions, as contracts of functions that do nothing.
ghost use Rattle.std.specs.Prelude.{◌≡◌, ◌==◌, ◌≤◌, ◌<◌, ◌+◌, ◌⊎◌, ℕ, List, Some, length, count_by, slice_get, slice_index, IsTrue, if◌then◌else◌};
ghost use Rattle.std.specs.List.{AllPairs, list_any};
ghost use Rattle.vw_net.specs.Cells.{read_nets};
ghost use Rattle.vw_net.specs.Order.{is_among};
ghost use Rattle.vw_net.specs.declared.cell.Cell.{Cell};
ghost use Rattle.vw_net.specs.declared.flat.Flat.{Flat};
ghost use Rattle.vw_net.specs.declared.ordered.Ordered.{Ordered};
ghost use Rattle.vw_plan.specs.declared.board.Board.{Board};
ghost use Rattle.vw_plan.specs.declared.link.Link.{Link};
ghost use Rattle.vw_plan.specs.declared.wire.Hop.{Hop};
ghost use Rattle.vw_plan.specs.declared.wire.Wire.{Wire};
ghost use Rattle.vw_plan.specs.Links.{HaveSameEnds};
ghost use Rattle.vw_plan.specs.Nets.{driving_cell, greatest_read, is_needed, node_of};
ghost use Rattle.vw_plan.specs.PlannedBoard.{PlannedBoard, home};
ghost use Rattle.vw_plan.specs.Lead.{arrival, brought_at, carries, lead};
ghost use Rattle.vw_plan.specs.Needs.{comes_before, crossing, depth, is_pair, needed_pairs};
ghost use Rattle.vw_plan.specs.ChainsBack.{IsDeepest};
ghost use Rattle.vw_plan.specs.Distance.{IsDistance, distance};
ghost use Rattle.vw_plan.specs.Sound.{IsSound, hops_of, share_pin};
ghost use Rattle.vw_plan.specs.Wiring.{BeginsWire, EndsWire, FollowsHop};

/// The lead of a net at its own node is that of what drives it: 0 for an input or a latch, and for a gate the greatest
/// lead of the nets that it reads. At another node it is one past the arrival by the first wire that brings it.
pub fn leads_follow_drivers()
    ensures { (planned : PlannedBoard) (node net : ℕ)
        → lead planned node net
        ≡ (if home planned net == node
        then greatest_read (lead planned node) (driving_cell planned.ordered.flat net)
        else brought_at planned node net) }
{}

/// On a board, the distance of two nodes is the least number of links of a walk.
pub fn distances_are_least()
    ensures { (board : Board) (from to : ℕ) → from ≤ board.chips → to ≤ board.chips
        → IsDistance board.links from to (distance board from to) }
{}

/// Where there is an order, the depth of a net is that of what drives it: 0 for an input or a latch, and for a gate the
/// greatest depth of the nets that it reads, each with one more where it comes from another node.
pub fn depths_follow_drivers()
    ensures { (ordered : Ordered) (chip_of : List ℕ) (net : ℕ)
        → depth ordered.flat chip_of net
        ≡ greatest_read (λ read. depth ordered.flat chip_of read
        + crossing ordered.flat chip_of net read) (driving_cell ordered.flat net) }
{}

/// No depth is above one more than the number of cells.
pub fn depths_are_small()
    ensures { (flat : Flat) (chip_of : List ℕ) (net : ℕ)
        → depth flat chip_of net ≤ length flat.cells + 1 }
{}

/// Where there is an order, the depth of a net is one more than the greatest depth of the nets of other nodes that come
/// to it over gates of its own node, and 0 where there is no such net.
pub fn depths_are_deepest()
    ensures { (ordered : Ordered) (chip_of : List ℕ) (net : ℕ)
        → IsDeepest ordered.flat chip_of net (depth ordered.flat chip_of net) }
{}

/// A net and a node are listed as a needed pair exactly where the net is needed at the node, and then once. So a net past
/// the last one isn't listed, nor a node past the greatest chip. The pairs come by net and then by node.
pub fn needed_pairs_are_needed()
    ensures listed { (flat : Flat) (chip_of : List ℕ) (net node : ℕ)
        → list_any (is_pair net node) (needed_pairs flat chip_of)
        ≡ is_needed flat chip_of net node }
    ensures once { (flat : Flat) (chip_of : List ℕ) (net node : ℕ)
        → count_by (is_pair net node) (needed_pairs flat chip_of)
        ≡ (if is_needed flat chip_of net node then 1 else 0) }
    ensures rising { (flat : Flat) (chip_of : List ℕ)
        → AllPairs (λ need other. IsTrue (comes_before need other)) (needed_pairs flat chip_of) }
{}

/// The first hop of a wire of a sound plan leaves the net's own node, once the net is usable there. Each later one leaves
/// where the one before it ended, and after its arrival. The last one reaches the wire's node, and with it the net is there.
pub fn hops_go_on()
    ensures first { (planned : PlannedBoard) (number : ℕ) (wire : Wire) (hop : Hop) → IsSound planned
        → slice_get planned.plan.wires number ≡ Some wire → slice_get wire.hops 0 ≡ Some hop
        → BeginsWire planned wire hop }
    ensures next { (planned : PlannedBoard) (number place : ℕ) (wire : Wire) (hop next : Hop)
        → IsSound planned → slice_get planned.plan.wires number ≡ Some wire
        → slice_get wire.hops place ≡ Some hop → slice_get wire.hops (place + 1) ≡ Some next
        → FollowsHop planned hop next }
    ensures last { (planned : PlannedBoard) (number place : ℕ) (wire : Wire) (hop : Hop)
        → IsSound planned → slice_get planned.plan.wires number ≡ Some wire
        → slice_get wire.hops place ≡ Some hop → place + 1 ≡ length wire.hops
        → EndsWire planned wire hop }
{}

/// In a microcycle a pin of a link has one hop of a sound plan at most.
pub fn pins_have_one_user()
    ensures { (planned : PlannedBoard) (hop : Hop) → IsSound planned
        → count_by (share_pin hop) (hops_of planned.plan) ≤ 1 }
{}

/// What a cell reads is a net of its own chip, or a net that is needed there.
pub fn read_nets_are_there()
    ensures { (flat : Flat) (chip_of : List ℕ) (number net : ℕ) (cell : Cell)
        → length chip_of ≡ length flat.cells → slice_get flat.cells number ≡ Some cell
        → IsTrue (is_among (read_nets cell) net)
        → (node_of flat chip_of net ≡ slice_index chip_of number)
        ⊎ IsTrue (is_needed flat chip_of net (slice_index chip_of number)) }
{}

/// A net that is needed somewhere is one of the netlist, so a net past the last isn't needed.
pub fn needed_nets_are_nets()
    ensures { (flat : Flat) (chip_of : List ℕ) (net node : ℕ)
        → IsTrue (is_needed flat chip_of net node) → net < flat.inputs + length flat.cells }
{}

/// No two links of a board have the same ends, so a hop takes as long as the link takes that leads where it goes.
pub fn links_differ()
    ensures once { (board : Board) (one other : ℕ) (link second : Link)
        → slice_get board.links one ≡ Some link → slice_get board.links other ≡ Some second
        → HaveSameEnds link second → one ≡ other }
    ensures delay { (board : Board) (number : ℕ) (link : Link) (hop : Hop)
        → slice_get board.links number ≡ Some link → IsTrue (carries hop link)
        → arrival board.links hop + 1 ≡ hop.at + link.delay }
{}
