//! Nodes with no walk between them.
ghost use Rattle.std.specs.Prelude.{◌≡◌, ◌≤◌, ◌<◌, ◌+◌, length, IfNone, IfSome};
ghost use Rattle.std.specs.List.{All};
ghost use Rattle.vw_board.specs.Steps.NotedPairs.{AreAllThere, AreAllFrom, IsFirstTo, IsFirstPair};

use vw_net::Sequence;

/// The first node to which nothing is noted from a node.
fn first_to(lists: &[Sequence<Option<u32>>], from: usize) -> Option<u32>
    requires few { length lists.now ≤ 33 }
    requires there { All (λ list. from < length list) lists.now }
    ensures none { IfNone result (AreAllFrom lists.now from (length lists.now)) }
    ensures first { IfSome result (IsFirstTo lists.now from) }
{
    for (to, list) in lists.iter().enumerate() {
        if list.as_slice()[from].is_none() {
            return Some(to as u32);
        }
    }
    None
}

/// The first pair of nodes for which nothing is noted, by the first of them, then by the second.
pub fn first_apart(lists: &[Sequence<Option<u32>>]) -> Option<(u32, u32)>
    requires few { length lists.now ≤ 33 }
    requires there { All (λ list. length list ≡ length lists.now) lists.now }
    ensures none { IfNone result (AreAllThere lists.now (length lists.now)) }
    ensures first { IfSome result (λ pair. IsFirstPair lists.now pair.0 pair.1) }
{
    for from in 0..lists.len() {
        if let Some(to) = first_to(lists, from) {
            return Some((from as u32, to));
        }
    }
    None
}
