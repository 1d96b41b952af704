//! How many links walks need, worked out link by link: from the nodes from which walks of some number of links lead to a
//! node follow those from which walks of one link more do.
ghost use Rattle.std.specs.Prelude.{◌≡◌, ◌≤◌, ◌<◌, ◌+◌, ◌&&◌, ◌==◌, ℕ, false, length, slice_index_or, IfOk};
ghost use Rattle.std.specs.List.{All, list_any};
ghost use Rattle.vw_board.specs.Steps.Tables.{AreNodeLinks, IsOneLinkMore, Notes, HaveLeast, AreLeast};

use std::alloc::{AllocError, Global};
use vw_net::Sequence;
use vw_plan::Link;

/// For each node, whether a link leads from it to one of these nodes.
fn one_link_more(alloc: Global, links: &[Link], nodes: &[bool]) -> Result<Vec<bool>, AllocError>
    requires { AreNodeLinks (length nodes.now) links.now }
    ensures { IfOk result (λ more. IsOneLinkMore links.now nodes.now more.items) }
{
    let mut more = vec![in alloc; false; nodes.len()]?;
    for link in links {
        if nodes[link.to() as usize] {
            more[link.from() as usize] = true;
        }
    }
    Ok(more)
}

/// Notes a number of links at each of these nodes that has none yet.
fn note(least: &mut [Option<u32>], nodes: &[bool], count: u32)
    requires { length least.old ≡ length nodes.now }
    ensures { Notes least.old nodes.now count least.new }
{
    for (node, links) in least.iter_mut().enumerate() {
        if nodes[node] && links.is_none() {
            *links = Some(count);
        }
    }
}

/// For each node, the least number of links of a walk from it to a node, where there is a walk. Walks of as many links
/// as there are chips are enough, since a shortest walk goes through no node twice.
fn least_links_to(
    alloc: Global,
    chips: u32,
    links: &[Link],
    to: u32,
) -> Result<Vec<Option<u32>>, AllocError>
    requires few { chips ≤ 32 }
    requires to { to ≤ chips }
    requires ends { AreNodeLinks (chips + 1) links.now }
    ensures { IfOk result (λ least. HaveLeast links.now (chips + 1) (chips + 1) to least.items) }
{
    let count = chips as usize + 1;
    let mut nodes = vec![in alloc; false; count]?;
    nodes[to as usize] = true;
    let mut least = vec![in alloc; None; count]?;
    for links_so_far in 0..chips + 1 {
        note(&mut least, &nodes, links_so_far);
        nodes = one_link_more(alloc, links, &nodes)?;
    }
    Ok(least)
}

/// The same for each node that is led to.
pub fn least_links(
    alloc: Global,
    chips: u32,
    links: &[Link],
) -> Result<Vec<Sequence<Option<u32>>>, AllocError>
    requires few { chips ≤ 32 }
    requires ends { AreNodeLinks (chips + 1) links.now }
    ensures { IfOk result (λ lists. AreLeast links.now (chips + 1) lists.items) }
{
    let mut lists = Vec::new(alloc);
    for to in 0..chips + 1 {
        lists.push(Sequence::of(least_links_to(alloc, chips, links, to)?))?;
    }
    Ok(lists)
}
