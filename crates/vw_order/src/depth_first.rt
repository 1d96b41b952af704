//! A search in depth over numbers that read each other.
ghost use Rattle.std.specs.Prelude.{◌≡◌, ◌<◌, [], IfOk};
ghost use Rattle.vw_order.specs.Graphs.{StaysWithin};
ghost use Rattle.vw_order.specs.SearchResults.{IsFound};
ghost use Rattle.vw_order.specs.Steps.Searches.{IsDepthSearch, IsGoneOn, IsVisited};

use crate::circle::{from_least, round};
use crate::depth::DepthSearch;
use crate::digraph::Digraph;
use std::alloc::{AllocError, Global};

/// What a search finds.
#[derive(Drop)]
pub enum Found {
    /// All numbers that have to be reached and all that they read, each behind those that it reads.
    Order(Vec<u32>),
    /// Numbers of which each reads the next one and the last one the first. None stands twice, and the first is the
    /// least. A number that reads itself stands alone.
    Circle(Vec<u32>),
}

/// Goes on until no number is open, or until there is a circle.
fn go_on<D: Digraph>(
    alloc: Global,
    digraph: &D,
    depth: &mut DepthSearch,
) -> Result<Option<Vec<u32>>, AllocError>
    requires within { StaysWithin (D.graph digraph.now) }
    requires depth { IsDepthSearch (D.graph digraph.now) depth.old }
    ensures { IfOk result (IsGoneOn (D.graph digraph.now) depth.old depth.new) }
{
    while let Some(number) = depth.stack.pop() {
        let Some(ahead) = depth.ahead(digraph, number) else {
            depth.finish(number)?;
            continue;
        };
        if depth.is_on_stack(ahead.number) {
            let circle = round(alloc, depth.stack.as_slice(), number, ahead.number)?;
            return Ok(Some(circle));
        }
        depth.open_ahead(number, ahead)?;
    }
    Ok(None)
}

/// Searches from one number, where it has to be reached and hasn't been.
fn visit<D: Digraph>(
    alloc: Global,
    digraph: &D,
    depth: &mut DepthSearch,
    number: u32,
) -> Result<Option<Vec<u32>>, AllocError>
    requires within { StaysWithin (D.graph digraph.now) }
    requires depth { IsDepthSearch (D.graph digraph.now) depth.old }
    requires rests { depth.old.stack.items ≡ [] }
    requires number { number < (D.graph digraph.now).count }
    ensures { IfOk result (IsVisited (D.graph digraph.now) depth.old depth.new number) }
{
    if digraph.starts(number) && depth.is_fresh(number) {
        depth.open(number)?;
        return go_on(alloc, digraph, depth);
    }
    Ok(None)
}

/// An order of the numbers that have to be reached and of all that they read, or a circle of such numbers. It goes over
/// each number and each of its places once, its calls don't nest, and it takes a few words for each number.
pub fn search<D: Digraph>(alloc: Global, digraph: &D) -> Result<Found, AllocError>
    requires { StaysWithin (D.graph digraph.now) }
    ensures { IfOk result (IsFound (D.graph digraph.now)) }
{
    let mut depth = DepthSearch::start(alloc, digraph.count() as usize)?;
    for number in 0..digraph.count() {
        if let Some(circle) = visit(alloc, digraph, &mut depth, number)? {
            return Ok(Found::Circle(from_least(alloc, &circle)?));
        }
    }
    Ok(Found::Order(depth.order))
}
