//! The links of a board, by the nodes that they join.
ghost use Rattle.std.specs.Prelude.{◌≡◌};
ghost use Rattle.vw_check.specs.Steps.Rules.{width_between};

use vw_ready::LinkTable;

/// The number of pins of the link from a node to another; 0 where there is no link.
pub fn width_between(links: &LinkTable, from: u32, to: u32) -> u32
    ensures { result ≡ width_between links.now from to }
{
    match links.between(from, to) {
        Some(link) => link.width(),
        None => 0,
    }
}
