//! Latches of different types.
ghost use Rattle.std.specs.Prelude.{◌≡◌, Some, slice_get, IfOk};
ghost use Rattle.vw_design.specs.declared.item.Item.{Item};
ghost use Rattle.vw_design.specs.NetFaults.{several_edges};
ghost use Rattle.vw_design.specs.Paths.{Path};
ghost use Rattle.vw_design.specs.PathValue.{item_at};
ghost use Rattle.vw_design.specs.Preorder.{instances};
ghost use Rattle.vw_net_faults.specs.Steps.Edges.{edge_differs, IsTyped, other_edge, first_other};
ghost use Rattle.vw_net_faults.specs.Nets.{latches_pair};

use crate::nets::{Nets, Pair};
use std::alloc::{AllocError, Global};
use vw_design::{Edge, Item};
use vw_instances::CellSite;
use vw_outside::Name;

/// A latch that writes its type.
#[derive(Clone, Copy)]
pub(crate) struct Typed<'a> {
    pub(crate) instance: u32,
    pub(crate) q: &'a Name,
    pub(crate) edge: Edge,
}

impl<'a> Nets<'a> {
    /// The first latch that writes its type, and the first latch that writes another one.
    pub fn several_edges(&self, alloc: Global) -> Result<Option<Pair>, AllocError>
        ensures { IfOk result (λ found. found ≡ latches_pair (several_edges self.now.design.now)) }
    {
        let Some(first) = self.first_typed(Edge::Unsaid) else {
            return Ok(None);
        };
        // From the start again: the latches before the first one write no type, and it differs from itself in none.
        let Some(other) = self.first_typed(first.edge) else {
            return Ok(None);
        };
        let first = self.printed(alloc, first.instance, first.q)?;
        let other = self.printed(alloc, other.instance, other.q)?;
        Ok(Some(Pair { first, other }))
    }

    /// The first latch that writes a type other than this one.
    fn first_typed(&self, edge: Edge) -> Option<Typed<'a>>
        ensures { IsTyped self.now.design.now (first_other self.now.design.now edge) result }
    {
        for cell in self.cells {
            let found = self.typed_at(*cell, edge);
            if found.is_some() {
                return found;
            }
        }
        None
    }

    /// The latch of a cell, where it writes a type other than this one.
    #[tactic(auto, using(crate::proofs::CellItems::item_stands))]
    fn typed_at(&self, cell: CellSite, edge: Edge) -> Option<Typed<'a>>
        ensures { (path : Path) (item : Item)
            → slice_get (instances self.now.design.now) cell.instance ≡ Some path
            → item_at self.now.design.now path cell.item ≡ Some item
            → IsTyped self.now.design.now (other_edge edge path item) result }
    {
        let item = self.item_found(cell)?;
        match item {
            Item::Latch {
                q,
                edge: written,
                ..
            } if is_other_edge(edge, *written) => Some(Typed {
                instance: cell.instance,
                q,
                edge: *written,
            }),
            _ => None,
        }
    }
}

/// Whether a latch writes a type other than this one.
fn is_other_edge(edge: Edge, written: Edge) -> bool
    ensures { result ≡ edge_differs edge written }
{
    match written {
        Edge::Rise => !matches!(edge, Edge::Rise),
        Edge::Fall => !matches!(edge, Edge::Fall),
        Edge::Unsaid => false,
    }
}
