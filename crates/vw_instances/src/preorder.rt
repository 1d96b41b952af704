//! The walk over a design.
ghost use Rattle.std.specs.Prelude.{◌≡◌, None, IfOk};
ghost use Rattle.vw_design.specs.ModelFaults.{unknown_model};
ghost use Rattle.vw_design.specs.Limits.{IsSmall, instance_count, cell_count};
ghost use Rattle.vw_instances.specs.Tables.{ArePlaced, AreCellSites};

use crate::state::State;
use crate::step::step;
use crate::tables::Listing;
use std::alloc::{AllocError, Global};
use vw_models::Targets;
use vw_net::Sequence;

/// The instances and the cells of a design, in preorder, given how many instances and cells there are. It takes memory for the tables, and for a frame
/// for each level of instances; only want of that is an error.
pub fn list_instances(
    alloc: Global,
    targets: &Targets,
    instances: u32,
    cells: u32,
) -> Result<Listing, AllocError>
    requires models_known { unknown_model targets.now.design.now ≡ None }
    requires small { IsSmall targets.now.design.now }
    requires instances { instances ≡ instance_count targets.now.design.now }
    requires cells { cells ≡ cell_count targets.now.design.now }
    ensures instances { IfOk result
        (λ listing. ArePlaced targets.now.design.now listing.instances) }
    ensures cells { IfOk result (λ listing. AreCellSites targets.now.design.now listing.cells) }
{
    let mut state = State::start(alloc, instances, cells)?;
    while let Some(frame) = state.frames.pop() {
        step(targets, frame, &mut state)?;
    }
    Ok(Listing {
        instances: Sequence::of(state.instances),
        cells: Sequence::of(state.cells),
    })
}
