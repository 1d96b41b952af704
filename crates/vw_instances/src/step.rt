//! One step of the walk over a design.
ghost use Rattle.std.specs.Prelude.{◌≡◌, ◌<◌, ◌++◌, [], ◌∷◌, None, OnOk};
ghost use Rattle.vw_design.specs.ModelFaults.{unknown_model};
ghost use Rattle.vw_design.specs.Limits.{IsSmall};
ghost use Rattle.vw_instances.specs.Steps.Frames.{IsPartlyListed, steps_left};

use crate::frame::Frame;
use crate::next::{Next, coming};
use crate::state::State;
use std::alloc::AllocError;
use vw_models::Targets;

/// Lists the next item of a frame that was the last one, or leaves the frame out where no item is left.
pub fn step(targets: &Targets, frame: Frame, state: &mut State) -> Result<(), AllocError>
    requires models_known { unknown_model targets.now.design.now ≡ None }
    requires small { IsSmall targets.now.design.now }
    requires walk { IsPartlyListed targets.now.design.now state.old.instances.items
        state.old.cells.items (state.old.frames.items ++ (frame ∷ [])) }
    ensures walk { OnOk result (IsPartlyListed targets.now.design.now state.new.instances.items
        state.new.cells.items state.new.frames.items) }
    ensures falls { OnOk result (steps_left targets.now.design.now state.new.instances.items
        state.new.cells.items state.new.frames.items
        < steps_left targets.now.design.now state.old.instances.items state.old.cells.items
        (state.old.frames.items ++ (frame ∷ []))) }
{
    match coming(targets, frame) {
        Next::End => Ok(()),
        Next::Cell => state.list_cell(frame),
        Next::Place(model) => state.place(frame, model),
    }
}
