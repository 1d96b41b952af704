//! What a frame has next.
ghost use Rattle.std.specs.Prelude.{◌≡◌};
ghost use Rattle.vw_instances.specs.Steps.Nexts.{target_at, next_of};

use crate::frame::Frame;
use vw_design::Item;
use vw_models::Targets;
use vw_net::Sequence;

/// What comes next in an instance.
#[derive(Clone, Copy, Debug, PartialEq, Eq)]
pub enum Next {
    /// Nothing is left.
    End,
    /// A gate or a latch.
    Cell,
    /// An instance of the model with this number.
    Place(u32),
}

/// The number of the model at a place of a model, the places being counted from 0.
pub fn target_at(targets: &[Sequence<Option<u32>>], model: u32, before: u32) -> Option<u32>
    ensures { result ≡ target_at targets.now model before }
{
    let numbers = targets.get(model as usize)?;
    *numbers.as_slice().get(before as usize)?
}

/// What comes next in the instance of a frame.
pub fn coming(targets: &Targets, frame: Frame) -> Next
    ensures { result ≡ next_of targets.now.design.now targets.now.numbers.now
        frame.model frame.item frame.before }
{
    let Some(model) = targets.design.models().get(frame.model as usize) else {
        return Next::End;
    };
    match model.items().get(frame.item as usize) {
        None => Next::End,
        Some(Item::Names { .. } | Item::Latch { .. }) => Next::Cell,
        Some(Item::Sub { .. }) => match target_at(targets.numbers, frame.model, frame.before) {
            None => Next::End,
            Some(model) => Next::Place(model),
        },
    }
}
