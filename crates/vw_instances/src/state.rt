//! What a walk over a design has listed so far.
ghost use Rattle.std.specs.Prelude.{◌≡◌, ◌<◌, ◌+◌, ◌^◌, ◌++◌, [], ◌∷◌, length, OnOk, IfOk};
ghost use Rattle.vw_instances.specs.Steps.Frames.{entered, behind_item, site_of_frame, placed_in_frame};

use crate::frame::Frame;
use crate::tables::{CellSite, ListedInstance};
use std::alloc::{AllocError, Global};

/// What was listed so far, and the instances that have items left, the innermost last.
#[derive(Drop)]
pub struct State {
    pub instances: Vec<ListedInstance>,
    pub cells: Vec<CellSite>,
    pub frames: Vec<Frame>,
}

impl State {
    /// The start, with room for so many instances and cells: the root is listed, and its items come next.
    pub fn start(alloc: Global, instances: u32, cells: u32) -> Result<Self, AllocError>
        ensures instances { IfOk result (λ state. state.instances.items
            ≡ record { model = 0; parent = 0; place = 0; cells = 0 } ∷ []) }
        ensures cells { IfOk result (λ state. state.cells.items ≡ []) }
        ensures frames { IfOk result (λ state. state.frames.items
            ≡ entered 0 0 ∷ []) }
    {
        let mut state = State {
            instances: Vec::with_capacity(alloc, instances as usize)?,
            cells: Vec::with_capacity(alloc, cells as usize)?,
            frames: Vec::new(alloc),
        };
        state.open(ListedInstance {
            model: 0,
            parent: 0,
            place: 0,
            cells: 0,
        })?;
        Ok(state)
    }

    /// Lists an instance, whose items come next.
    pub fn open(&mut self, entry: ListedInstance) -> Result<(), AllocError>
        requires { length self.old.instances.items < 2 ^ 32 }
        ensures instances { OnOk result (
            self.new.instances.items ≡ self.old.instances.items ++ (entry ∷ [])) }
        ensures cells { self.new.cells.items ≡ self.old.cells.items }
        ensures frames { OnOk result (self.new.frames.items ≡ self.old.frames.items
            ++ (entered (length self.old.instances.items) entry.model ∷ [])) }
    {
        let frame = Frame {
            instance: self.instances.len() as u32,
            model: entry.model,
            item: 0,
            before: 0,
        };
        self.instances.push(entry)?;
        self.frames.push(frame)?;
        Ok(())
    }

    /// Lists the next item of a frame, which is a gate or a latch.
    pub fn list_cell(&mut self, frame: Frame) -> Result<(), AllocError>
        requires { frame.item + 1 < 2 ^ 32 }
        ensures instances { self.new.instances.items ≡ self.old.instances.items }
        ensures cells { OnOk result (self.new.cells.items ≡ self.old.cells.items
            ++ (site_of_frame frame ∷ [])) }
        ensures frames { OnOk result (self.new.frames.items ≡ self.old.frames.items
            ++ (behind_item frame frame.before ∷ [])) }
    {
        self.cells.push(CellSite {
            instance: frame.instance,
            item: frame.item,
        })?;
        self.frames.push(Frame {
            item: frame.item + 1,
            ..frame
        })?;
        Ok(())
    }

    /// Passes the next item of a frame, and lists the instance that it places, of the model with this number.
    pub fn place(&mut self, frame: Frame, model: u32) -> Result<(), AllocError>
        requires item { frame.item + 1 < 2 ^ 32 }
        requires before { frame.before + 1 < 2 ^ 32 }
        requires instances { length self.old.instances.items < 2 ^ 32 }
        requires cells { length self.old.cells.items < 2 ^ 32 }
        ensures instances { OnOk result (
            self.new.instances.items ≡ self.old.instances.items
            ++ (placed_in_frame frame model (length self.old.cells.items) ∷ [])) }
        ensures cells { self.new.cells.items ≡ self.old.cells.items }
        ensures frames { OnOk result (self.new.frames.items ≡ self.old.frames.items
            ++ (behind_item frame (frame.before + 1)
            ∷ entered (length self.old.instances.items) model ∷ [])) }
    {
        let entry = ListedInstance {
            model,
            parent: frame.instance,
            place: frame.before + 1,
            cells: self.cells.len() as u32,
        };
        self.frames.push(Frame {
            item: frame.item + 1,
            before: frame.before + 1,
            ..frame
        })?;
        self.open(entry)
    }
}
