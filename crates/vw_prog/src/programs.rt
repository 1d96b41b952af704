ghost use Rattle.std.specs.Prelude.{◌≡◌, ◌<◌, length, slice_get, slice_index_or, Some, [], IfOk};
ghost use Rattle.vw_plan.specs.PlannedBoard.{planned_board};
ghost use Rattle.vw_prog.specs.Actions.{ArePrograms};

use crate::action::Action;
use crate::build::{deal, timetable};
use crate::code::Code;
use crate::codes::codes_of;
use crate::unfolding::action_by;
use std::alloc::{AllocError, Global};
use std::marker::Model;
use vw_plan::Checked;

/// The code of each node for one clock, by the number of the node. Contracts also see the actions that it stands for.
pub struct Programs {
    /// The number of inputs of the design, to which the cell numbers of gates are relative.
    inputs: u32,
    codes: Vec<Code>,
}

impl Drop for Programs {
    fn drop(self) {
        let Programs {
            inputs: _,
            codes: _,
        } = self;
    }
}

impl Model for Programs {
    ghost use Rattle.std.specs.Prelude.{map};
    ghost use Rattle.vw_prog.specs.Actions.{SeenPrograms};
    ghost use Rattle.vw_prog.specs.Unfolded.{unfolded};

    ghost Value = { SeenPrograms };

    ghost view = { λ programs. record {
      lists = map (unfolded programs.inputs) programs.codes.items;
      codes = programs.codes.items;
    } };
}

impl Programs {
    /// The actions of each node for one clock. It takes memory for each of them.
    pub fn build(alloc: Global, checked: &Checked) -> Result<Self, AllocError>
        ensures { IfOk result (ArePrograms
            (planned_board checked.now.ordered checked.now.board checked.now.plan)) }
    {
        let entries = timetable(alloc, checked)?;
        let nodes = checked.board().chips() + 1;
        let inputs = checked.ordered().flat().inputs();
        let lists = deal(alloc, nodes, &entries)?;
        let codes = codes_of(alloc, checked, &lists)?;
        Ok(Programs { inputs, codes })
    }

    /// The code of a node.
    pub fn code(&self, node: u32) -> &Code
        requires { node < length self.now.codes }
        ensures { slice_get self.now.codes node ≡ Some result.now }
    {
        &self.codes[node as usize]
    }

    /// The number of actions of a node for one clock. It takes no memory.
    pub fn count(&self, node: u32) -> u64
        requires { node < length self.now.lists }
        ensures { result ≡ length (slice_index_or self.now.lists node []) }
    {
        self.codes[node as usize].ops.len() as u64
    }

    /// The action of a node with this number, from 0. A send takes the net at which its shift loop stands then, for which it
    /// looks through the actions before. It takes no memory.
    pub fn action(&self, node: u32, number: u64) -> Action
        requires node { node < length self.now.lists }
        requires number { number < length (slice_index_or self.now.lists node []) }
        ensures { result ≡ slice_index_or (slice_index_or self.now.lists node []) number result }
    {
        let code = &self.codes[node as usize];
        let number = number as usize;
        action_by(self.inputs, code, number, code.ops[number])
    }
}
