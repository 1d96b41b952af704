ghost use Rattle.std.specs.Prelude.{◌≡◌, ◌≤◌, IfOk};
ghost use Rattle.vw_delays.specs.Delays.{least_delay};

use crate::rows::delays_to;
use std::alloc::{AllocError, Global};
use std::marker::Model;
use std::snapshot::Snapshot;
use vw_net::Sequence;
use vw_plan::Board;

/// How many microcycles a bit takes at least between the nodes of a board. Contracts see it as the board.
pub struct Delays {
    board: Snapshot<Board>,
    /// For each node that is led to, the delay of each node.
    rows: Sequence<Sequence<u32>>,
}

impl Drop for Delays {
    fn drop(self) {
        let Delays { board: _, rows: _ } = self;
    }
}

impl Model for Delays {
    ghost use Rattle.vw_plan.specs.declared.board.Board.{Board};

    ghost Value = { Board };

    ghost use Rattle.vw_delays.specs.Steps.Rows.{AreDelayRows};

    ghost view = { λ d. d.board.value };

    ghost invariant = { λ d. AreDelayRows d.board.value d.rows };
}

impl Delays {
    /// The delays of a board. It takes a row of numbers for each node, and goes over all links up to 513 times for each.
    pub fn of(alloc: Global, board: &Board) -> Result<Self, AllocError>
        ensures { IfOk result (λ delays. delays ≡ board.now) }
    {
        let mut rows = Vec::new(alloc);
        for to in 0..board.chips() + 1 {
            rows.push(Sequence::of(delays_to(alloc, board, to)?))?;
        }
        Ok(Delays {
            board: Snapshot::of(board),
            rows: Sequence::of(rows),
        })
    }

    /// The least number of microcycles that a bit takes from a node to another. It takes no memory.
    pub fn delay(&self, from: u32, to: u32) -> u32
        requires from { from ≤ self.now.chips }
        requires to { to ≤ self.now.chips }
        ensures { result ≡ least_delay self.now from to }
    {
        self.rows.as_slice()[to as usize].as_slice()[from as usize]
    }
}
