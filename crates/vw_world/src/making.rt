//! A board is put together.
ghost use Rattle.std.specs.Prelude.{◌≡◌, suc, length, map, IfOk};
ghost use Rattle.vw_node.specs.Fits.{state_of};
ghost use Rattle.vw_node.specs.Lists.{tabulate};
ghost use Rattle.vw_node.specs.States.{start_state};
ghost use Rattle.vw_prog.specs.Actions.{ArePrograms};
ghost use Rattle.vw_prog.specs.Scripts.{planned_of};
ghost use Rattle.vw_world.specs.Boards.{AreNodes};

use std::alloc::{AllocError, Global};
use vw_node::Node;
use vw_prog::{Job, Programs};

/// The nodes of a job, before their first actions.
pub fn first_nodes<'a>(
    alloc: Global,
    programs: &'a Programs,
    job: &'a Job,
) -> Result<Vec<Node<'a>>, AllocError>
    requires { ArePrograms (planned_of job.now) programs.now }
    ensures { IfOk result (λ nodes. AreNodes job.now (suc job.now.checked.board.chips) nodes.items) }
{
    let mut nodes = Vec::new(alloc);
    for node in 0..job.checked().board().chips() + 1 {
        nodes.push(Node::make(alloc, programs, job.share(node))?)?;
    }
    Ok(nodes)
}
