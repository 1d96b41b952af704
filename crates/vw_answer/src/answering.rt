//! The answer of nodes in a list.
ghost use Rattle.std.specs.Prelude.{◌≡◌};
ghost use Rattle.vw_net.specs.History.{outputs_of, state_after, states_of};
ghost use Rattle.vw_answer.specs.Answers.{AreFinished, HasTold};

use crate::room::Room;
use vw_node::Node;
use vw_prog::{Answer, Job};

/// The answer of a job from all its nodes, by their numbers, each of which is done. It takes no memory.
pub fn answer_of(job: &Job, mut nodes: Vec<Node<'_>>, mut room: Room) -> Answer
    requires finished { AreFinished job.now nodes.items }
    requires room { HasTold job.now 1 room }
    ensures outputs { result.outputs ≡ outputs_of job.now.checked.ordered.flat
        job.now.start job.now.rows }
    ensures latches { result.latches ≡ states_of job.now.checked.ordered.flat
        job.now.start job.now.rows }
    ensures last { result.last ≡ state_after job.now.checked.ordered.flat
        job.now.start job.now.rows }
{
    for node in 1..nodes.len() {
        let chip = &nodes[node];
        room.put_chip(job, chip);
    }
    let host = nodes.swap_remove(0);
    room.answer(job, host)
}
