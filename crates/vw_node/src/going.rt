//! Many actions of a node.
ghost use Rattle.std.specs.Prelude.{◌≡◌};
ghost use Rattle.vw_node.specs.Fits.{FitsJob, state_of};
ghost use Rattle.vw_node.specs.Moves.{Goes};
ghost use Rattle.vw_node.specs.Positions.{Agrees};

use crate::node::Node;
use crate::step::Step;
use vw_prog::Ends;

impl<'a> Node<'a> {
    /// Makes actions until one is refused or all of all clocks are made, and answers as the step that made none. It takes no
    /// memory.
    pub fn go<E: Ends>(&mut self, ends: &mut E) -> Step
        // The node is one of the ends' job, has what it needs for it, and stands where they do; its slots have the values that they
        // have to have.
        requires fits { FitsJob (E.seen ends.old).job self.old }
        requires agrees { Agrees (E.seen ends.old).job self.old.share.node (state_of self.old)
            (E.seen ends.old) }

        // All this holds again.
        ensures fits { FitsJob (E.seen ends.new).job self.new }
        ensures agrees { Agrees (E.seen ends.new).job self.new.share.node (state_of self.new)
            (E.seen ends.new) }
        ensures same { self.new.share ≡ self.old.share }

        // What was done.
        ensures goes { Goes (E.seen ends.old).job self.old.share.node (state_of self.old)
            (state_of self.new) (E.seen ends.old) (E.seen ends.new) result }
    {
        let mut answer = self.make_some(ends, true);
        while answer.is_moved() {
            answer = self.make_some(ends, true);
        }
        answer
    }
}
