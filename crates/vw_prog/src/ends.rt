//! The traits of the ends of links.
ghost use Rattle.std.specs.Prelude.{◌≡◌, ◌<◌, length, slice_get, Some, IfOk};
ghost use Rattle.std.specs.Option.{is_some};
ghost use Rattle.vw_prog.specs.Ends.{IsExpected, IsNextWord, Puts, SeenEnds, Takes};
ghost use Rattle.vw_prog.specs.Fabric.{AreEndsOf, Carried, IsLaid, PutsOne, SeenPutEnd, SeenTakeEnd, TakesOne, lifted};

use crate::job::Job;
use crate::word::Word;
use std::alloc::{AllocError, Global};

/// The ends of all links of a node. Of a link that leaves the node it owns the position up to which words were sent, and of
/// one that reaches it the position up to which they were taken. It counts refusals.
pub trait Ends {
    /// The job, the node, the positions, the counts of refusals, how many words each link holds at most, and whether those that
    /// are taken are kept.
    ghost seen: { Self → SeenEnds };

    /// Puts the script's next word into a link. It is refused where the link is full: then at least as many words were sent as the
    /// link holds.
    fn put(&mut self, link: u32, word: Word) -> bool
        requires { IsNextWord (seen self.old) link word }
        ensures { Puts link (seen self.old) (seen self.new) result };

    /// Takes the script's next word from a link. It is refused where none is there.
    fn take(&mut self, link: u32) -> Option<Word>
        requires { IsExpected (seen self.old) link }
        ensures { Takes link (seen self.old) (seen self.new) result };
}

/// The end of one link at which words are put in.
pub trait PutEnd: Drop {
    /// Its link, the script, how many words were sent and puts refused, and how many words the link holds at most.
    ghost seen: { Self → SeenPutEnd };

    /// Puts the script's next word in.
    fn put(&mut self, word: Word) -> bool
        requires { slice_get (seen self.old).words (seen self.old).sent ≡ Some word }
        ensures { PutsOne (seen self.old) (seen self.new) result };
}

/// The end of one link at which words are taken out.
pub trait TakeEnd: Drop {
    /// Its link, the script, how many words were taken and takes refused, and whether it keeps its words.
    ghost seen: { Self → SeenTakeEnd };

    /// Takes the script's next word out.
    fn take(&mut self) -> Option<Word>
        requires { (seen self.old).taken < length (seen self.old).words }
        ensures { TakesOne (seen self.old) (seen self.new) result };
}

/// What lays the links of a board for a job, and lifts them after it.
pub trait Fabric {
    type Tx: PutEnd + Send;

    type Rx: TakeEnd + Send;

    /// The words that each link has carried so far, where the fabric tells them.
    ghost carried: { Self → Carried };

    /// Lays a link for a job: it is empty, and its ends have the job's script.
    fn lay(
        &mut self,
        alloc: Global,
        job: &Job,
        link: u32,
    ) -> Result<(Self::Tx, Self::Rx), AllocError>
        requires { link < length job.now.checked.board.links }
        ensures same { carried self.new ≡ carried self.old }
        ensures laid { IfOk result (λ ends. IsLaid job.now link (is_some (carried self.old))
            (Self.Tx.seen ends.0) (Self.Rx.seen ends.1)) };

    /// Lifts a link: the words that were taken from it go to those that it has carried. It takes no memory.
    fn lift(&mut self, link: u32, tx: Self::Tx, rx: Self::Rx)
        requires { AreEndsOf link (is_some (carried self.old)) (Self.Tx.seen tx) (Self.Rx.seen rx) }
        ensures { carried self.new ≡ lifted link (Self.Rx.seen rx) (carried self.old) };
}
