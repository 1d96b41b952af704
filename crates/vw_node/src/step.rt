ghost use Rattle.std.specs.Prelude.{◌≡◌};
ghost use Rattle.vw_node.specs.Moves.{is_moved};

/// What a step of a node came to.
#[derive(Clone, Copy, Debug, PartialEq, Eq)]
pub enum Step {
    /// It made its next action.
    Moved,
    /// Its next action is a send over this link, which was full.
    Full(u32),
    /// Its next action is a take from this link, which was empty.
    Empty(u32),
    /// All actions of all clocks are made.
    Done,
}

impl Step {
    /// Whether an action was made.
    pub fn is_moved(self) -> bool
        ensures { result ≡ is_moved self }
    {
        match self {
            Step::Moved => true,
            Step::Full(_) => false,
            Step::Empty(_) => false,
            Step::Done => false,
        }
    }
}
