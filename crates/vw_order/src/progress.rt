//! What a search knows of a number.

/// How far a number is.
#[derive(Clone, Copy)]
pub enum Progress {
    /// It hasn't been reached.
    Fresh,
    /// It is on the stack.
    Open,
    /// It and all that it reads are in the order.
    Done,
}

/// A number that is read by another one, at a place.
#[derive(Clone, Copy)]
pub struct Ahead {
    pub place: usize,
    pub number: u32,
}
