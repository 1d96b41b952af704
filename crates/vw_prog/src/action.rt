/// One thing that a node does in a clock.
#[derive(Clone, Copy, Debug, PartialEq, Eq)]
pub enum Action {
    /// It works out the gate with this cell number.
    Evaluate(u32),
    /// It sends the bit of a net over a link.
    Send { link: u32, pin: u32, net: u32 },
    /// It takes the bit of a net from a link.
    Take { link: u32, pin: u32, net: u32 },
    /// It records what the clock came to, and goes on to the next clock: all latches of a chip take the values of their inputs
    /// together, and the host takes the next row.
    Step,
}
