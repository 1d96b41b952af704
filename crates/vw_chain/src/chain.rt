//! Chains of gates and wires.
use vw_net::Sequence;

/// A step of a chain, from a net at a node to a net at a node.
#[derive(Clone, Copy, Debug, PartialEq, Eq)]
pub enum Step {
    /// The gate that drives this net, on the node, reads the net before.
    Gate { net: u32 },
    /// The wire with this number, from 0, brings the net before from its own node to another.
    Wire { number: usize },
}

/// What the period of a plan waits for.
#[derive(Clone, Copy, Debug, PartialEq, Eq)]
pub enum End {
    /// The arrival of the last hop of the wire with this number, from 0.
    Wire { number: usize },
    /// The net that the latch with this cell number reads.
    Latch { number: usize, reads: u32 },
}

/// A chain that begins with a net which its own node has from the beginning on.
pub struct Chain {
    /// The net with which it begins.
    pub first: u32,
    /// The steps, in the order of time.
    pub steps: Sequence<Step>,
    /// What waits for the last step.
    pub end: End,
}

impl Drop for Chain {
    fn drop(self) {
        let Chain {
            first: _,
            steps: _,
            end: _,
        } = self;
    }
}

/// The microcycle that a plan's period has to reach, and a chain that leads there; none where nothing is waited for.
pub struct Critical {
    /// The least number of microcycles in which all wires have arrived, and all latches have what they read.
    pub last: u64,
    pub chain: Option<Chain>,
}

impl Drop for Critical {
    fn drop(self) {
        let Critical { last: _, chain: _ } = self;
    }
}
