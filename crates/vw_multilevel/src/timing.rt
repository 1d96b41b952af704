//! When nets are there, and how long a path still follows them. In the field: static timing analysis, with arrival times and
//! the rest of the critical path (Hitchcock 1982), here of a design on several chips.
use crate::numbers::NumberList;
use crate::ways::{Ways, least_delay};
use std::alloc::{AllocError, Global};
use vw_net::{Cell, Flat, Ordered};
use vw_plan::Board;

/// What is known of the nets of a design whose cells are on chips, on a board whose links have pins enough for all of them.
#[derive(Drop)]
pub struct Timing<'a> {
    flat: &'a Flat,
    ways: Ways,
    /// The least delay of a link.
    least: u32,
    /// The node of each net.
    nodes: NumberList,
    /// How long each net takes to settle at its own node.
    settling: NumberList,
    /// The lead of each net at its own node.
    leads: NumberList,
    /// How long a path still follows each net.
    rests: NumberList,
    /// How long the longest path is, and at least 1.
    pub depth: u32,
}

/// The node of each net, given the chip of each cell.
fn nodes_of(alloc: Global, flat: &Flat, chip_of: &[u32]) -> Result<NumberList, AllocError> {
    let mut nodes = NumberList::zeros(alloc, flat.inputs())?;
    for chip in chip_of {
        nodes.push(*chip)?;
    }
    Ok(nodes)
}

/// How long each net takes to settle, given how long a gate takes.
fn settling_of(alloc: Global, flat: &Flat, settle: u32) -> Result<NumberList, AllocError> {
    let mut settling = NumberList::zeros(alloc, flat.inputs())?;
    for cell in flat.cells() {
        match cell {
            Cell::Gate { .. } => settling.push(settle)?,
            Cell::Latch { .. } => settling.push(0)?,
        }
    }
    Ok(settling)
}

impl<'a> Timing<'a> {
    /// That of a design whose cells are on these chips.
    pub fn of(
        alloc: Global,
        ordered: &'a Ordered,
        board: &Board,
        chip_of: &[u32],
    ) -> Result<Self, AllocError> {
        let flat = ordered.flat();
        let nodes = nodes_of(alloc, flat, chip_of)?;
        let settling = settling_of(alloc, flat, board.settle())?;
        let leads = NumberList::zeros(alloc, settling.len())?;
        let rests = NumberList::zeros(alloc, settling.len())?;
        let mut timing = Timing {
            flat,
            ways: Ways::of(alloc, board)?,
            least: least_delay(board),
            nodes,
            settling,
            leads,
            rests,
            depth: 1,
        };
        timing.lead_all(ordered);
        timing.follow_all(ordered);
        timing.measure();
        Ok(timing)
    }

    /// The net of a cell.
    fn net(&self, cell: u32) -> u32 {
        self.flat.inputs().saturating_add(cell)
    }

    /// How long it takes from a net's lead until a latch of a node can take it, or another node can use it.
    fn time(&self, net: u32, node: u32) -> u32 {
        let way = self.ways.time(self.nodes.at(net), node);
        self.settling.at(net).saturating_add(way)
    }

    /// How long it takes from a net's lead until a gate of a node leads, too.
    fn gate_time(&self, net: u32, node: u32) -> u32 {
        if self.nodes.at(net) == node {
            return 0;
        }
        self.time(net, node)
    }

    /// Works out the leads of all gates, in their order.
    fn lead_all(&mut self, ordered: &Ordered) {
        let flat = self.flat;
        for number in ordered.order() {
            let net = self.net(*number);
            if let Some(Cell::Gate { ins, .. }) = flat.cells().get(*number as usize) {
                self.lead(net, ins.as_slice());
            }
        }
    }

    /// Works out the lead of a gate with this net that reads these.
    fn lead(&mut self, net: u32, ins: &[u32]) {
        let node = self.nodes.at(net);
        let mut lead: u32 = 0;
        for read in ins {
            let time = self.gate_time(*read, node);
            lead = lead.max(self.leads.at(*read).saturating_add(time));
        }
        self.leads.set(net, lead);
    }

    /// Says that a path follows a net that is at least so long.
    fn raise(&mut self, net: u32, rest: u32) {
        if rest > self.rests.at(net) {
            self.rests.set(net, rest);
        }
    }

    /// Works out what follows all nets: outputs and latches first, and then the gates from the last to the first.
    fn follow_all(&mut self, ordered: &Ordered) {
        self.follow_outputs();
        let flat = self.flat;
        let mut number: u32 = 0;
        for cell in flat.cells() {
            let net = self.net(number);
            if let Cell::Latch { d, .. } = cell {
                let time = self.time(*d, self.nodes.at(net));
                self.raise(*d, time);
            }
            number = number.saturating_add(1);
        }
        for number in ordered.order().iter().rev() {
            let net = self.net(*number);
            if let Some(Cell::Gate { ins, .. }) = flat.cells().get(*number as usize) {
                self.follow(net, ins.as_slice());
            }
        }
    }

    /// Says that outputs have to come to the host.
    fn follow_outputs(&mut self) {
        let flat = self.flat;
        for net in flat.outputs() {
            let time = self.time(*net, 0);
            self.raise(*net, time);
        }
    }

    /// Says that what follows a gate with this net follows what it reads.
    fn follow(&mut self, net: u32, ins: &[u32]) {
        let node = self.nodes.at(net);
        let rest = self.rests.at(net);
        for read in ins {
            let time = self.gate_time(*read, node);
            self.raise(*read, rest.saturating_add(time));
        }
    }

    /// Works out how long the longest path is.
    fn measure(&mut self) {
        for net in 0..self.leads.len() {
            let path = self.leads.at(net).saturating_add(self.rests.at(net));
            self.depth = self.depth.max(path);
        }
    }

    /// How long a path still follows a net.
    pub fn rest(&self, net: u32) -> u32 {
        self.rests.at(net)
    }

    /// How long the longest path is on which the cell that drives a net reads another, given what follows then. Where both are
    /// of one chip, it is as long as it would be if they were parted by the quickest link. So what is nearly critical stays
    /// together.
    fn path(&self, read: u32, net: u32, rest: u32) -> u32 {
        let from = self.nodes.at(read);
        let to = self.nodes.at(net);
        let way = if from == to {
            self.least
        } else {
            self.ways.time(from, to)
        };
        self.leads
            .at(read)
            .saturating_add(self.settling.at(read))
            .saturating_add(way)
            .saturating_add(rest)
            .min(self.depth)
    }

    /// As how many nets it counts that the cell that drives a net reads another, given what follows then: `times` where there is
    /// no slack, and 0 where it is no less than the longest path divided by `shares`.
    pub fn weight(&self, read: u32, net: u32, rest: u32, shares: u32, times: u32) -> u32 {
        let depth = u64::from(self.depth);
        let path = u64::from(self.path(read, net, rest)) * u64::from(shares);
        let least = depth * u64::from(shares.saturating_sub(1));
        let over = path.saturating_sub(least).saturating_mul(u64::from(times));
        u32::try_from(over.div_ceil(depth.max(1))).unwrap_or(0)
    }
}
