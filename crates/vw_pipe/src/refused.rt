use vw_net::Sequence;
use vw_plan::Route;

/// The chips and routes that were handed in, where there is no memory.
#[derive(Drop)]
pub struct ScheduleRefused {
    /// The chip of each cell.
    pub chip_of: Sequence<u32>,
    /// The routes of the needed pairs.
    pub routes: Sequence<Route>,
}
