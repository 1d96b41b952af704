/// An entry of the timetable of a board: what one node does at one moment of a clock. A microcycle `m` has three moments.
/// At `3 * m` a gate is evaluated, at `3 * m + 1` a word is sent, and at `3 * m + 2` one is taken. Entries are ordered by
/// moment, then by link, and then by pin.
#[derive(Clone, Copy, Debug, PartialEq, Eq, PartialOrd, Ord)]
pub struct Entry {
    pub moment: u64,
    /// The number of the link; 0 for a gate.
    pub link: u32,
    /// The pin of the link; for a gate its place in the order of the gates.
    pub place: u32,
    pub node: u32,
    /// The net that is driven, sent or taken.
    pub net: u32,
}
