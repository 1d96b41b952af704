//! How much critical paths count in a round of refinement.

/// How much the arcs of critical paths count in a round, beside the nets: not at all, or some of them as a net, or more of them
/// as several. The more they count, the shorter paths become, and the more wires there are.
#[derive(Clone, Copy)]
pub struct Urgency {
    /// From 0, where no arc counts, to 4.
    level: u32,
}

impl Urgency {
    /// That of a first round.
    pub fn first() -> Self {
        Urgency { level: 3 }
    }

    /// That of the round after one by its number whose plan has too many wires, or hasn't: one step less or one step more. Four
    /// rounds in eight go to the last step, where some designs gain and others lose.
    pub fn after(self, round: u32, has_many_wires: bool) -> Self {
        let most = if round % 8 < 4 { 3 } else { 4 };
        let level = if has_many_wires {
            self.level.saturating_sub(1)
        } else {
            self.level.saturating_add(1).min(most)
        };
        Urgency { level }
    }

    /// Whether no arc counts.
    pub fn is_none(self) -> bool {
        self.level == 0
    }

    /// Which arcs count: those whose slack is less than the longest path divided by this number.
    pub fn shares(self) -> u32 {
        if self.level == 1 { 10 } else { 5 }
    }

    /// As how many nets an arc without slack counts.
    pub fn times(self) -> u32 {
        match self.level {
            0 => 0,
            1 | 2 => 1,
            3 => 2,
            _ => 4,
        }
    }
}
