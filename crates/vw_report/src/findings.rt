use vw_chain::Critical;

/// What is found out of a plan, beyond what its lists say.
pub struct Findings {
    /// A period that no sound plan for the same chips undercuts.
    pub bound: u64,
    /// One that no sound plan with shortest wires for these chips undercuts, where the plan's wires are shortest.
    pub short: Option<u64>,
    /// What its period waits for.
    pub critical: Critical,
}

impl Drop for Findings {
    fn drop(self) {
        let Findings {
            bound: _,
            short: _,
            critical: _,
        } = self;
    }
}
