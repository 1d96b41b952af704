//! What is looked for among the nets that are read.
ghost use Rattle.std.specs.Prelude.{◌≡◌, false, slice_index_or};
ghost use Rattle.vw_net_faults.specs.Steps.Wanted.{is_cell_number, is_flagged, takes};

use vw_drivers::Source;

/// What is looked for among the nets that are read.
#[derive(Clone, Copy)]
pub(crate) enum Wanted<'a> {
    /// A net without a driver.
    Undriven,
    /// A control whose driver is a gate or a latch.
    Gated,
    /// A net that is read as data and is a clock port: for each claim of the root, by its number, whether it is one.
    ClockPort(&'a [bool]),
}

impl<'a> Wanted<'a> {
    /// Whether a net with this driver is one that is looked for.
    pub(crate) fn takes(&self, source: Option<Source>) -> bool
        ensures { result ≡ takes self.now source }
    {
        match self {
            Wanted::Undriven => source.is_none(),
            Wanted::Gated => is_cell_number(source),
            Wanted::ClockPort(clock_flags) => is_flagged(clock_flags, source),
        }
    }
}

/// Whether a driver is a gate or a latch.
fn is_cell_number(source: Option<Source>) -> bool
    ensures { result ≡ is_cell_number source }
{
    matches!(source, Some(Source::Cell(_)))
}

/// Whether a driver is a port with a flag.
fn is_flagged(clock_flags: &[bool], source: Option<Source>) -> bool
    ensures { result ≡ is_flagged clock_flags.now source }
{
    match source {
        Some(Source::Port(number)) => clock_flags.get(number as usize).copied().unwrap_or(false),
        _ => false,
    }
}
