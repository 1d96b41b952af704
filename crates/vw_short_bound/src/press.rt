//! How long pins need for inlets that are all waited for.
ghost use Rattle.std.specs.Prelude.{◌≡◌, ◌≤◌, ◌<◌, ◌^◌, ◌&&◌, ℕ, length};
ghost use Rattle.std.specs.List.{All};
ghost use Rattle.vw_short_bound.specs.Steps.Pressed.{HaveSlots};
ghost use Rattle.vw_short_bound.specs.Steps.Rows.{has};

use crate::rows::has;

/// Whether a place has its bits in both of two rows.
fn are_both(row: &[u64], members: &[u64], place: usize) -> bool
    ensures { result ≡ (has row.now place && has members.now place) }
{
    has(row, place) && has(members, place)
}

/// The least microcycle by which pins can have taken all inlets that have their bits in both rows, given when each of
/// them can be there: from the last one on, it is at least the first of their times and a microcycle for each pinful
/// more.
pub fn pressed(times: &[u64], row: &[u64], members: &[u64], pins: u64) -> u64
    requires { All (λ time. time < 2 ^ 63) times.now }
    ensures { (end : ℕ) → HaveSlots times.now row.now members.now pins end → result ≤ end }
{
    if pins == 0 {
        return 0;
    }
    let mut count: u64 = 0;
    let mut from = u64::MAX / 2;
    let mut least = 0;
    for place in (0..times.len()).rev() {
        if are_both(row, members, place) {
            from = from.min(times[place]);
            least = least.max(from + count / pins);
            count += 1;
        }
    }
    least
}
