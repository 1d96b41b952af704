ghost use Rattle.std.specs.Prelude.{◌≡◌, ◌≤◌, ◌<◌, ◌^◌, length};
ghost use Rattle.vw_plan.specs.HopCounts.{hop_count};
ghost use Rattle.std.specs.List.{All};

use crate::wire::Wire;
use vw_net::Sequence;

/// A plan of a design on a board: where each cell is, and when each wire uses which pin. The microcycles of one clock
/// of the design are numbered from 0 up to the period.
pub struct Plan {
    /// The chip of each cell, by the number of the cell. Fewer than 2 ^ 32.
    pub chip_of: Sequence<u32>,
    /// Fewer than 2 ^ 32 wires, with fewer than 2 ^ 30 hops in all.
    pub wires: Sequence<Wire>,
    /// The number of microcycles of one clock, at most 2 ^ 62.
    pub period: u64,
    ghost few_cells: { length chip_of < 2 ^ 32 },
    ghost few_wires: { length wires < 2 ^ 32 },
    ghost few_hops: { hop_count wires < 2 ^ 30 },
    ghost early: { All (λ wire. All (λ hop. hop.at ≤ 2 ^ 62) wire.hops) wires },
    ghost short: { period ≤ 2 ^ 62 },
}

impl Drop for Plan {
    fn drop(self) {
        let Plan {
            chip_of: _,
            wires: _,
            period: _,
        } = self;
    }
}

impl Plan {
    /// The plan of these wires. It takes no memory.
    pub fn make(chip_of: Sequence<u32>, wires: Sequence<Wire>, period: u64) -> Self
        requires few_cells { length chip_of < 2 ^ 32 }
        requires few_wires { length wires < 2 ^ 32 }
        requires few_hops { hop_count wires < 2 ^ 30 }
        requires early { All (λ wire. All (λ hop. hop.at ≤ 2 ^ 62) wire.hops) wires }
        requires short { period ≤ 2 ^ 62 }
        ensures chip_of { result.chip_of ≡ chip_of }
        ensures wires { result.wires ≡ wires }
        ensures period { result.period ≡ period }
    {
        Plan {
            chip_of,
            wires,
            period,
        }
    }

    /// The chip of each cell, by the number of the cell.
    pub fn chip_of(&self) -> &[u32]
        ensures { result.now ≡ self.now.chip_of }
    {
        self.chip_of.as_slice()
    }

    /// The wires, by their numbers.
    pub fn wires(&self) -> &[Wire]
        ensures { result.now ≡ self.now.wires }
    {
        self.wires.as_slice()
    }

    /// The number of hops of all wires.
    pub fn hops(&self) -> u64
        ensures { result ≡ hop_count self.now.wires }
    {
        let mut count = 0;
        for wire in self.wires.as_slice() {
            count += wire.hops().len() as u64;
        }
        count
    }

    /// The number of microcycles of one clock.
    pub fn period(&self) -> u64
        ensures { result ≡ self.now.period }
    {
        self.period
    }
}
