//! Even shares of the faults.
ghost use Rattle.std.specs.Prelude.{◌≡◌, ◌≤◌};
ghost use Rattle.vw_fault.specs.Shares.{share_end, share_of};

use crate::open::Open;

/// One of several even shares of the faults.
#[derive(Clone, Copy)]
pub struct Share {
    /// Its number, from 1.
    pub number: u64,
    /// How many shares there are, up to 65,536.
    pub shares: u64,
    ghost first: { 1 ≤ number },
    ghost last: { number ≤ shares },
    ghost few: { shares ≤ 65536 },
}

/// How many of so many items are in the first so many of even shares, rounded down.
fn share_end(shares: u64, count: usize, number: u64) -> usize
    requires some { 1 ≤ shares }
    requires few { shares ≤ 65536 }
    requires within { number ≤ shares }
    ensures end { result ≡ share_end shares count number }
    ensures within { result ≤ count }
{
    (u128::from(number) * count as u128 / u128::from(shares)) as usize
}

impl Share {
    /// The faults of the share.
    pub fn of<'a>(&self, faults: &'a [Open]) -> &'a [Open]
        ensures { result.now ≡ share_of self.now.number self.now.shares faults.now }
    {
        let start = share_end(self.shares, faults.len(), self.number - 1);
        let end = share_end(self.shares, faults.len(), self.number);
        &faults[start..end]
    }
}
