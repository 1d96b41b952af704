//! What a model's claims are.
ghost use Rattle.std.specs.Prelude.{◌≡◌, ◌<◌, length, option_map, IfSome};
ghost use Rattle.vw_drivers.specs.Firsts.{claim_at, number_named};

use crate::claim::{Claim, RepeatedClaim};
use crate::firsts::Firsts;

/// The first claim on each claimed name of a model, and the first item that claims a name again.
pub struct ModelClaims {
    pub firsts: Firsts,
    pub again: Option<RepeatedClaim>,
}

impl Drop for ModelClaims {
    fn drop(self) {
        let ModelClaims {
            firsts: _,
            again: _,
        } = self;
    }
}

impl ModelClaims {
    /// The number of the first claim on a name, from 0 in the order in which names are first claimed; nothing where
    /// nothing claims the name.
    pub fn first(&self, name: &[u8]) -> Option<u32>
        ensures number { result ≡ number_named self.now.firsts name.now }
        ensures within { IfSome result (λ number. number < length self.now.firsts) }
    {
        self.firsts.number(name)
    }

    /// How many names are claimed.
    pub fn count(&self) -> usize
        ensures { result ≡ length self.now.firsts }
    {
        self.firsts.count()
    }

    /// The claim with a number, if so many names are claimed.
    pub fn claim(&self, number: u32) -> Option<Claim>
        ensures { result ≡ claim_at self.now.firsts number }
    {
        self.firsts.claim(number)
    }

    /// The first item that claims a name again, with the first such name; nothing where no item does.
    pub fn again(&self) -> Option<&RepeatedClaim>
        ensures { option_map (λ again. again.now) result ≡ self.now.again }
    {
        self.again.as_ref()
    }
}
