//! The first claims on the names of a model.
ghost use Rattle.std.specs.Prelude.{◌≡◌, ◌<◌, not, map, length, IfOk, IfSome, OnOk, []};
ghost use Rattle.vw_drivers.specs.Firsts.{claim_at, number_named};
ghost use Rattle.vw_drivers.specs.Steps.GatheredClaims.{has_claim, with_first, with_firsts, port_first};

use crate::claim::Claim;
use indexmap::IndexMap;
use std::alloc::{AllocError, Global};
use std::hash::{BuildHasherDefault, DefaultHasher};
use std::marker::Model;
use vw_outside::Name;

/// The claimed names of a model, each with the first claim on it, in the order in which they are first claimed.
/// Contracts see it as this list. Its hasher is SipHash, since whoever writes a text chooses its names.
pub struct Firsts {
    claims: IndexMap<Vec<u8>, Claim, BuildHasherDefault<DefaultHasher>>,
}

impl Drop for Firsts {
    fn drop(self) {
        let Firsts { claims: _ } = self;
    }
}

impl Model for Firsts {
    ghost use Rattle.std.specs.Prelude.{ℕ, List, map, length, ◌≤◌, ◌^◌};
    ghost use Rattle.vw_drivers.specs.Firsts.{First};

    ghost Value = { List First };

    ghost view = { λ firsts. map
        (λ entry. record { name = entry.0.items; claim = entry.1 }) firsts.claims.entries };

    ghost invariant = { λ firsts. length firsts.claims.entries ≤ 2 ^ 32 };
}

impl Firsts {
    /// No claim. It takes no memory.
    pub(crate) fn new(alloc: Global) -> Self
        ensures { result ≡ [] }
    {
        Firsts {
            claims: IndexMap::with_hasher(alloc, BuildHasherDefault::new()),
        }
    }

    /// Adds the claim on a name that has none, and says whether it had none. More than 2 ^ 32 names have no room.
    pub(crate) fn add(
        &mut self,
        alloc: Global,
        name: &[u8],
        claim: Claim,
    ) -> Result<bool, AllocError>
        ensures is_new { IfOk result (λ is_new. is_new ≡ not (has_claim self.old name.now)) }
        ensures firsts { OnOk result (self.new ≡ with_first self.old name.now claim) }
    {
        if self.claims.contains_key(name) {
            return Ok(false);
        }
        if self.claims.len() >= 1 << 32 {
            return Err(AllocError);
        }
        self.claims.insert(name.to_vec(alloc)?, claim)?;
        Ok(true)
    }

    /// Adds ports.
    pub(crate) fn add_ports(&mut self, alloc: Global, names: &[Name]) -> Result<(), AllocError>
        ensures { OnOk result (self.new ≡ with_firsts self.old (map port_first names.now)) }
    {
        for name in names {
            self.add(alloc, name.as_slice(), Claim::Port)?;
        }
        Ok(())
    }

    /// How many names are claimed.
    pub fn count(&self) -> usize
        ensures { result ≡ length self.now }
    {
        self.claims.len()
    }

    /// The number of the claim on a name, from 0, where something claims it.
    pub fn number(&self, name: &[u8]) -> Option<u32>
        ensures number { result ≡ number_named self.now name.now }
        ensures within { IfSome result (λ number. number < length self.now) }
    {
        let number = self.claims.get_index_of(name)?;
        Some(number as u32)
    }

    /// The claim with a number, if so many names are claimed.
    pub fn claim(&self, number: u32) -> Option<Claim>
        ensures { result ≡ claim_at self.now number }
    {
        let (_, claim) = self.claims.get_index(number as usize)?;
        Some(*claim)
    }
}
