//! Numbers that are reached from number 0.
ghost use Rattle.std.specs.Prelude.{◌≡◌, ◌<◌, ℕ, Some, [], slice_get, IfOk, OnOk};
ghost use Rattle.std.specs.Vec.{vec_len};
ghost use Rattle.vw_models.specs.Steps.Reach.{
  AreFlagged,
  AreReachFlags,
  AreWithin,
  with_number,
  with_targets,
};

use std::alloc::{AllocError, Global};
use vw_net::Sequence;

/// The numbers that have been reached so far.
#[derive(Drop)]
pub struct ReachedSoFar {
    /// For each number, whether it is among them.
    pub flags: Vec<bool>,
    /// They, in the order in which they were reached.
    pub found: Vec<u32>,
}

impl ReachedSoFar {
    /// None of so many numbers.
    pub fn none(alloc: Global, count: usize) -> Result<Self, AllocError>
        ensures found { IfOk result (λ reached. reached.found.items ≡ []) }
        ensures flags { IfOk result (λ reached. vec_len reached.flags ≡ count) }
        ensures flagged { IfOk result (λ reached. AreFlagged [] reached.flags.items) }
    {
        Ok(ReachedSoFar {
            flags: vec![in alloc; false; count]?,
            found: Vec::new(alloc),
        })
    }

    /// Adds a number, unless it is there.
    pub fn add(&mut self, number: u32) -> Result<(), AllocError>
        requires within { number < vec_len self.old.flags }
        requires flagged { AreFlagged self.old.found.items self.old.flags.items }
        ensures found { OnOk result (
            self.new.found.items ≡ with_number self.old.found.items number) }
        ensures flags { vec_len self.new.flags ≡ vec_len self.old.flags }
        ensures flagged { OnOk result (AreFlagged self.new.found.items self.new.flags.items) }
    {
        if !self.flags[number as usize] {
            self.found.push(number)?;
            self.flags[number as usize] = true;
        }
        Ok(())
    }

    /// Adds the numbers of models that a model places.
    pub fn add_all(&mut self, targets: &[Option<u32>]) -> Result<(), AllocError>
        requires within { (place placed : ℕ)
            → slice_get targets.now place ≡ Some (Some placed) → placed < vec_len self.old.flags }
        requires flagged { AreFlagged self.old.found.items self.old.flags.items }
        ensures found { OnOk result (
            self.new.found.items ≡ with_targets self.old.found.items targets.now) }
        ensures flags { vec_len self.new.flags ≡ vec_len self.old.flags }
        ensures flagged { OnOk result (AreFlagged self.new.found.items self.new.flags.items) }
    {
        for target in targets {
            if let Some(number) = target {
                self.add(*number)?;
            }
        }
        Ok(())
    }
}

/// For each number, whether it is reached from number 0.
pub fn reach(alloc: Global, targets: &[Sequence<Option<u32>>]) -> Result<Vec<bool>, AllocError>
    requires { AreWithin targets.now }
    ensures { IfOk result (λ flags. AreReachFlags targets.now flags.items) }
{
    let mut reached = ReachedSoFar::none(alloc, targets.len())?;
    reached.add(0)?;
    for at in 0..targets.len() {
        if at >= reached.found.len() {
            break;
        }
        let number = reached.found[at];
        reached.add_all(targets[number as usize].as_slice())?;
    }
    Ok(reached.flags)
}
