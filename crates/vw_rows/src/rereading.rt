//! A checked stimulus that is read again.
ghost use Rattle.vw_rows.specs.Standing.{StandsWhereHeld};
ghost use Rattle.vw_rows.specs.StandsOnce.{StandsWhereHeld-prop};

use crate::fault::StimFault;
use crate::stimulus::Stimulus;
use std::alloc::Global;
use vw_net::Rows;
use vw_outside::Shelf;

/// A stimulus with the shelf that its text is read from again. Where the shelf tells the text, the stimulus stands in it.
#[derive(Drop)]
pub struct Rereading<'s, 'h, S: Shelf> {
    pub stimulus: &'s mut Stimulus,
    pub shelf: &'h mut S,
    ghost stands: { StandsWhereHeld stimulus.now ((S.seen shelf.now).told stimulus.now.name) } by { StandsWhereHeld-prop stimulus.now ((S.seen shelf.now).told stimulus.now.name) },
}

impl<S: Shelf> Rereading<'_, '_, S> {
    ghost use Rattle.std.specs.Prelude.{◌≡◌, ◌≢◌, ◌≤◌, ◌-◌, ℕ, Bool, List, false, length, ltb, min, take, drop, IfOk, IfErr, OnErr, IsErrOf, Ok, Err};
    ghost use Rattle.std.specs.List.{All};
    ghost use Rattle.vw_outside.specs.Told.{held};
    ghost use Rattle.vw_outside.specs.Reads.{CountsFault};
    ghost use Rattle.vw_rows.specs.Stimulus.{stimulus_rows, is_text_fault};
    ghost use Rattle.vw_rows.specs.Standing.{GaveMore};
    ghost use Rattle.vw_rows.specs.Rereadings.{SameShelf, seen_shelf};

    /// Whether there are rows that weren't given.
    pub fn has_more(&self) -> bool
        ensures { result ≡ ltb self.now.stimulus.now.done self.now.stimulus.now.clocks }
    {
        self.stimulus.done() < self.stimulus.clocks()
    }

    /// How many rows were given.
    pub fn done(&self) -> u64
        ensures { result ≡ self.now.stimulus.now.done }
    {
        self.stimulus.done()
    }

    /// The next rows, as the stimulus gives them.
    pub fn next_batch(&mut self, alloc: Global, most: u32) -> Result<Rows, StimFault>
        requires { 1 ≤ most }
        ensures shelf { SameShelf self.old self.new }
        ensures rows { (text : List ℕ) (all : List (List Bool))
            → (seen_shelf self.old).told self.old.stimulus.now.name ≡ held text
            → stimulus_rows self.old.stimulus.now.width text ≡ Ok all
            → IfOk result (λ rows. rows ≡ take most (drop self.old.stimulus.now.done all)) }
        ensures sure { (text : List ℕ)
            → (seen_shelf self.old).told self.old.stimulus.now.name ≡ held text
            → IfErr result (λ fault. is_text_fault fault ≡ false) }
        ensures gave { IfOk result (λ rows. GaveMore (length rows) self.old.stimulus.now self.new.stimulus.now) }
        ensures count { IfOk result (λ rows. length rows
            ≡ min most (self.old.stimulus.now.clocks - self.old.stimulus.now.done)) }
        ensures width { IfOk result (All (λ row. length row ≡ self.old.stimulus.now.width)) }
        ensures unmoved { OnErr result (self.new.stimulus.now ≡ self.old.stimulus.now) }
        ensures fault { IsErrOf result StimFault.ReadFault
            → CountsFault self.old.stimulus.now.name (seen_shelf self.old) (seen_shelf self.new) }
        ensures kept { result ≢ Err StimFault.ReadFault
            → seen_shelf self.new ≡ seen_shelf self.old }
    {
        self.stimulus.next_batch(alloc, self.shelf, most)
    }
}
