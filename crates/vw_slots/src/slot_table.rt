ghost use Rattle.std.specs.Prelude.{◌≡◌, ◌≤◌, ◌<◌, ◌+◌, ◌^◌, max, length, IfOk, OnOk, OnErr};
ghost use Rattle.vw_slots.specs.Slots.{no_slots, with_slot, IsFirstFree};

use crate::pin_use::{PinUses, first_free, shorten, take_pin};
use crate::slot::{Slot, Taken};
use std::alloc::{AllocError, Global};
use std::collections::HashMap;
use std::hash::BuildHasherDefault;
use std::marker::Model;
use vw_net::Sequence;
use vw_plan::Board;

/// The slots of a board's links that are taken, with spare room for more. Contracts see the widths of the links, the
/// taken slots in the order in which they were taken, and how many more there is room for.
pub struct SlotTable {
    /// The number of pins of each link.
    widths: Sequence<u32>,
    /// The taken slots, in the order in which they were taken.
    taken: Vec<Taken>,
    /// The same slots, counted by link and microcycle.
    pin_uses: PinUses,
    /// How many more slots there is room for.
    spare: u64,
}

impl Drop for SlotTable {
    fn drop(self) {
        let SlotTable {
            widths: _,
            taken: _,
            pin_uses: _,
            spare: _,
        } = self;
    }
}

impl Model for SlotTable {
    ghost use Rattle.vw_slots.specs.Slots.{Slots};

    ghost Value = { Slots };

    ghost use Rattle.std.specs.Prelude.{vec_capacity};
    ghost use Rattle.vw_slots.specs.Steps.Tables.{IsPinUseTable};

    ghost view = { λ t. record { widths = t.widths; taken = t.taken.items; spare = t.spare } };

    ghost invariant = { λ t. IsPinUseTable t.widths t.taken.items
        (vec_capacity t.taken) t.pin_uses t.spare };
}

impl SlotTable {
    /// The table of a board in which nothing is taken, with no room yet.
    pub fn make(alloc: Global, board: &Board) -> Result<Self, AllocError>
        ensures { IfOk result (λ table. table ≡ no_slots board.now) }
    {
        let widths = board
            .links()
            .iter()
            .map(|link| link.width())
            .collect(alloc)?;
        Ok(SlotTable {
            widths: Sequence::of(widths),
            taken: Vec::new(alloc),
            pin_uses: HashMap::with_hasher(alloc, BuildHasherDefault::new()),
            spare: 0,
        })
    }

    /// The taken slots, in the order in which they were taken.
    pub fn taken(&self) -> &[Taken]
        ensures { result.now ≡ self.now.taken }
    {
        self.taken.as_slice()
    }

    /// Makes room for at least so many more slots. Where memory is short, all stays as it was.
    pub fn reserve(&mut self, more: u64) -> Result<(), AllocError>
        ensures ok { OnOk result (self.new ≡ record self.old { spare = max self.old.spare more }) }
        ensures err { OnErr result (self.new ≡ self.old) }
    {
        if more <= self.spare {
            return Ok(());
        }
        self.pin_uses.reserve(more as usize)?;
        self.taken.reserve(more as usize)?;
        self.spare = more;
        Ok(())
    }

    /// Takes the first free slot of a link, not before a microcycle: the least microcycle in which a pin of the link is
    /// free, and there the least free pin. It takes no memory. However full a link is, it looks at few microcycles.
    pub fn take_first(&mut self, link: u32, not_before: u64) -> Slot
        requires link { link < length self.old.widths }
        requires room { 1 ≤ self.old.spare }
        requires early { not_before + length self.old.taken < 2 ^ 62 }
        ensures first { IsFirstFree self.old link not_before result }
        ensures soon { result.at ≤ not_before + length self.old.taken }
        ensures slots { self.new ≡ with_slot self.old link result }
    {
        let at = first_free(&self.pin_uses, self.widths.as_slice(), link, not_before);
        shorten(
            &mut self.pin_uses,
            self.widths.as_slice(),
            link,
            not_before,
            at,
        );
        let pin = take_pin(&mut self.pin_uses, link, at);
        match self.taken.push(Taken { link, pin, at }) {
            Ok(()) => {}
            Err(_) => unreachable!(),
        }
        self.spare -= 1;
        Slot { pin, at }
    }
}
