//! What is kept of the links' microcycles, in one table for all links.
ghost use Rattle.std.specs.Prelude.{◌≡◌, ◌≤◌, ◌<◌, ◌+◌, ◌-◌, ◌^◌, ◌==◌, ◌&&◌, ℕ, length, slice_index, if◌then◌else◌, IsSome};
ghost use Rattle.std.specs.HashMap.{spare};
ghost use Rattle.vw_slots.specs.Steps.PinUses.{pin_use_at, used_at, next_at, AreWide, AreBusy, IsChained};

use std::collections::HashMap;
use std::hash::{BuildHasherDefault, DefaultHasher};

/// What is kept of a link in one microcycle.
#[derive(Clone, Copy, Drop)]
pub struct PinUse {
    /// How many of its pins are taken: all below this number.
    pub used: u32,
    /// A later microcycle. In all between, every pin of the link is taken.
    pub next: u64,
}

impl PinUse {
    /// The later microcycle.
    fn next(&self) -> u64
        ensures { result ≡ self.now.next }
    {
        self.next
    }
}

/// What is kept, by link and microcycle. A microcycle that isn't listed has no taken pin. The hasher is SipHash, since
/// whoever writes a design has a say in which microcycles fill.
pub type PinUses = HashMap<(u32, u64), PinUse, BuildHasherDefault<DefaultHasher>>;

/// The first microcycle, not before a given one, in which a pin of a link is free.
pub fn first_free(pin_uses: &PinUses, widths: &[u32], link: u32, not_before: u64) -> u64
    requires link { link < length widths.now }
    requires wide { AreWide widths.now }
    requires chained { IsChained widths.now pin_uses.now }
    ensures in_time { not_before ≤ result }
    ensures busy { AreBusy widths.now pin_uses.now link not_before result }
    ensures free { used_at pin_uses.now link result < slice_index widths.now link }
{
    let width = widths[link as usize];
    let mut at = not_before;
    while let Some(pin_use) = pin_uses.get(&(link, at)) {
        if pin_use.used < width {
            return at;
        }
        at = pin_use.next();
    }
    at
}

/// Notes at a listed microcycle that all are full up to a later one, and gives what was noted before.
fn set_next(pin_uses: &mut PinUses, link: u32, at: u64, next: u64) -> u64
    requires { IsSome (pin_use_at pin_uses.old link at) }
    ensures next { result ≡ next_at pin_uses.old link at }
    ensures used { (one : ℕ) (other : ℕ)
        → used_at pin_uses.new one other ≡ used_at pin_uses.old one other }
    ensures nexts { (one : ℕ) (other : ℕ) → next_at pin_uses.new one other ≡
        (if link == one && at == other then next else next_at pin_uses.old one other) }
    ensures spare { spare pin_uses.new ≡ spare pin_uses.old }
{
    let pin_use = pin_uses.get_mut(&(link, at)).unwrap();
    let before = pin_use.next;
    pin_use.next = next;
    before
}

/// Notes at the microcycles on the way from one to a later one that all are full up to this one, so that the next way is
/// short.
pub fn shorten(pin_uses: &mut PinUses, widths: &[u32], link: u32, from: u64, to: u64)
    requires link { link < length widths.now }
    requires wide { AreWide widths.now }
    requires chained { IsChained widths.now pin_uses.old }
    requires busy { AreBusy widths.now pin_uses.old link from to }
    ensures used { (one : ℕ) (other : ℕ)
        → used_at pin_uses.new one other ≡ used_at pin_uses.old one other }
    ensures chained { IsChained widths.now pin_uses.new }
    ensures spare { spare pin_uses.new ≡ spare pin_uses.old }
{
    let mut at = from;
    while at < to {
        at = set_next(pin_uses, link, at, to);
    }
}

/// What is kept of a link in a microcycle.
fn pin_use_of(pin_uses: &PinUses, link: u32, at: u64) -> PinUse
    requires { at < 2 ^ 62 }
    ensures used { result.used ≡ used_at pin_uses.now link at }
    ensures next { result.next ≡ next_at pin_uses.now link at }
{
    match pin_uses.get(&(link, at)) {
        Some(pin_use) => *pin_use,
        None => PinUse {
            used: 0,
            next: at + 1,
        },
    }
}

/// Takes the least free pin of a link in a microcycle.
pub fn take_pin(pin_uses: &mut PinUses, link: u32, at: u64) -> u32
    requires room { 1 ≤ spare pin_uses.old }
    requires few { used_at pin_uses.old link at + 1 < 2 ^ 32 }
    requires early { at < 2 ^ 62 }
    ensures pin { result ≡ used_at pin_uses.old link at }
    ensures used { (one : ℕ) (other : ℕ) → used_at pin_uses.new one other ≡
        (if link == one && at == other then used_at pin_uses.old link at + 1
        else used_at pin_uses.old one other) }
    ensures nexts { (one : ℕ) (other : ℕ)
        → next_at pin_uses.new one other ≡ next_at pin_uses.old one other }
    ensures spare { spare pin_uses.old ≤ spare pin_uses.new + 1 }
{
    let mut pin_use = pin_use_of(pin_uses, link, at);
    let pin = pin_use.used;
    pin_use.used = pin + 1;
    match pin_uses.insert((link, at), pin_use) {
        Ok(_) => pin,
        Err(_) => unreachable!(),
    }
}
