//! The pins that chips use.
ghost use Rattle.std.specs.Prelude.{◌≡◌, ◌≤◌, length, IfSome, IfNone};
ghost use Rattle.std.specs.List.{All};
ghost use Rattle.vw_board.specs.Pins.{used_pins, AreEnoughPins, IsFirstOver};

use vw_plan::Link;

/// The pins that a chip uses.
fn used_pins(links: &[Link], chip: u32) -> u32
    requires few { length links.now ≤ 1089 }
    requires narrow { All (λ link. link.width ≤ 64) links.now }
    ensures { result ≡ used_pins links.now chip }
{
    let mut used = 0;
    for link in links {
        if link.from() == chip || link.to() == chip {
            used += link.width();
        }
    }
    used
}

/// The least chip that uses more pins than it has, and the number that it uses.
pub fn first_over(chips: u32, pins: u32, links: &[Link]) -> Option<(u32, u32)>
    requires chips { chips ≤ 32 }
    requires few { length links.now ≤ 1089 }
    requires narrow { All (λ link. link.width ≤ 64) links.now }
    ensures none { IfNone result (AreEnoughPins chips pins links.now) }
    ensures first { IfSome result (λ over.
        IsFirstOver chips pins links.now over.0 over.1 pins) }
{
    for chip in 1..chips + 1 {
        let used = used_pins(links, chip);
        if used > pins {
            return Some((chip, used));
        }
    }
    None
}
