//! The nets that probes find.
ghost use Rattle.std.specs.Prelude.{◌≡◌, ◌<◌, Some, slice_get, IfNone, IfSome};
ghost use Rattle.vw_design.specs.Paths.{Path};
ghost use Rattle.vw_design.specs.Preorder.{instances};
ghost use Rattle.vw_design.specs.Limits.{instance_count};
ghost use Rattle.vw_design.specs.Flattened.{number_of};
ghost use Rattle.vw_flat.specs.Steps.Searches.{BeginsWithNone, BeginsWithPlace, IsNumberOf};

use crate::number::number_by_driver;
use bstr::ByteSlice;
use vw_elab::Elaborated;
use vw_text::number_in;

/// The place at the front of a word, up to the first `/`, and what stands behind that.
fn place_in_front(word: &[u8]) -> Option<(u32, &[u8])>
    ensures none { IfNone result (BeginsWithNone word.now) }
    ensures some { IfSome result (λ front. BeginsWithPlace word.now front.0 front.1.now) }
{
    let end = word.find_byte(b'/')?;
    let place = number_in(&word[..end])?;
    if place > u64::from(u32::MAX) {
        return None;
    }
    Some((place as u32, &word[end + 1..]))
}

/// The number of a net of an instance; nothing where it has no bit.
fn number_named(elaborated: &Elaborated, instance: u32, name: &[u8]) -> Option<u32>
    requires { instance < instance_count elaborated.now }
    ensures { (path : Path) → slice_get (instances elaborated.now) instance ≡ Some path
        → result ≡ number_of elaborated.now path name.now }
{
    elaborated.is_accepted();
    number_by_driver(
        elaborated.columns(),
        elaborated.driver_named(instance, name),
    )
}

/// The number of the net that a probe finds; nothing where it finds none. The word is read once: first it is the name of a net
/// of the root, and at each place in front of it what stands behind is the name of a net one instance deeper. So of all nets
/// that are printed like it the one with the shortest path is found first. It takes no memory.
pub fn probe_number(elaborated: &Elaborated, probe: &[u8]) -> Option<u32>
    ensures { IsNumberOf elaborated.now probe.now result }
{
    elaborated.is_accepted();
    let mut instance = 0;
    let mut name = probe;
    loop {
        let number = number_named(elaborated, instance, name);
        if number.is_some() {
            return number;
        }
        let (place, behind) = place_in_front(name)?;
        instance = elaborated.child(instance, place)?;
        name = behind;
    }
}
