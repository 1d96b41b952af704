ghost use Rattle.std.specs.Prelude.{◌≡◌};

use crate::name::Name;

/// A text in memory under its name, with the faults that were counted at it.
#[derive(Drop)]
pub struct Held {
    pub name: Name,
    pub bytes: Vec<u8>,
    pub faults: u64,
}

impl Held {
    /// A text with no fault yet. It takes no memory.
    pub fn make(name: Name, bytes: Vec<u8>) -> Self
        ensures name { result.name ≡ name }
        ensures bytes { result.bytes.items ≡ bytes.items }
        ensures faults { result.faults ≡ 0 }
    {
        Held {
            name,
            bytes,
            faults: 0,
        }
    }
}
