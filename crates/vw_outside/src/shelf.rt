ghost use Rattle.std.specs.Prelude.{ℕ, List};
ghost use Rattle.vw_outside.specs.Reads.{SeenShelf, ReadEnds};

use crate::name::Name;
use crate::sink::Failed;

/// Texts that are read by their names. What it tells of a name is nothing, that the name is absent, or the bytes
/// that are held under it. It counts the faults at each name; a count that has come to 2 ^ 64 - 1 stays there.
pub trait Shelf {
    /// What it tells of each name, and the counts of faults.
    ghost seen: { Self → SeenShelf };

    /// Reads bytes of the text from a place on (counted from 0) into the front of `into`, and says how many.
    /// Of a text that is held, it says 0 only where `into` is empty or the place is at or past the end. A read that
    /// succeeds leaves the shelf as it was. One that fails counts a fault at this name, at no other name that is
    /// held, and leaves what is told.
    fn read(&mut self, name: &Name, from: u64, into: &mut [u8]) -> Result<usize, Failed>
        ensures { ReadEnds name.now from into.new (seen self.old) (seen self.new) result };
}
