ghost use Rattle.std.specs.Prelude.{◌≡◌, ◌≤◌, ◌<◌, ℕ, List, true, false, length, IfOk, IsErr, IsOk};
ghost use Rattle.vw_outside.specs.Told.{absent, held};
ghost use Rattle.vw_outside.specs.Faults.{one_more, is_listed};
ghost use Rattle.vw_outside.specs.Reads.{Fills, ReadEnds};
ghost use Rattle.vw_outside.specs.Steps.TextPlaces.{text_place};

use crate::held::Held;
use crate::name::Name;
use crate::shelf::Shelf;
use crate::sink::Failed;

/// Texts in memory. Each read gives at most `most` bytes. The reads whose numbers, from 1, are listed in `failing`
/// fail; no other read of a name that is held does.
#[derive(Drop)]
pub struct MemShelf {
    pub files: Vec<Held>,
    pub most: u32,
    pub failing: Vec<u64>,
    /// How many reads there were.
    pub calls: u64,
    /// The faults at all names that no text has.
    pub others: u64,
    ghost gives: { 0 < most },
}

impl MemShelf {
    /// A shelf of these texts; of equal names the first counts.
    pub fn new(files: Vec<Held>, most: u32, failing: Vec<u64>) -> Self
        requires { 0 < most }
        ensures files { result.files.items ≡ files.items }
        ensures most { result.most ≡ most }
        ensures failing { result.failing.items ≡ failing.items }
        ensures calls { result.calls ≡ 0 }
        ensures others { result.others ≡ 0 }
    {
        MemShelf {
            files,
            most,
            failing,
            calls: 0,
            others: 0,
        }
    }
}

/// The place of the first text of a name.
fn find(files: &[Held], name: &[u8]) -> Option<usize>
    ensures { result ≡ text_place files.now name.now }
{
    for (place, file) in files.iter().enumerate() {
        if file.name.as_slice() == name {
            return Some(place);
        }
    }
    None
}

/// Copies bytes from a place on into the front of a buffer, at most `most` of them.
pub(crate) fn fill(bytes: &[u8], from: u64, most: u32, into: &mut [u8]) -> usize
    requires { 0 < most }
    ensures within { result ≤ length into.new }
    ensures filled { Fills bytes.now from into.new result }
    ensures pieces { result ≤ most }
{
    let from = bytes.len().min(from as usize);
    let rest = &bytes[from..];
    let count = rest.len().min(into.len()).min(most as usize);
    into[..count].copy_from_slice(&rest[..count]);
    count
}

impl Shelf for MemShelf {
    ghost use Rattle.vw_outside.specs.Memory.{seen_shelf, KeepsShelfScript};

    ghost seen = { seen_shelf };

    fn read(&mut self, name: &Name, from: u64, into: &mut [u8]) -> Result<usize, Failed>
        ensures reads { ReadEnds name.now from into.new (seen_shelf self.old) (seen_shelf self.new)
            result }

        // A read that is listed fails, and one that isn't doesn't fail on a name that is held.
        ensures count { self.new.calls ≡ one_more self.old.calls }
        ensures listed { is_listed self.old.failing.items self.new.calls ≡ true → IsErr result }
        ensures sure { (bytes : List ℕ) → (seen_shelf self.old).told name.now ≡ held bytes
            → is_listed self.old.failing.items self.new.calls ≡ false → IsOk result }
        ensures pieces { IfOk result (λ count. count ≤ self.old.most) }

        // The names without a text share one count, which rises where one of them is read, and only there.
        ensures absent { (seen_shelf self.old).told name.now ≡ absent
            → self.new.others ≡ one_more self.old.others }
        ensures kept { (bytes : List ℕ) → (seen_shelf self.old).told name.now ≡ held bytes
            → self.new.others ≡ self.old.others }
        ensures script { KeepsShelfScript self.old self.new }
    {
        self.calls = self.calls.saturating_add(1);
        let fails = self.failing.contains(&self.calls);
        match find(&self.files, name.as_slice()) {
            None => {
                self.others = self.others.saturating_add(1);
                Err(Failed)
            }
            Some(place) if fails => {
                let file = &mut self.files[place];
                file.faults = file.faults.saturating_add(1);
                Err(Failed)
            }
            Some(place) => {
                let file = &self.files[place];
                Ok(fill(&file.bytes, from, self.most, into))
            }
        }
    }
}
