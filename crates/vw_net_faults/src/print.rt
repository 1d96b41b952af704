//! Nets as they are printed.
ghost use Rattle.std.specs.Prelude.{◌≡◌, ◌++◌, ℕ, Some, codes, decimal, reverse, flat_map, slice_get, IfOk, OnOk};
ghost use Rattle.vw_design.specs.Paths.{Path, printed};
ghost use Rattle.vw_design.specs.Preorder.{instances};

use crate::nets::Nets;
use std::alloc::{AllocError, Global};
use vw_outside::Name;
use vw_text::push_number;

impl<'a> Nets<'a> {
    /// A net of an instance as it is printed: each place followed by `/`, from the root on, and then the name.
    pub fn printed(&self, alloc: Global, instance: u32, name: &Name) -> Result<Name, AllocError>
        ensures { IfOk result (λ text. (path : Path)
            → slice_get (instances self.now.design.now) instance ≡ Some path
            → text ≡ printed (record { path = path; name = name.now })) }
    {
        let places = self.places_of(alloc, instance)?;
        let mut text = Vec::new(alloc);
        push_places(&mut text, places)?;
        text.extend_from_slice(name.as_slice())?;
        Ok(Name::of(text))
    }

    /// The places of an instance, the last one first.
    fn places_of(&self, alloc: Global, instance: u32) -> Result<Vec<u32>, AllocError>
        ensures { IfOk result (λ places. (path : Path)
            → slice_get (instances self.now.design.now) instance ≡ Some path
            → places.items ≡ path) }
    {
        let table = self.tables.instances();
        let mut places = Vec::new(alloc);
        let mut at = instance;
        while at != 0 {
            let Some(entry) = table.get(at as usize) else {
                return Ok(places);
            };
            places.push(entry.place)?;
            at = entry.parent;
        }
        Ok(places)
    }
}

/// Appends places, the last one first, each followed by `/`.
fn push_places(text: &mut Vec<u8>, mut places: Vec<u32>) -> Result<(), AllocError>
    ensures { OnOk result (text.new.items ≡ text.old.items
        ++ flat_map (λ (place : ℕ). decimal place ++ codes "/") (reverse places.items)) }
{
    while let Some(place) = places.pop() {
        push_place(text, place)?;
    }
    Ok(())
}

/// Appends a place and `/`.
fn push_place(text: &mut Vec<u8>, place: u32) -> Result<(), AllocError>
    ensures { OnOk result (text.new.items
        ≡ text.old.items ++ (decimal place ++ codes "/")) }
{
    push_number(text, place)?;
    text.push(b'/')?;
    Ok(())
}
