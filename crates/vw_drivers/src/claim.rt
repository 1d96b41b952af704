ghost use Rattle.std.specs.Prelude.{◌≡◌};

use vw_outside::Name;

/// What claims to drive a net of a model.
#[derive(Clone, Copy, Debug, PartialEq, Eq)]
pub enum Claim {
    /// An input or a clock of the model.
    Port,
    /// The output of a gate or a latch: the item's number among those of the model, from 0.
    Driven(u32),
    /// An output of a placed model: the place, from 1, of the `.subckt` item among those of the model, and the number,
    /// from 0, of the binding among those of the item.
    Bound { place: u32, bind: u32 },
}

/// A claim on a name that a port or an earlier item of the model has claimed, or the item itself before.
pub struct RepeatedClaim {
    pub item: u32,
    pub name: Name,
}

impl Drop for RepeatedClaim {
    fn drop(self) {
        let RepeatedClaim { item: _, name: _ } = self;
    }
}

impl RepeatedClaim {
    /// The number of the item that claims again, from 0.
    pub fn item(&self) -> u32
        ensures { result ≡ self.now.item }
    {
        self.item
    }

    /// The name that it claims.
    pub fn name(&self) -> &Name
        ensures { result.now ≡ self.now.name }
    {
        &self.name
    }
}
