ghost use Rattle.std.specs.Prelude.{◌≡◌};

use crate::item::Item;
use vw_net::Sequence;
use vw_outside::Name;

/// A model: its ports in the order in which they are declared, and its items in the order of the text.
pub struct Model {
    pub name: Name,
    pub inputs: Sequence<Name>,
    pub outputs: Sequence<Name>,
    pub clocks: Sequence<Name>,
    pub items: Sequence<Item>,
}

impl Drop for Model {
    fn drop(self) {
        let Model {
            name: _,
            inputs: _,
            outputs: _,
            clocks: _,
            items: _,
        } = self;
    }
}

impl Model {
    /// The model of these parts.
    pub fn make(
        name: Name,
        inputs: Sequence<Name>,
        outputs: Sequence<Name>,
        clocks: Sequence<Name>,
        items: Sequence<Item>,
    ) -> Self
        ensures name { result.name ≡ name }
        ensures inputs { result.inputs ≡ inputs }
        ensures outputs { result.outputs ≡ outputs }
        ensures clocks { result.clocks ≡ clocks }
        ensures items { result.items ≡ items }
    {
        Model {
            name,
            inputs,
            outputs,
            clocks,
            items,
        }
    }

    /// The name.
    pub fn name(&self) -> &Name
        ensures { result.now ≡ self.now.name }
    {
        &self.name
    }

    /// The names of the inputs.
    pub fn inputs(&self) -> &[Name]
        ensures { result.now ≡ self.now.inputs }
    {
        self.inputs.as_slice()
    }

    /// The names of the outputs.
    pub fn outputs(&self) -> &[Name]
        ensures { result.now ≡ self.now.outputs }
    {
        self.outputs.as_slice()
    }

    /// The names of the clocks.
    pub fn clocks(&self) -> &[Name]
        ensures { result.now ≡ self.now.clocks }
    {
        self.clocks.as_slice()
    }

    /// The items.
    pub fn items(&self) -> &[Item]
        ensures { result.now ≡ self.now.items }
    {
        self.items.as_slice()
    }
}
