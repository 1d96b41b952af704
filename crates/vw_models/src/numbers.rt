//! Numbers of models by their names.
ghost use Rattle.std.specs.Prelude.{◌≡◌, length, map, IfOk};
ghost use Rattle.vw_design.specs.Paths.{placings};
ghost use Rattle.vw_models.specs.Steps.Names.{model_number_in, AreNumbers};

use std::alloc::{AllocError, Global};
use std::collections::HashMap;
use std::hash::{BuildHasherDefault, DefaultHasher};
use vw_design::{Design, Item};
use vw_net::Sequence;

/// The number of each model. The hasher is SipHash: whoever writes a text chooses its names, and under the map's own
/// hasher it is easy to find many names that collide.
pub struct Numbers<'a> {
    pub names: HashMap<&'a [u8], u32, BuildHasherDefault<DefaultHasher>>,
}

impl Drop for Numbers<'_> {
    fn drop(self) {
        let Numbers { names: _ } = self;
    }
}

impl<'a> Numbers<'a> {
    /// The numbers of the models of a design.
    pub fn of(alloc: Global, design: &'a Design) -> Result<Self, AllocError>
        ensures { IfOk result (λ numbers.
            AreNumbers design.now.models (length design.now.models) numbers.names) }
    {
        let mut names = HashMap::with_hasher(alloc, BuildHasherDefault::new());
        for (number, model) in design.models().iter().enumerate() {
            names.insert(model.name().as_slice(), number as u32)?;
        }
        Ok(Numbers { names })
    }

    /// The number of the model of a name.
    pub fn number(&self, name: &[u8]) -> Option<u32>
        ensures { result ≡ model_number_in self.now.names name.now }
    {
        self.names.get(name).copied()
    }

    /// The numbers of the models that items place, in order.
    pub fn targets(
        &self,
        alloc: Global,
        items: &[Item],
    ) -> Result<Sequence<Option<u32>>, AllocError>
        ensures { IfOk result (λ targets.
            targets ≡ map (λ placing. model_number_in self.now.names placing.model)
            (placings items.now)) }
    {
        let mut targets = Vec::new(alloc);
        for item in items {
            if let Item::Sub { model, .. } = item {
                targets.push(self.number(model.as_slice()))?;
            }
        }
        Ok(Sequence::of(targets))
    }
}
