ghost use Rattle.std.specs.Prelude.{◌≡◌, ◌<◌, ◌^◌, map, length, IsTrue};
ghost use Rattle.std.specs.List.{All};
ghost use Rattle.vw_design.specs.Distinct.{are_distinct};
ghost use Rattle.vw_design.specs.Shape.{IsWellMade};

use crate::model::Model;
use vw_net::Sequence;

/// A design: its models in the order of the text, of which the first is the root.
pub struct Design {
    /// At least one model, and fewer than 2 ^ 32.
    pub models: Sequence<Model>,
    ghost some: { 0 < length models },
    ghost few: { length models < 2 ^ 32 },
    ghost named: { IsTrue (are_distinct (map (λ model. model.name) models)) },
    ghost well_made: { All IsWellMade models },
}

impl Drop for Design {
    fn drop(self) {
        let Design { models: _ } = self;
    }
}

impl Design {
    /// The design of these models. It takes no memory.
    pub fn make(models: Sequence<Model>) -> Self
        requires some { 0 < length models }
        requires few { length models < 2 ^ 32 }
        requires named { IsTrue (are_distinct (map (λ model. model.name) models)) }
        requires well_made { All IsWellMade models }
        ensures { result.models ≡ models }
    {
        Design { models }
    }

    /// The models, in the order of the text. The first is the root.
    pub fn models(&self) -> &[Model]
        ensures { result.now ≡ self.now.models }
    {
        self.models.as_slice()
    }
}
