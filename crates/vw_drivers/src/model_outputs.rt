//! The outputs of models, to be looked up by name.
ghost use Rattle.std.specs.Prelude.{◌≡◌, ℕ, List, IfOk};
ghost use Rattle.vw_design.specs.Distinct.{has_name};
ghost use Rattle.vw_drivers.specs.Outputs.{AreOutputs};

use std::alloc::{AllocError, Global};
use std::marker::Model;
use vw_design::{Design, WordSet};
use vw_outside::Name;

/// The outputs of a model, which lie elsewhere. Contracts see them as a list of their names, in some order.
pub struct Outputs<'a> {
    names: WordSet<'a>,
}

impl Drop for Outputs<'_> {
    fn drop(self) {
        let Outputs { names: _ } = self;
    }
}

impl<'a> Model for Outputs<'a> {
    ghost use Rattle.std.specs.Prelude.{ℕ, List, map};

    ghost Value = { List (List ℕ) };

    ghost view = { λ outputs. map (λ entry. entry.0.now) outputs.names.words.entries };
}

impl<'a> Outputs<'a> {
    /// These outputs.
    pub fn of(alloc: Global, list: &'a [Name]) -> Result<Self, AllocError>
        ensures { IfOk result (λ outputs. (name : List ℕ)
            → has_name outputs name ≡ has_name list.now name) }
    {
        let mut names = WordSet::none(alloc);
        names.add_all(list)?;
        Ok(Outputs { names })
    }

    /// Whether a name is among them.
    pub fn has(&self, name: &[u8]) -> bool
        ensures { result ≡ has_name self.now name.now }
    {
        self.names.has(name)
    }
}

/// For each model of a design, the set of its outputs. They are made once: a set made again for each instance would cost the
/// square of the text.
pub fn output_sets<'a>(alloc: Global, design: &'a Design) -> Result<Vec<Outputs<'a>>, AllocError>
    ensures { IfOk result (λ outputs. AreOutputs design.now outputs.items) }
{
    let mut outputs = Vec::with_capacity(alloc, design.models().len())?;
    for model in design.models() {
        outputs.push(Outputs::of(alloc, model.outputs())?)?;
    }
    Ok(outputs)
}
