//! The ports of a model.
ghost use Rattle.std.specs.Prelude.{◌≡◌, [], IsTrue, IfOk, IfErr, OnOk};
ghost use Rattle.vw_design.specs.Distinct.{are_distinct};
ghost use Rattle.vw_blif.specs.Steps.KeptWords.{Knows};

use crate::copies::{copy, further};
use crate::fault::TextFault;
use crate::kept_words::keep_all;
use bumpalo::Bump;
use std::alloc::Global;
use std::mem::replace;
use vw_design::WordSet;
use vw_outside::Name;
use vw_text::Line;

/// A list of ports of a model, none of them twice.
#[derive(Drop)]
pub struct Ports<'a> {
    pub names: Vec<Name>,
    pub seen: WordSet<'a>,
    ghost knows: { Knows names.items seen.words },
    ghost distinct: { IsTrue (are_distinct names.items) },
}

impl<'a> Ports<'a> {
    ghost use Rattle.vw_blif.specs.Steps.Ports.{AddsPorts, SaysPort};

    /// No port. It takes no memory.
    pub fn new(alloc: Global) -> Self
        ensures { result.names.items ≡ [] }
    {
        Ports {
            names: Vec::new(alloc),
            seen: WordSet::none(alloc),
        }
    }

    /// These ports and those of a line.
    fn add(self, alloc: Global, arena: &'a Bump, line: &Line) -> Result<Self, TextFault>
        ensures ports { IfOk result (AddsPorts self.entry line.now) }
        ensures fault { IfErr result (SaysPort self.entry line.now) }
    {
        let Ports {
            mut names,
            mut seen,
        } = self;
        let words = further(line);
        if !keep_all(&mut seen, arena, words)? {
            return Err(TextFault::DuplicatePort(line.number()));
        }
        for word in words {
            names.push(copy(alloc, word.as_slice())?)?;
        }
        Ok(Ports { names, seen })
    }

    /// Adds the ports of a line; no port is left where one can't be added.
    pub fn extend(&mut self, alloc: Global, arena: &'a Bump, line: &Line) -> Result<(), TextFault>
        ensures ports { OnOk result (AddsPorts self.old line.now self.new) }
        ensures fault { IfErr result (SaysPort self.old line.now) }
    {
        let ports = replace(self, Ports::new(alloc));
        *self = ports.add(alloc, arena, line)?;
        Ok(())
    }

    /// The names of the ports, in order.
    pub fn into_names(self) -> Vec<Name>
        ensures names { result.items ≡ self.entry.names.items }
        ensures distinct { IsTrue (are_distinct result.items) }
    {
        let Ports { names, seen: _ } = self;
        names
    }
}
