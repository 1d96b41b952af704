//! Designs, line by line.
ghost use Rattle.std.specs.Prelude.{◌≡◌, ◌≢◌, IsTrue, IfOk, IfErr};
ghost use Rattle.std.specs.List.{All};
ghost use Rattle.vw_design.specs.Distinct.{are_distinct};
ghost use Rattle.vw_design.specs.Shape.{IsWellMade};
ghost use Rattle.vw_blif.specs.Steps.KeptWords.{Knows};
ghost use Rattle.vw_blif.specs.Steps.Names.{opened, names_so_far};

use crate::block::Block;
use crate::copies::{copy, further};
use crate::fault::TextFault;
use crate::kept_words::keep;
use crate::kind::{Kind, line_kind};
use crate::take::take;
use bumpalo::Bump;
use std::alloc::{AllocError, Global};
use vw_design::{Model, WordSet};
use vw_outside::Name;
use vw_text::Line;

/// A design that is being read.
#[derive(Drop)]
pub struct Reader<'a> {
    /// The models that have ended.
    pub models: Vec<Model>,
    /// The names of the models so far.
    pub names: Box<WordSet<'a>>,
    /// The model to which the next line belongs.
    pub block: Option<Box<Block<'a>>>,
    ghost knows: { Knows (names_so_far models.items (opened block)) names.value.words },
    ghost distinct: { IsTrue (are_distinct (names_so_far models.items (opened block))) },
    ghost well_made: { All IsWellMade models.items },
}

impl<'a> Reader<'a> {
    ghost use Rattle.vw_blif.specs.Kinds.{kind};
    ghost use Rattle.vw_blif.specs.declared.kind.Kind.{Kind};
    ghost use Rattle.vw_blif.specs.Steps.Readers.{IsAtStart, EndsModel, IsRead, ReadsLine, RefusesLine};

    /// Nothing was read.
    pub fn new(alloc: Global) -> Result<Self, AllocError>
        ensures { IfOk result IsAtStart }
    {
        Ok(Reader {
            models: Vec::new(alloc),
            names: Box::new(alloc, WordSet::none(alloc))?,
            block: None,
        })
    }

    /// The same design, with its open model among the models.
    fn end(self, alloc: Global) -> Result<Self, AllocError>
        ensures { IfOk result (EndsModel self.entry) }
    {
        let Reader {
            mut models,
            names,
            block,
        } = self;
        if let Some(mut block) = block {
            block.close(alloc)?;
            models.push(Box::into_inner(block).into_model())?;
        }
        Ok(Reader {
            models,
            names,
            block: None,
        })
    }

    /// Takes a `.model` line.
    fn begin_model(self, alloc: Global, arena: &'a Bump, line: &Line) -> Result<Self, TextFault>
        requires { kind line.now ≡ Kind.Model }
        ensures reads { IfOk result (ReadsLine self.entry line.now) }
        ensures refuses { IfErr result (RefusesLine self.entry line.now) }
    {
        let [name] = further(line) else {
            return Err(TextFault::BadWords(line.number()));
        };
        let Reader {
            models,
            mut names,
            block: _,
        } = self.end(alloc)?;
        if !keep(&mut names, arena, name.as_slice())? {
            return Err(TextFault::DuplicateModel(line.number()));
        }
        Ok(Reader {
            models,
            names,
            block: Some(Block::new(alloc, copy(alloc, name.as_slice())?)?),
        })
    }

    /// Takes a line that isn't a `.model` line.
    fn add_line(
        self,
        alloc: Global,
        arena: &'a Bump,
        line_is: Kind,
        line: &Line,
    ) -> Result<Self, TextFault>
        requires is { line_is ≡ kind line.now }
        requires no_model { line_is ≢ Kind.Model }
        ensures reads { IfOk result (ReadsLine self.entry line.now) }
        ensures refuses { IfErr result (RefusesLine self.entry line.now) }
    {
        let Reader {
            models,
            names,
            block,
        } = self;
        let Some(mut block) = block else {
            return Err(TextFault::NoModel(line.number()));
        };
        if line_is == Kind::End {
            let open = Reader {
                models,
                names,
                block: Some(block),
            };
            return Ok(open.end(alloc)?);
        }
        take(alloc, arena, &mut block, line_is, line)?;
        Ok(Reader {
            models,
            names,
            block: Some(block),
        })
    }

    /// Takes a line.
    pub fn read_line(self, alloc: Global, arena: &'a Bump, line: &Line) -> Result<Self, TextFault>
        ensures reads { IfOk result (ReadsLine self.entry line.now) }
        ensures refuses { IfErr result (RefusesLine self.entry line.now) }
    {
        match line_kind(line) {
            Kind::Model => self.begin_model(alloc, arena, line),
            line_is => self.add_line(alloc, arena, line_is, line),
        }
    }

    /// The models, where no further line follows.
    pub fn finish(self, alloc: Global) -> Result<Vec<Model>, AllocError>
        ensures { IfOk result (λ models. IsRead self.entry models.items) }
    {
        let Reader {
            models,
            names: _,
            block: _,
        } = self.end(alloc)?;
        Ok(models)
    }
}
