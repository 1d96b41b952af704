//! Models, line by line.
ghost use Rattle.std.specs.Prelude.{◌≡◌, [], None, IsTrue, IfOk, IfErr, OnOk};
ghost use Rattle.std.specs.List.{list_all};
ghost use Rattle.vw_design.specs.Shape.{IsWellMade, has_its_shape};

use crate::bind::subckt_of;
use crate::copies::further;
use crate::fault::TextFault;
use crate::latch::latch_of;
use crate::open_table::{add_row, begin_table, close_table};
use crate::ports::Ports;
use crate::table::GrowingTable;
use bumpalo::Bump;
use std::alloc::{AllocError, Global};
use vw_design::{Item, Model};
use vw_net::Sequence;
use vw_outside::Name;
use vw_text::Line;

/// A model that is being read.
#[derive(Drop)]
pub struct Block<'a> {
    pub name: Name,
    pub inputs: Ports<'a>,
    pub outputs: Ports<'a>,
    pub clocks: Ports<'a>,
    pub items: Vec<Item>,
    /// The table to which the next row belongs.
    pub table: Option<GrowingTable>,
    ghost shapes: { IsTrue (list_all has_its_shape items.items) },
}

impl<'a> Block<'a> {
    ghost use Rattle.vw_blif.specs.Kinds.{kind};
    ghost use Rattle.vw_blif.specs.declared.kind.Kind.{Kind};
    ghost use Rattle.vw_blif.specs.Spelled.{spelled_model};
    ghost use Rattle.vw_blif.specs.Steps.Blocks.{IsNew, ClosesTable, block_made, TakesLine, RefusesInModel};

    /// A model of which nothing but the name was read.
    pub fn new(alloc: Global, name: Name) -> Result<Box<Self>, AllocError>
        ensures { IfOk result (λ block. IsNew name block.value) }
    {
        let block = Block {
            name,
            inputs: Ports::new(alloc),
            outputs: Ports::new(alloc),
            clocks: Ports::new(alloc),
            items: Vec::new(alloc),
            table: None,
        };
        Ok(Box::new(alloc, block)?)
    }

    /// Puts the open table behind the items.
    pub fn close(&mut self, alloc: Global) -> Result<(), AllocError>
        ensures { OnOk result (ClosesTable self.old self.new) }
    {
        if let Some(table) = self.table.take() {
            self.items.push(close_table(alloc, table)?)?;
        }
        Ok(())
    }

    /// Takes an `.inputs` line.
    pub fn add_inputs(
        &mut self,
        alloc: Global,
        arena: &'a Bump,
        line: &Line,
    ) -> Result<(), TextFault>
        requires { kind line.now ≡ Kind.Inputs }
        ensures takes { OnOk result (TakesLine self.old line.now self.new) }
        ensures refuses { IfErr result (RefusesInModel self.old line.now) }
    {
        self.close(alloc)?;
        self.inputs.extend(alloc, arena, line)?;
        Ok(())
    }

    /// Takes an `.outputs` line.
    pub fn add_outputs(
        &mut self,
        alloc: Global,
        arena: &'a Bump,
        line: &Line,
    ) -> Result<(), TextFault>
        requires { kind line.now ≡ Kind.Outputs }
        ensures takes { OnOk result (TakesLine self.old line.now self.new) }
        ensures refuses { IfErr result (RefusesInModel self.old line.now) }
    {
        self.close(alloc)?;
        self.outputs.extend(alloc, arena, line)?;
        Ok(())
    }

    /// Takes a `.clock` line.
    pub fn add_clocks(
        &mut self,
        alloc: Global,
        arena: &'a Bump,
        line: &Line,
    ) -> Result<(), TextFault>
        requires { kind line.now ≡ Kind.Clock }
        ensures takes { OnOk result (TakesLine self.old line.now self.new) }
        ensures refuses { IfErr result (RefusesInModel self.old line.now) }
    {
        self.close(alloc)?;
        self.clocks.extend(alloc, arena, line)?;
        Ok(())
    }

    /// Takes a `.names` line.
    pub fn add_table(&mut self, alloc: Global, line: &Line) -> Result<(), TextFault>
        requires { kind line.now ≡ Kind.Names }
        ensures takes { OnOk result (TakesLine self.old line.now self.new) }
        ensures refuses { IfErr result (RefusesInModel self.old line.now) }
    {
        self.close(alloc)?;
        self.table = Some(begin_table(alloc, line)?);
        Ok(())
    }

    /// Takes a `.latch` line.
    pub fn add_latch(&mut self, alloc: Global, line: &Line) -> Result<(), TextFault>
        requires { kind line.now ≡ Kind.Latch }
        ensures takes { OnOk result (TakesLine self.old line.now self.new) }
        ensures refuses { IfErr result (RefusesInModel self.old line.now) }
    {
        let words = further(line);
        if words.len() < 2 || words.len() > 5 {
            return Err(TextFault::BadWords(line.number()));
        }
        self.close(alloc)?;
        let latch = latch_of(alloc, line.number(), words)?;
        self.items.push(latch)?;
        Ok(())
    }

    /// Takes a `.subckt` line.
    pub fn add_place(&mut self, alloc: Global, line: &Line) -> Result<(), TextFault>
        requires { kind line.now ≡ Kind.Subckt }
        ensures takes { OnOk result (TakesLine self.old line.now self.new) }
        ensures refuses { IfErr result (RefusesInModel self.old line.now) }
    {
        let words = further(line);
        if words.is_empty() {
            return Err(TextFault::BadWords(line.number()));
        }
        self.close(alloc)?;
        let place = subckt_of(alloc, line.number(), words)?;
        self.items.push(place)?;
        Ok(())
    }

    /// Takes a row.
    pub fn add_row(&mut self, alloc: Global, line: &Line) -> Result<(), TextFault>
        requires { kind line.now ≡ Kind.Row }
        ensures takes { OnOk result (TakesLine self.old line.now self.new) }
        ensures refuses { IfErr result (RefusesInModel self.old line.now) }
    {
        let Some(table) = self.table.take() else {
            return Err(TextFault::BadRow(line.number()));
        };
        self.table = Some(add_row(alloc, table, line)?);
        Ok(())
    }

    /// The model, which has no further line and no open table.
    pub fn into_model(self) -> Model
        requires { self.table ≡ None }
        ensures model { spelled_model result ≡ block_made self.entry [] }
        ensures well_made { IsWellMade result }
    {
        let Block {
            name,
            inputs,
            outputs,
            clocks,
            items,
            table: _,
        } = self;
        Model::make(
            name,
            Sequence::of(inputs.into_names()),
            Sequence::of(outputs.into_names()),
            Sequence::of(clocks.into_names()),
            Sequence::of(items),
        )
    }
}
