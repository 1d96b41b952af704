//! The first net that is looked for.
ghost use Rattle.std.specs.Prelude.{◌≡◌, [], ◌∷◌, Some, slice_get, IfOk};
ghost use Rattle.vw_design.specs.declared.item.Item.{Item};
ghost use Rattle.vw_design.specs.Drivers.{driver};
ghost use Rattle.vw_design.specs.Paths.{Path, Word, model_at, model_outputs, lent};
ghost use Rattle.vw_design.specs.PathValue.{item_at};
ghost use Rattle.vw_design.specs.Preorder.{instances};
ghost use Rattle.vw_design.specs.NetReads.{data_of, controls_of};
ghost use Rattle.vw_drivers.specs.Firsts.{number_named};
ghost use Rattle.vw_drivers.specs.Names.{reads_of};
ghost use Rattle.vw_drivers.specs.Tables.{instance_firsts};
ghost use Rattle.vw_net_faults.specs.Nets.{printed_net};
ghost use Rattle.vw_net_faults.specs.Steps.Wanted.{wants, FindsAmong, HasFlagsOf, HasFlagsOf-prop, wanted_names, wanted_among, wanted_read, first_wanted};

use crate::items::{claim_number, number_in_row, written_control};
use crate::nets::Nets;
use crate::wanted::Wanted;
use std::alloc::{AllocError, Global};
use vw_design::Item;
use vw_instances::CellSite;
use vw_outside::Name;

/// A search among the nets that are read.
#[derive(Clone, Copy)]
pub(crate) struct Search<'n, 'a> {
    pub(crate) nets: &'n Nets<'a>,
    /// What is looked for.
    pub(crate) wanted: &'n Wanted<'n>,
    ghost flags: { HasFlagsOf nets.now wanted.now } by { HasFlagsOf-prop nets.now wanted.now },
}

impl<'n, 'a> Search<'n, 'a> {
    /// Whether the nets of an instance on whose names the first claim has this number are looked for.
    fn is_wanted(&self, instance: u32, number: Option<u32>) -> bool
        ensures { (path : Path) (name : Word)
            → slice_get (instances self.now.nets.now.design.now) instance ≡ Some path
            → number ≡ number_named (instance_firsts self.now.nets.now.tables.now instance) name
            → result ≡ wants self.now.nets.now.design.now self.now.wanted.now
            (driver self.now.nets.now.design.now path name) }
    {
        self.wanted.takes(self.nets.source(instance, number))
    }

    /// A name of an instance, where it is looked for.
    fn only(&self, instance: u32, name: &'a Name, number: Option<u32>) -> Option<&'a Name>
        ensures { (path : Path)
            → slice_get (instances self.now.nets.now.design.now) instance ≡ Some path
            → number ≡ number_named (instance_firsts self.now.nets.now.tables.now instance) name.now
            → lent result
            ≡ wanted_among self.now.nets.now.design.now self.now.wanted.now path (name.now ∷ []) }
    {
        if self.is_wanted(instance, number) {
            Some(name)
        } else {
            None
        }
    }

    /// The first of some names of an instance that is looked for.
    fn first_among(
        &self,
        instance: u32,
        names: &'a [Name],
        numbers: &[Option<u32>],
    ) -> Option<&'a Name>
        ensures { FindsAmong self.now.nets.now self.now.wanted.now instance names.now
            numbers.now names.now (lent result) }
    {
        for (place, name) in names.iter().enumerate() {
            let number = number_in_row(numbers, place);
            if self.is_wanted(instance, number) {
                return Some(name);
            }
        }
        None
    }

    /// The first name that an item reads as data and that is looked for.
    fn data_found(&self, instance: u32, item: &'a Item, numbers: &[Option<u32>]) -> Option<&'a Name>
        ensures { FindsAmong self.now.nets.now self.now.wanted.now instance (reads_of item.now)
            numbers.now (data_of item.now) (lent result) }
    {
        match item {
            Item::Names { ins, .. } => self.first_among(instance, ins.as_slice(), numbers),
            Item::Latch { d, .. } => self.only(instance, d, number_in_row(numbers, 0)),
            Item::Sub { .. } => None,
        }
    }

    /// The control of an item, where it is looked for.
    fn control_found(
        &self,
        instance: u32,
        item: &'a Item,
        numbers: &[Option<u32>],
    ) -> Option<&'a Name>
        ensures { FindsAmong self.now.nets.now self.now.wanted.now instance (reads_of item.now)
            numbers.now (controls_of item.now) (lent result) }
    {
        match written_control(item) {
            Some(control) => self.only(instance, control, number_in_row(numbers, 1)),
            None => None,
        }
    }

    /// The first name of an item that is looked for.
    fn read_found(&self, instance: u32, item: &'a Item, numbers: &[Option<u32>]) -> Option<&'a Name>
        ensures { FindsAmong self.now.nets.now self.now.wanted.now instance (reads_of item.now)
            numbers.now (wanted_names self.now.wanted.now item.now) (lent result) }
    {
        match self.wanted {
            Wanted::Undriven => match self.data_found(instance, item, numbers) {
                Some(name) => Some(name),
                None => self.control_found(instance, item, numbers),
            },
            Wanted::Gated => self.control_found(instance, item, numbers),
            Wanted::ClockPort(_) => self.data_found(instance, item, numbers),
        }
    }

    /// The first name of the item of a cell that is looked for.
    #[tactic(auto, using(crate::proofs::CellItems::item_stands, crate::proofs::CellItems::numbers_stand))]
    fn wanted_at(&self, cell: CellSite) -> Option<&'a Name>
        ensures { (path : Path) (item : Item)
            → slice_get (instances self.now.nets.now.design.now) cell.instance ≡ Some path
            → item_at self.now.nets.now.design.now path cell.item ≡ Some item
            → lent result
            ≡ wanted_among self.now.nets.now.design.now self.now.wanted.now path
            (wanted_names self.now.wanted.now item) }
    {
        let item = self.nets.item_found(cell)?;
        let numbers = self.nets.numbers_by(cell)?;
        self.read_found(cell.instance, item, numbers)
    }

    /// The first net that a gate or a latch reads and that is looked for.
    pub(crate) fn wanted_read(&self, alloc: Global) -> Result<Option<Name>, AllocError>
        ensures { IfOk result (λ found. found
            ≡ printed_net (wanted_read self.now.nets.now.design.now self.now.wanted.now)) }
    {
        for cell in self.nets.cells {
            let found = self.wanted_at(*cell);
            if let Some(name) = found {
                let net = self.nets.printed(alloc, cell.instance, name)?;
                return Ok(Some(net));
            }
        }
        Ok(None)
    }

    /// The first output of the root that is looked for.
    fn wanted_output(&self) -> Option<&'a Name>
        ensures { lent result ≡ wanted_among self.now.nets.now.design.now self.now.wanted.now []
            (model_outputs (model_at self.now.nets.now.design.now [])) }
    {
        self.output_among(self.nets.root().outputs())
    }

    /// The first of some names of the root that is looked for.
    fn output_among(&self, names: &'a [Name]) -> Option<&'a Name>
        ensures { lent result
            ≡ wanted_among self.now.nets.now.design.now self.now.wanted.now [] names.now }
    {
        for name in names {
            let number = claim_number(self.nets.tables, 0, name.as_slice());
            if self.is_wanted(0, number) {
                return Some(name);
            }
        }
        None
    }

    /// The first net that is read and looked for.
    pub(crate) fn first_wanted(&self, alloc: Global) -> Result<Option<Name>, AllocError>
        ensures { IfOk result (λ found. found
            ≡ printed_net (first_wanted self.now.nets.now.design.now self.now.wanted.now)) }
    {
        let read = self.wanted_read(alloc)?;
        if read.is_some() {
            return Ok(read);
        }
        match self.wanted_output() {
            Some(name) => {
                let net = self.nets.printed(alloc, 0, name)?;
                Ok(Some(net))
            }
            None => Ok(None),
        }
    }
}
