//! Elaborated designs, and what can be read of them.
ghost use Rattle.std.specs.Prelude.{◌≡◌, ◌<◌, ◌∷◌, ℕ, Some, length, slice_get, IfOk};
ghost use Rattle.vw_design.specs.Accepted.{IsAccepted};
ghost use Rattle.vw_design.specs.Clocks.{columns};
ghost use Rattle.vw_design.specs.Drivers.{driver};
ghost use Rattle.vw_design.specs.Limits.{instance_count, cell_count};
ghost use Rattle.vw_design.specs.Paths.{Word, Path, printed};
ghost use Rattle.vw_design.specs.NetReads.{net_at};
ghost use Rattle.vw_design.specs.PathValue.{place_of_path};
ghost use Rattle.vw_design.specs.Preorder.{instances, cells, Site};
ghost use Rattle.vw_drivers.specs.Names.{reads_of};
ghost use Rattle.vw_instances.specs.Tables.{IsCellSite};
ghost use Rattle.vw_elab.specs.Steps.ByColumns.{driver_by, reading_of};
ghost use Rattle.vw_elab.specs.Numbers.{IsInstance, driver_of};
ghost use Rattle.vw_elab.specs.Steps.DesignParts.{IsElaborated};

use crate::driver::Driver;
use crate::parts::NumberedParts;
use std::alloc::{AllocError, Global};
use std::marker::Model;
use vw_design::Design;
use vw_drivers::Source;
use vw_instances::CellSite;
use vw_net_faults::{Columns, claim_number};
use vw_outside::Name;

/// An instance by numbers.
#[derive(Clone, Copy, Debug, PartialEq, Eq)]
pub struct Instance {
    /// The number of its model in the design.
    pub model: u32,
    /// The number of the instance that places it; 0 for the root.
    pub parent: u32,
    /// Its place there: the number, from 1, of the `.subckt` item among those of the model; 0 for the root.
    pub place: u32,
}

/// A design without a fault, with its instances, cells, drivers and columns by numbers. Contracts see it as the design.
pub struct Elaborated {
    design: Design,
    parts: NumberedParts,
    columns: Columns,
}

impl Drop for Elaborated {
    fn drop(self) {
        let Elaborated {
            design: _,
            parts: _,
            columns: _,
        } = self;
    }
}

impl Model for Elaborated {
    ghost use Rattle.vw_design.specs.declared.design.Design.{Design as TheDesign};
    ghost use Rattle.vw_elab.specs.Steps.DesignParts.{IsElaborated};

    ghost Value = { TheDesign };

    ghost view = { λ elaborated. elaborated.design };

    ghost invariant = { λ elaborated.
        IsElaborated elaborated.design elaborated.parts elaborated.columns };
}

/// What drives a net, by the columns of ports.
fn driver_by(columns: &Columns, source: Option<Source>) -> Option<Driver>
    ensures { result ≡ driver_by columns.now.ports source }
{
    match source? {
        Source::Cell(cell) => Some(Driver::Cell(cell)),
        Source::Port(number) => match columns.ports.as_slice().get(number as usize)? {
            Some(column) => Some(Driver::Column(*column)),
            None => Some(Driver::Clock),
        },
    }
}

/// What a cell reads: the instance of the net, and the number of the first claim on its name there.
#[derive(Clone, Copy, Debug, PartialEq, Eq)]
pub(crate) struct Reading {
    pub instance: u32,
    pub claim: Option<u32>,
}

/// What a cell reads, where it has an input with this number.
fn reading_of(parts: &NumberedParts, cell: u32, input: u32) -> Option<Reading>
    ensures { result ≡ reading_of parts.now cell input }
{
    let site = parts.cells.as_slice().get(cell as usize)?;
    let entry = parts.tables.instances().get(site.instance as usize)?;
    let names = parts.tables.names().get(entry.model as usize)?;
    let reads = names.reads().get(site.item as usize)?;
    let claim = reads.as_slice().get(input as usize)?;
    Some(Reading {
        instance: site.instance,
        claim: *claim,
    })
}

impl Elaborated {
    /// The elaborated design of these parts.
    pub(crate) fn of(design: Design, parts: NumberedParts, columns: Columns) -> Self
        requires { IsElaborated design parts columns }
        ensures { result ≡ design }
    {
        Elaborated {
            design,
            parts,
            columns,
        }
    }

    /// The design. It takes no memory.
    pub fn design(&self) -> &Design
        ensures { result.now ≡ self.now }
    {
        &self.design
    }

    /// The law that the design has no fault. It does nothing.
    pub fn is_accepted(&self)
        ensures { IsAccepted self.now }
    {
        // the type keeps it
        let _ = &self.design;
    }

    /// How many columns a stimulus has. It takes no memory.
    pub fn columns(&self) -> u32
        ensures { result ≡ length (columns self.now) }
    {
        self.columns.inputs.len() as u32
    }

    /// The name of a column, an input of the root. It takes no memory.
    pub fn column(&self, k: u32) -> &Name
        requires { k < length (columns self.now) }
        ensures { slice_get (columns self.now) k ≡ Some result.now }
    {
        let place = self.columns.inputs.as_slice()[k as usize];
        &self.design.models()[0].inputs()[place as usize]
    }

    /// How many instances there are. It takes no memory.
    pub fn instances(&self) -> u32
        ensures { result ≡ instance_count self.now }
    {
        self.parts.tables.instances().len() as u32
    }

    /// The instance with a number. Instances are numbered in preorder, and the root has number 0. It takes no memory.
    pub fn instance(&self, k: u32) -> Instance
        requires { k < instance_count self.now }
        ensures { IsInstance self.now k result }
    {
        let entry = &self.parts.tables.instances()[k as usize];
        Instance {
            model: entry.model,
            parent: entry.parent,
            place: entry.place,
        }
    }

    /// The number of the instance at a place of an instance: what its `.subckt` item with this number, counted from 1,
    /// places. Nothing where the instance has no such place. Nothing is said of an instance that isn't there. It takes no
    /// memory and looks up no name.
    pub fn child(&self, instance: u32, place: u32) -> Option<u32>
        ensures { (path : Path) → slice_get (instances self.now) instance ≡ Some path
            → result ≡ place_of_path (instances self.now) (place ∷ path) }
    {
        self.parts.tables.child(instance, place)
    }

    /// How many cells there are: gates and latches. It takes no memory.
    pub fn cells(&self) -> u32
        ensures { result ≡ cell_count self.now }
    {
        self.parts.cells.len() as u32
    }

    /// The instance and the item of a cell. Cells are numbered in preorder. It takes no memory.
    pub fn site(&self, cell: u32) -> CellSite
        requires { cell < cell_count self.now }
        ensures { (site : Site) → slice_get (cells self.now) cell ≡ Some site
            → IsCellSite (instances self.now) site result }
    {
        self.parts.cells.as_slice()[cell as usize]
    }

    /// The driver of a net: of a name of an instance. Nothing where the net has none. Nothing is said of an instance that
    /// isn't there. It takes no memory.
    pub fn driver(&self, instance: u32, name: &Name) -> Option<Driver>
        ensures { (path : Path) → slice_get (instances self.now) instance ≡ Some path
            → result ≡ driver_of self.now (driver self.now path name.now) }
    {
        self.driver_named(instance, name.as_slice())
    }

    /// The driver of a net, as `driver`, of a name that is given by its bytes. Nothing where the net has none. Nothing is
    /// said of an instance that isn't there. It takes no memory.
    pub fn driver_named(&self, instance: u32, name: &[u8]) -> Option<Driver>
        ensures { (path : Path) → slice_get (instances self.now) instance ≡ Some path
            → result ≡ driver_of self.now (driver self.now path name.now) }
    {
        let tables = &self.parts.tables;
        let claim = claim_number(tables, instance, name);
        let source = self.parts.drivers.source(tables, instance, claim);
        driver_by(&self.columns, source)
    }

    /// The driver of what a cell reads: of an input of a gate, by its number from 0; of the data input of a latch, which is
    /// number 0, and of its control, which is number 1. It takes no memory and looks up no name.
    pub fn read(&self, cell: u32, input: u32) -> Option<Driver>
        ensures { (site : Site) (name : Word) → slice_get (cells self.now) cell ≡ Some site
            → slice_get (reads_of site.item) input ≡ Some name
            → result ≡ driver_of self.now (driver self.now site.path name) }
    {
        let reading = reading_of(&self.parts, cell, input)?;
        let source = self
            .parts
            .drivers
            .source(&self.parts.tables, reading.instance, reading.claim);
        driver_by(&self.columns, source)
    }

    /// A net of an instance as it is printed: each place followed by `/`, from the root on, and then the name.
    pub fn printed(&self, alloc: Global, instance: u32, name: &Name) -> Result<Name, AllocError>
        ensures { IfOk result (λ text. (path : Path)
            → slice_get (instances self.now) instance ≡ Some path
            → text ≡ printed (net_at path name.now)) }
    {
        let nets = self.parts.nets(&self.design);
        nets.printed(alloc, instance, name)
    }
}
