//! Ports of the root by the numbers of their claims.
ghost use Rattle.std.specs.Prelude.{◌≡◌, ◌==◌, [], ℕ, not, ◌++◌, Some, None, find, map, slice_get, option_to_list, IfOk};
ghost use Rattle.vw_design.specs.declared.item.Item.{Item};
ghost use Rattle.vw_design.specs.Clocks.{control_ports};
ghost use Rattle.vw_design.specs.Paths.{Path, Word, model_at, lent};
ghost use Rattle.vw_design.specs.PathValue.{item_at};
ghost use Rattle.vw_design.specs.Preorder.{instances};
ghost use Rattle.vw_drivers.specs.Firsts.{number_named};
ghost use Rattle.vw_drivers.specs.Tables.{root_firsts};
ghost use Rattle.vw_net_faults.specs.Steps.Ports.{port_number, item_ports, is_found_number, root_ports};

use crate::items::{number_in_row, written_control};
use crate::nets::Nets;
use std::alloc::{AllocError, Global};
use vw_design::Model;
use vw_drivers::{ModelClaims, Source};
use vw_instances::CellSite;
use vw_outside::Name;

impl<'a> Nets<'a> {
    /// The model of the root.
    pub(crate) fn root(&self) -> &'a Model
        ensures { Some result.now ≡ model_at self.now.design.now [] }
    {
        &self.design.models()[0]
    }

    /// The claims of the model of the root.
    pub(crate) fn root_claims(&self) -> &'a ModelClaims
        ensures { result.now.firsts ≡ root_firsts self.now.tables.now }
    {
        &self.tables.claims()[0]
    }

    /// The port of the root that drives the control of a cell, by the number of its claim.
    #[tactic(auto, using(crate::proofs::CellItems::item_stands, crate::proofs::CellItems::numbers_stand))]
    fn control_port(&self, cell: CellSite) -> Option<u32>
        ensures { (path : Path) (item : Item)
            → slice_get (instances self.now.design.now) cell.instance ≡ Some path
            → item_at self.now.design.now path cell.item ≡ Some item
            → map (number_named (root_firsts self.now.tables.now))
            (item_ports self.now.design.now path item)
            ≡ map (λ (number : ℕ). Some number) (option_to_list result) }
    {
        let item = self.item_found(cell)?;
        let numbers = self.numbers_by(cell)?;
        match written_control(item) {
            Some(_) => port_number(self.source(cell.instance, number_in_row(numbers, 1))),
            None => None,
        }
    }

    /// The ports of the root that drive controls, in preorder, by the numbers of their claims: at most one for each
    /// latch.
    pub(crate) fn control_ports(&self, alloc: Global) -> Result<Vec<u32>, AllocError>
        ensures { IfOk result (λ ports.
            map (number_named (root_firsts self.now.tables.now)) (control_ports self.now.design.now)
            ≡ map (λ (number : ℕ). Some number) ports.items) }
    {
        let mut ports = Vec::new(alloc);
        for cell in self.cells {
            if let Some(port) = self.control_port(*cell) {
                ports.push(port)?;
            }
        }
        Ok(ports)
    }

    /// The port of the root whose claim has a number.
    pub(crate) fn port_named(&self, number: u32) -> Option<&'a Name>
        ensures { lent result
            ≡ find (λ name. is_found_number (number_named (root_firsts self.now.tables.now) name) number)
            (root_ports self.now.design.now) }
    {
        let claims = self.root_claims();
        let root = self.root();
        match name_numbered(claims, root.inputs(), number) {
            Some(name) => Some(name),
            None => name_numbered(claims, root.clocks(), number),
        }
    }
}

/// The port that a driver is, by the number of its claim.
fn port_number(source: Option<Source>) -> Option<u32>
    ensures { result ≡ port_number source }
{
    match source {
        Some(Source::Port(number)) => Some(number),
        _ => None,
    }
}

/// The first of some names on which the first claim has a number.
fn name_numbered<'a>(claims: &ModelClaims, names: &'a [Name], number: u32) -> Option<&'a Name>
    ensures { lent result
        ≡ find (λ name. is_found_number (number_named claims.now.firsts name) number) names.now }
{
    for name in names {
        if is_port_number(claims.first(name.as_slice()), number) {
            return Some(name);
        }
    }
    None
}

/// Whether a claim that was found has a number.
fn is_port_number(found: Option<u32>, number: u32) -> bool
    ensures { result ≡ is_found_number found number }
{
    match found {
        Some(found) => found == number,
        None => false,
    }
}

/// The first of some ports.
pub(crate) fn first_port(ports: &[u32]) -> Option<u32>
    ensures { result ≡ slice_get ports.now 0 }
{
    ports.get(0).copied()
}

/// The first port that is another one.
pub(crate) fn other_port(ports: &[u32], first: u32) -> Option<u32>
    ensures { result ≡ find (λ port. not (first == port)) ports.now }
{
    ports.iter().copied().find(|port| first != *port)
}
