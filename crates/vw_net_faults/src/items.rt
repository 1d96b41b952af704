//! Items of cells, and the claims and drivers of names by numbers.
ghost use Rattle.std.specs.Prelude.{◌≡◌, option_map, option_and_then, option_to_list, slice_get};
ghost use Rattle.vw_design.specs.NetReads.{controls_of};
ghost use Rattle.vw_design.specs.Paths.{lent};
ghost use Rattle.vw_drivers.specs.Drivers.{IsSource};
ghost use Rattle.vw_drivers.specs.Firsts.{number_named};
ghost use Rattle.vw_drivers.specs.Tables.{instance_firsts};
ghost use Rattle.vw_net_faults.specs.Steps.Items.{lent_item, item_at_site, numbers_by};

use crate::nets::Nets;
use vw_design::Item;
use vw_drivers::{Source, Tables};
use vw_instances::CellSite;
use vw_outside::Name;

impl<'a> Nets<'a> {
    /// The item of a cell.
    pub(crate) fn item_found(&self, cell: CellSite) -> Option<&'a Item>
        ensures { lent_item result ≡ item_at_site self.now.design.now self.now.tables.now cell }
    {
        let entry = self.tables.instances().get(cell.instance as usize)?;
        let model = self.design.models().get(entry.model as usize)?;
        model.items().get(cell.item as usize)
    }

    /// The numbers of the first claims on what the item of a cell reads.
    pub(crate) fn numbers_by(&self, cell: CellSite) -> Option<&'a [Option<u32>]>
        ensures { option_map (λ numbers. numbers.now) result ≡ numbers_by self.now.tables.now cell }
    {
        let entry = self.tables.instances().get(cell.instance as usize)?;
        let names = self.tables.names().get(entry.model as usize)?;
        let numbers = names.reads().get(cell.item as usize)?;
        Some(numbers.as_slice())
    }

    /// The driver of the nets of an instance on whose names the first claim has this number.
    pub(crate) fn source(&self, instance: u32, claim: Option<u32>) -> Option<Source>
        ensures { IsSource self.now.design.now self.now.tables.now instance claim result }
    {
        self.drivers.source(self.tables, instance, claim)
    }
}

/// The number of the first claim on a name of an instance. Nothing where there is no such claim, or no such instance. It
/// takes no memory.
pub fn claim_number(tables: &Tables, instance: u32, name: &[u8]) -> Option<u32>
    ensures { result ≡ number_named (instance_firsts tables.now instance) name.now }
{
    let entry = tables.instances().get(instance as usize)?;
    let claims = tables.claims().get(entry.model as usize)?;
    claims.first(name)
}

/// The number at a place.
pub(crate) fn number_in_row(numbers: &[Option<u32>], place: usize) -> Option<u32>
    ensures { result ≡ option_and_then (λ number. number) (slice_get numbers.now place) }
{
    numbers.get(place).copied().flatten()
}

/// The control of an item.
pub(crate) fn written_control(item: &Item) -> Option<&Name>
    ensures { option_to_list (lent result) ≡ controls_of item.now }
{
    match item {
        Item::Latch { control, .. } => control.as_ref(),
        _ => None,
    }
}
