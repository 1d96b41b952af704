//! Nets with two claims.
ghost use Rattle.std.specs.Prelude.{◌≡◌, ◌+◌, Some, length, option_map, slice_get, IfOk};
ghost use Rattle.vw_design.specs.NetFaults.{two_drivers};
ghost use Rattle.vw_design.specs.Paths.{Path};
ghost use Rattle.vw_design.specs.Preorder.{instances};
ghost use Rattle.vw_net_faults.specs.Nets.{printed_net};
ghost use Rattle.vw_net_faults.specs.Steps.SecondClaims.{again_by, position_by, is_earlier, IsSecondAt, IsFirstSecond};

use crate::nets::Nets;
use std::alloc::{AllocError, Global};
use vw_drivers::RepeatedClaim;
use vw_instances::entries_give_numbers;
use vw_outside::Name;

/// The first item of an instance that claims a name again.
#[derive(Clone, Copy)]
pub(crate) struct Second<'a> {
    pub(crate) instance: u32,
    /// The place of the item among all items in preorder.
    pub(crate) position: u64,
    pub(crate) name: &'a Name,
}

impl<'a> Nets<'a> {
    /// The net whose second claim comes first in preorder.
    pub fn two_drivers(&self, alloc: Global) -> Result<Option<Name>, AllocError>
        ensures { IfOk result (λ found. found ≡ printed_net (two_drivers self.now.design.now)) }
    {
        match self.first_second() {
            Some(second) => {
                let net = self.printed(alloc, second.instance, second.name)?;
                Ok(Some(net))
            }
            None => Ok(None),
        }
    }

    /// The first item of all that claims a name again.
    fn first_second(&self) -> Option<Second<'a>>
        ensures { IsFirstSecond self.now.design.now (length self.now.tables.now.instances) result }
    {
        let mut first = None;
        for instance in 0..self.tables.instances().len() as u32 {
            let found = self.second_in(instance);
            if comes_first(&found, &first) {
                first = found;
            }
        }
        first
    }

    /// The first item of an instance that claims a name again.
    fn second_in(&self, instance: u32) -> Option<Second<'a>>
        ensures { (path : Path) → slice_get (instances self.now.design.now) instance ≡ Some path
            → IsSecondAt self.now.design.now path instance result }
    {
        entries_give_numbers();
        let again = self.again_in(instance)?;
        let position = self.position(instance, again.item())?;
        Some(Second {
            instance,
            position,
            name: again.name(),
        })
    }

    /// The first item of the model of an instance that claims a name again.
    fn again_in(&self, instance: u32) -> Option<&'a RepeatedClaim>
        ensures { option_map (λ again. again.now) result ≡ again_by self.now.tables.now instance }
    {
        let entry = self.tables.instances().get(instance as usize)?;
        let claims = self.tables.claims().get(entry.model as usize)?;
        claims.again()
    }

    /// The place of an item of an instance among all items in preorder.
    fn position(&self, instance: u32, item: u32) -> Option<u64>
        ensures { result ≡ position_by self.now.tables.now instance item }
    {
        let entry = self.tables.instances().get(instance as usize)?;
        let before = self.tables.before().get(entry.model as usize)?;
        let before = before.as_slice().get(item as usize)?;
        let place = place_behind(entry.cells, instance, before.cells, before.instances);
        Some(place)
    }
}

/// The place of an item by the cells and instances before its instance, and by those between them.
fn place_behind(cells: u32, instance: u32, cells_between: u32, instances_between: u32) -> u64
    ensures { result ≡ cells + instance + (cells_between + instances_between) }
{
    let outside = u64::from(cells) + u64::from(instance);
    outside + (u64::from(cells_between) + u64::from(instances_between))
}

/// Whether an item is there and comes before another one.
fn comes_first(found: &Option<Second>, first: &Option<Second>) -> bool
    ensures { result ≡ is_earlier found.now first.now }
{
    match (found, first) {
        (Some(found), Some(first)) => found.position < first.position,
        (Some(_), None) => true,
        (None, _) => false,
    }
}
