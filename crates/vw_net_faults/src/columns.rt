//! Columns of a stimulus.
ghost use Rattle.std.specs.Prelude.{◌≡◌, ◌++◌, ◌∷◌, [], None, false, length, replicate, slice_get, slice_index_or, IfOk, OnOk};
ghost use Rattle.vw_drivers.specs.Firsts.{number_named};
ghost use Rattle.vw_drivers.specs.Tables.{root_firsts};
ghost use Rattle.vw_net_faults.specs.Columns.{AreColumns};
ghost use Rattle.vw_net_faults.specs.Steps.FreeNames.{unflagged, with_column, AreFree};

use crate::nets::Nets;
use std::alloc::{AllocError, Global};
use vw_drivers::{ModelClaims, in_32_bits};
use vw_net::Sequence;
use vw_outside::Name;

/// The columns of a stimulus: the inputs of the root that are no clock ports.
pub struct Columns {
    /// For each column, its place among the inputs of the root.
    pub inputs: Sequence<u32>,
    /// For each claim of the root's model, by its number, the column of the port; nothing where it is a clock port, or no
    /// port.
    pub ports: Sequence<Option<u32>>,
}

impl Drop for Columns {
    fn drop(self) {
        let Columns {
            inputs: _,
            ports: _,
        } = self;
    }
}

impl Columns {
    /// The columns of a design. Clock ports are the `.clock` names of the root, and the ports to which controls lead.
    pub fn of(alloc: Global, nets: &Nets) -> Result<Self, AllocError>
        ensures { IfOk result (AreColumns nets.now.design.now
            (root_firsts nets.now.tables.now)) }
    {
        let clock_flags = nets.clock_flags(alloc)?;
        let names = nets.root().inputs();
        let columns = Columns::of_names(alloc, nets.root_claims(), clock_flags.as_slice(), names)?;
        Ok(columns)
    }

    /// The columns of those names whose claims have no flag.
    fn of_names(
        alloc: Global,
        claims: &ModelClaims,
        clock_flags: &[bool],
        names: &[Name],
    ) -> Result<Self, AllocError>
        ensures { IfOk result (AreFree claims.now.firsts clock_flags.now names.now) }
    {
        let mut inputs = Vec::new(alloc);
        let mut ports = no_columns(alloc, claims.count())?;
        for (place, name) in names.iter().enumerate() {
            if let Some(number) = free_number(claims, clock_flags, name) {
                add_column(&mut inputs, &mut ports, place, number)?;
            }
        }
        Ok(Columns {
            inputs: Sequence::of(inputs),
            ports: Sequence::of(ports),
        })
    }
}

/// For each of so many claims no column.
fn no_columns(alloc: Global, count: usize) -> Result<Vec<Option<u32>>, AllocError>
    ensures { IfOk result (λ ports. ports.items ≡ replicate count None) }
{
    let ports = vec![in alloc; None; count]?;
    Ok(ports)
}

/// The number of the claim on a name, where it has no flag.
fn free_number(claims: &ModelClaims, clock_flags: &[bool], name: &Name) -> Option<u32>
    ensures { result ≡ unflagged clock_flags.now (number_named claims.now.firsts name.now) }
{
    let number = claims.first(name.as_slice())?;
    if has_flag(clock_flags, number) {
        None
    } else {
        Some(number)
    }
}

/// Whether a number has a flag.
fn has_flag(clock_flags: &[bool], number: u32) -> bool
    ensures { result ≡ slice_index_or clock_flags.now number false }
{
    clock_flags.get(number as usize).copied().unwrap_or(false)
}

/// Adds the name at a place as a further column, whose claim has this number. 2 ^ 32 inputs have no room.
fn add_column(
    inputs: &mut Vec<u32>,
    ports: &mut Vec<Option<u32>>,
    place: usize,
    number: u32,
) -> Result<(), AllocError>
    ensures inputs { OnOk result (inputs.new.items ≡ inputs.old.items ++ place ∷ []) }
    ensures ports { OnOk result (ports.new.items
        ≡ with_column ports.old.items number (length inputs.old.items)) }
{
    let column = in_32_bits(inputs.len())?;
    inputs.push(in_32_bits(place)?)?;
    set_column(ports, number, column);
    Ok(())
}

/// Writes the column of a claim that has none.
fn set_column(ports: &mut Vec<Option<u32>>, number: u32, column: u32)
    ensures { ports.new.items ≡ with_column ports.old.items number column }
{
    let place = number as usize;
    if let Some(None) = ports.get(place) {
        ports[place] = Some(column);
    }
}
