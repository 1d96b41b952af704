//! The names of the signals of a wave.
ghost use Rattle.std.specs.Prelude.{◌≡◌, ◌+◌, ◌++◌, ℕ, List, drop, length, IfOk, OnOk};
ghost use Rattle.vw_net.specs.Cells.{latch_count};
ghost use Rattle.vw_design.specs.Paths.{Word};
ghost use Rattle.vw_front.specs.Names.{signal_names};
ghost use Rattle.vw_front.specs.NamedNetlists.{IsNamedNetlistOf};
ghost use Rattle.vw_front.specs.Steps.LatchNames.{latch_names};

use crate::named::NamedNetlist;
use crate::names::push_names;
use std::alloc::{AllocError, Global};
use vw_net::Cell;
use vw_outside::Name;

/// Appends the names of the latches among some cells, of which each drives the net with the name at its place.
fn push_latches(
    alloc: Global,
    cells: &[Cell],
    nets: &[Name],
    names: &mut Vec<Name>,
) -> Result<(), AllocError>
    requires { length nets.now ≡ length cells.now }
    ensures { OnOk result (names.new.items ≡ names.old.items ++ latch_names cells.now nets.now) }
{
    for (number, cell) in cells.iter().enumerate() {
        match cell {
            Cell::Gate { .. } => {}
            Cell::Latch { .. } => names.push(nets[number].copy(alloc)?)?,
        }
    }
    Ok(())
}

impl NamedNetlist {
    /// The names of the nets that the cells drive, in the order of the cells.
    fn driven(&self) -> &[Name]
        ensures { result.now ≡ drop self.now.ordered.flat.inputs self.now.nets }
    {
        &self.nets.as_slice()[self.ordered.flat().inputs() as usize..]
    }

    /// The names of the signals of a wave in which these probes are shown: the outputs of the root, then the probes, then
    /// the nets that the latches drive, in the order of the cells. Where all nets that are watched are shown, there is one for each
    /// output of the netlist and one for each latch.
    pub fn signals(&self, alloc: Global, probes: &[Name]) -> Result<Vec<Name>, AllocError>
        ensures names { IfOk result (λ names.
            (watched : List Word) (text : List ℕ) (is : IsNamedNetlistOf watched text self.now)
            → names.items ≡ signal_names probes.now is.watched.design) }
        ensures count { IfOk result (λ names.
            (watched : List Word) (text : List ℕ) → IsNamedNetlistOf watched text self.now
            → length names.items + length watched ≡ length self.now.ordered.flat.outputs + length probes.now
            + latch_count self.now.ordered.flat.cells) }
    {
        let mut names = Vec::new(alloc);
        push_names(alloc, self.outputs.as_slice(), &mut names)?;
        push_names(alloc, probes, &mut names)?;
        push_latches(
            alloc,
            self.ordered.flat().cells(),
            self.driven(),
            &mut names,
        )?;
        Ok(names)
    }
}
