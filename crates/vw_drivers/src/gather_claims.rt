//! Gathers the claims of a model.
ghost use Rattle.std.specs.Prelude.{◌≡◌, ◌≤◌, ◌<◌, ◌-◌, ◌^◌, length, slice_get, option_and_then, IfOk, IfSome, OnOk, []};
ghost use Rattle.vw_design.specs.ModelNumbers.{AreModelNumbers};
ghost use Rattle.vw_design.specs.Paths.{placings};
ghost use Rattle.vw_design.specs.Claims.{and_behind};
ghost use Rattle.vw_drivers.specs.Outputs.{AreOutputs};
ghost use Rattle.vw_drivers.specs.Steps.GatheredClaims.{model_outputs_at, port_first, with_firsts, binds_made, item_made, with_claim, with_first_claims, with_item_claims, ports_only, IsModelNumber};
ghost use Rattle.vw_drivers.specs.Claimed.{AreClaims};

use crate::claim::{Claim, RepeatedClaim};
use crate::firsts::Firsts;
use crate::item_numbers::{in_32_bits, target_behind};
use crate::model_claims::ModelClaims;
use crate::model_outputs::Outputs;
use std::alloc::{AllocError, Global};
use vw_design::{Bind, Design, Item, Model};
use vw_models::Targets;
use vw_outside::Name;

/// How many `.subckt` items stand behind an item, given how many stood before it.
fn behind(item: &Item, before: usize) -> usize
    requires { before < 2 ^ 64 - 1 }
    ensures { result ≡ and_behind item.now before }
{
    match item {
        Item::Sub { .. } => before + 1,
        _ => before,
    }
}

impl ModelClaims {
    /// The claims of the ports of a model.
    fn of_ports(alloc: Global, model: &Model) -> Result<Self, AllocError>
        ensures { IfOk result (λ claims. claims ≡ ports_only model.now) }
    {
        let mut firsts = Firsts::new(alloc);
        firsts.add_ports(alloc, model.inputs())?;
        firsts.add_ports(alloc, model.clocks())?;
        Ok(ModelClaims {
            firsts,
            again: None,
        })
    }

    /// Adds a claim of an item on a name.
    fn add(&mut self, alloc: Global, item: u32, name: &Name, claim: Claim) -> Result<(), AllocError>
        ensures { OnOk result (self.new ≡ with_claim item name.now claim self.old) }
    {
        let is_new = self.firsts.add(alloc, name.as_slice(), claim)?;
        if !is_new && self.again.is_none() {
            let name = name.copy(alloc)?;
            self.again = Some(RepeatedClaim { item, name });
        }
        Ok(())
    }

    /// Adds what the bindings of an item claim, where the placed model has these outputs.
    fn add_binds(
        &mut self,
        alloc: Global,
        item: u32,
        place: u32,
        binds: &[Bind],
        outputs: &Outputs,
    ) -> Result<(), AllocError>
        ensures { OnOk result (self.new
            ≡ with_first_claims item (binds_made outputs.now place 0 binds.now) self.old) }
    {
        for (number, bind) in binds.iter().enumerate() {
            if outputs.has(bind.formal().as_slice()) {
                let bind_number = in_32_bits(number)?;
                let claim = Claim::Bound {
                    place,
                    bind: bind_number,
                };
                self.add(alloc, item, bind.actual(), claim)?;
            }
        }
        Ok(())
    }

    /// Adds what the bindings of an item claim, where it places the model with this number.
    fn add_placed(
        &mut self,
        alloc: Global,
        item: u32,
        place: u32,
        binds: &[Bind],
        outputs: &[Outputs],
        target: Option<u32>,
    ) -> Result<(), AllocError>
        requires { IfSome target (λ model. model < length outputs.now) }
        ensures { OnOk result (self.new
            ≡ with_first_claims item (binds_made
            (model_outputs_at outputs.now target) place 0 binds.now) self.old) }
    {
        match target {
            Some(model) => self.add_binds(alloc, item, place, binds, &outputs[model as usize]),
            None => Ok(()),
        }
    }

    /// Adds what an item claims, before which stand so many `.subckt` items.
    fn add_item(
        &mut self,
        alloc: Global,
        design: &Design,
        outputs: &[Outputs],
        target: Option<u32>,
        number: u32,
        before: usize,
        item: &Item,
    ) -> Result<(), AllocError>
        requires outputs { AreOutputs design.now outputs.now }
        requires target { IsModelNumber design.now item.now target }
        requires within { before ≤ number }
        ensures { OnOk result (self.new
            ≡ with_first_claims number (item_made design.now number before item.now) self.old) }
    {
        match item {
            Item::Names { out, .. } => self.add(alloc, number, out, Claim::Driven(number)),
            Item::Latch { q, .. } => self.add(alloc, number, q, Claim::Driven(number)),
            Item::Sub { binds, .. } => {
                let place = in_32_bits(before + 1)?;
                self.add_placed(alloc, number, place, binds.as_slice(), outputs, target)
            }
        }
    }

    /// Adds what the items of a model claim, which place the models with these numbers.
    fn add_items(
        &mut self,
        alloc: Global,
        design: &Design,
        outputs: &[Outputs],
        placed: &[Option<u32>],
        items: &[Item],
    ) -> Result<(), AllocError>
        requires outputs { AreOutputs design.now outputs.now }
        requires placed { AreModelNumbers design.now (placings items.now) placed.now }
        ensures { OnOk result (self.new ≡ with_item_claims design.now 0 0 items.now self.old) }
    {
        let mut before = 0;
        for (index, item) in items.iter().enumerate() {
            let number = in_32_bits(index)?;
            let target = target_behind(placed, before);
            self.add_item(alloc, design, outputs, target, number, before, item)?;
            before = behind(item, before);
        }
        Ok(())
    }
}

/// The first claim on each claimed name of the model with this number, and the first item that claims a name again.
/// Ports come first, then the items in the order of the text, and the bindings of an item in their order. It takes the
/// outputs of each model, and the numbers of the models that each model places. It is linear in the text of the model.
pub fn claims_of(
    alloc: Global,
    targets: &Targets,
    outputs: &[Outputs],
    model: u32,
) -> Result<ModelClaims, AllocError>
    requires outputs { AreOutputs targets.now.design.now outputs.now }
    requires within { model < length targets.now.design.now.models }
    ensures { IfOk result (AreClaims targets.now.design.now
        (slice_get targets.now.design.now.models model)) }
{
    let placed = targets.numbers[model as usize].as_slice();
    let model = &targets.design.models()[model as usize];
    let mut claims = ModelClaims::of_ports(alloc, model)?;
    claims.add_items(alloc, targets.design, outputs, placed, model.items())?;
    Ok(claims)
}
