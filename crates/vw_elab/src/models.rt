//! Faults of models, and the models by numbers.
ghost use Rattle.std.specs.Prelude.{◌≡◌, None};
ghost use Rattle.vw_design.specs.ModelFaults.{unknown_model};
ghost use Rattle.vw_design.specs.ModelNumbers.{AreModelsReached, IsModelOrder};
ghost use Rattle.vw_design.specs.Accepted.{HasNoModelFault};
ghost use Rattle.vw_instances.specs.Sizes.{AreSizes};
ghost use Rattle.vw_elab.specs.Steps.FaultSearch.{IsMadeOrRefused, HasKnownModels, HasBindings, AreModelTables};

use crate::fault::DesignFault;
use std::alloc::Global;
use vw_design::Design;
use vw_instances::{Measured, Sizes, sizes_of};
use vw_models::{
    ModelOrder, Targets, both_ways, models_reached, order_of, ordered_is_no_circle, targets_of,
    unbound_input, unknown_formal, unknown_model,
};
use vw_net::Sequence;

/// The models of a design by numbers, and its sizes.
#[derive(Drop)]
pub struct Models {
    /// For each model, the numbers of the models that its `.subckt` items name.
    pub targets: Vec<Sequence<Option<u32>>>,
    /// How many instances and cells there are, each number within its limit.
    pub sizes: Sizes,
}

/// An order of the models that are reached.
fn order_of_models(
    alloc: Global,
    targets: &Targets,
    flags: &[bool],
) -> Result<Sequence<u32>, DesignFault>
    requires flags { AreModelsReached targets.now.design.now flags.now }
    ensures order { IsMadeOrRefused targets.now.design.now
        (λ order. IsModelOrder targets.now.design.now order
        × HasKnownModels targets.now.design.now) result }
{
    if let Some(line) = unknown_model(targets, flags) {
        return Err(DesignFault::UnknownModel(line));
    }
    match order_of(alloc, targets)? {
        ModelOrder::Circle(names) => Err(DesignFault::RecursiveModel(names)),
        ModelOrder::Order(order) => {
            ordered_is_no_circle();
            Ok(order)
        }
    }
}

/// Looks for faults of bindings.
fn check_bindings(alloc: Global, targets: &Targets, flags: &[bool]) -> Result<(), DesignFault>
    requires flags { AreModelsReached targets.now.design.now flags.now }
    requires models { HasKnownModels targets.now.design.now }
    ensures { IsMadeOrRefused targets.now.design.now
        (λ _. HasBindings targets.now.design.now) result }
{
    if let Some(at) = unknown_formal(alloc, targets, flags)? {
        return Err(DesignFault::UnknownFormal(at.line, at.formal));
    }
    if let Some(at) = unbound_input(alloc, targets, flags)? {
        return Err(DesignFault::UnboundInput(at.line, at.formal));
    }
    if let Some(of) = both_ways(alloc, targets, flags)? {
        return Err(DesignFault::BothWays(of.model, of.output));
    }
    Ok(())
}

/// An order of the models that are reached, where their names and bindings have no fault.
fn checked_order(alloc: Global, targets: &Targets) -> Result<Sequence<u32>, DesignFault>
    ensures { IsMadeOrRefused targets.now.design.now
        (λ order. IsModelOrder targets.now.design.now order
        × HasBindings targets.now.design.now) result }
{
    let flags = models_reached(alloc, targets)?;
    let order = order_of_models(alloc, targets, &flags)?;
    check_bindings(alloc, targets, &flags)?;
    Ok(order)
}

/// The sizes of a design, each within its limit.
fn check_sizes(alloc: Global, targets: &Targets, order: &[u32]) -> Result<Sizes, DesignFault>
    requires order { IsModelOrder targets.now.design.now order.now }
    requires bindings { HasBindings targets.now.design.now }
    ensures { IsMadeOrRefused targets.now.design.now
        (λ sizes. AreSizes targets.now.design.now sizes
        × HasNoModelFault targets.now.design.now) result }
{
    match sizes_of(alloc, targets, order)? {
        Measured::Fits(sizes) => Ok(sizes),
        Measured::TooBig(quantity) => Err(DesignFault::TooBig(quantity, quantity.limit())),
    }
}

/// The models of a design without a fault of its models.
pub fn models_of(alloc: Global, design: &Design) -> Result<Models, DesignFault>
    ensures { IsMadeOrRefused design.now (AreModelTables design.now) result }
{
    let targets = targets_of(alloc, design)?;
    let known = Targets {
        design,
        numbers: &targets,
    };
    let order = checked_order(alloc, &known)?;
    let sizes = check_sizes(alloc, &known, order.as_slice())?;
    Ok(Models { targets, sizes })
}
