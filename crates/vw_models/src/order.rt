//! An order of the models that are reached, or a circle of them.
ghost use Rattle.std.specs.Prelude.{◌≡◌, None, IfOk};
ghost use Rattle.vw_design.specs.ModelFaults.{unknown_model};
ghost use Rattle.vw_models.specs.ModelOrders.{IsModelAnswer};

use crate::circle::circle_names;
use crate::model_graph::ModelGraph;
use crate::placed::Targets;
use std::alloc::{AllocError, Global};
use vw_net::Sequence;
use vw_order::{Found, search};
use vw_outside::Name;

/// What the models that are reached have: an order, or a circle.
#[derive(Drop)]
pub enum ModelOrder {
    /// The numbers of the models, each behind those that it places.
    Order(Sequence<u32>),
    /// The names of models of which each places the next one and the last one the first. The first is the one that
    /// stands first in the file.
    Circle(Sequence<Name>),
}

/// An order of the models that are reached, or a circle of them.
pub fn order_of(alloc: Global, targets: &Targets) -> Result<ModelOrder, AllocError>
    requires known { unknown_model targets.now.design.now ≡ None }
    ensures { IfOk result (IsModelAnswer targets.now.design.now) }
{
    let graph = ModelGraph {
        design: targets.design,
        targets: targets.numbers,
    };
    match search(alloc, &graph)? {
        Found::Order(order) => Ok(ModelOrder::Order(Sequence::of(order))),
        Found::Circle(circle) => Ok(ModelOrder::Circle(circle_names(
            alloc,
            targets.design,
            &circle,
        )?)),
    }
}
