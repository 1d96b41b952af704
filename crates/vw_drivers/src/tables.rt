//! The tables of a design by numbers.
ghost use Rattle.std.specs.Prelude.{◌≡◌, ◌∷◌, Some, slice_get, IfOk};
ghost use Rattle.vw_design.specs.declared.design.Design.{Design};
ghost use Rattle.vw_design.specs.Accepted.{HasNoModelFault};
ghost use Rattle.vw_design.specs.Paths.{Path};
ghost use Rattle.vw_design.specs.PathValue.{place_of_path};
ghost use Rattle.vw_design.specs.Preorder.{instances};
ghost use Rattle.vw_instances.specs.Sizes.{AreBefore};
ghost use Rattle.vw_instances.specs.Tables.{ArePlaced};
ghost use Rattle.vw_drivers.specs.Tables.{AreDesignTables};

use crate::claimed::all_claims;
use crate::gather_names::names_of;
use crate::led::child_at;
use crate::model_claims::ModelClaims;
use crate::model_names::ModelNames;
use std::alloc::{AllocError, Global};
use vw_instances::{Before, ListedInstance};
use vw_models::Targets;
use vw_net::Sequence;

/// The tables of a design by which its drivers are found: its instances in preorder; and for each model, by its number,
/// how much stands before each item, the claims on its nets, and the claims on the names of its items.
pub struct Tables {
    pub instances: Sequence<ListedInstance>,
    pub before: Sequence<Sequence<Before>>,
    pub claims: Sequence<ModelClaims>,
    pub names: Sequence<ModelNames>,
}

impl Drop for Tables {
    fn drop(self) {
        let Tables {
            instances: _,
            before: _,
            claims: _,
            names: _,
        } = self;
    }
}

impl Tables {
    /// The tables of a design, given the instances, and how much stands before each item.
    pub fn of(
        alloc: Global,
        targets: &Targets,
        instances: Sequence<ListedInstance>,
        before: Sequence<Sequence<Before>>,
    ) -> Result<Self, AllocError>
        requires instances { ArePlaced targets.now.design.now instances }
        requires before { AreBefore targets.now.design.now before }
        ensures tables { IfOk result (AreDesignTables targets.now.design.now) }
        ensures instances { IfOk result (λ tables. tables.instances ≡ instances) }
    {
        let claims = all_claims(alloc, targets)?;
        let names = names_of(alloc, targets, claims.as_slice())?;
        Ok(Tables {
            instances,
            before,
            claims: Sequence::of(claims),
            names: Sequence::of(names),
        })
    }

    /// The instances, by their numbers.
    pub fn instances(&self) -> &[ListedInstance]
        ensures { result.now ≡ self.now.instances }
    {
        self.instances.as_slice()
    }

    /// For each model and each of its items, how much stands before the item.
    pub fn before(&self) -> &[Sequence<Before>]
        ensures { result.now ≡ self.now.before }
    {
        self.before.as_slice()
    }

    /// For each model, the claims on its nets.
    pub fn claims(&self) -> &[ModelClaims]
        ensures { result.now ≡ self.now.claims }
    {
        self.claims.as_slice()
    }

    /// For each model, the claims on the names that its items read and bind.
    pub fn names(&self) -> &[ModelNames]
        ensures { result.now ≡ self.now.names }
    {
        self.names.as_slice()
    }

    /// The number of the instance at a place of an instance. Nothing where the instance has no such place. Nothing is said
    /// of an instance that isn't there. It takes no memory and looks up no name.
    pub fn child(&self, instance: u32, place: u32) -> Option<u32>
        ensures { (design : Design) → HasNoModelFault design → AreDesignTables design self.now
            → (path : Path) → slice_get (instances design) instance ≡ Some path
            → result ≡ place_of_path (instances design) (place ∷ path) }
    {
        let entry = self.instances.as_slice().get(instance as usize)?;
        let child = child_at(self, instance, *entry, place)?;
        u32::try_from(child).ok()
    }
}
