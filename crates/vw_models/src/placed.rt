ghost use Rattle.vw_design.specs.ModelNumbers.{AreTargets};
ghost use Rattle.vw_models.specs.TargetsOnce.{AreTargets-prop};

use vw_design::Design;
use vw_net::Sequence;

/// A design, and which models its models place.
#[derive(Drop)]
pub struct Targets<'a> {
    pub design: &'a Design,
    /// For each model, the numbers of the models that its `.subckt` items name, in order; None where the file has no model
    /// of that name.
    pub numbers: &'a [Sequence<Option<u32>>],
    ghost are: { AreTargets design.now numbers.now } by { AreTargets-prop design.now numbers.now },
}
