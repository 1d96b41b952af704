ghost use Rattle.vw_models.specs.Steps.ModelGraphs.{graph_of_models};

use vw_design::Design;
use vw_net::Sequence;
use vw_order::Digraph;

/// The models of a design, by their numbers. Each reads those that it places, and the root has to be reached.
#[derive(Drop)]
pub struct ModelGraph<'a> {
    pub design: &'a Design,
    /// For each model, the numbers of those that it places.
    pub targets: &'a [Sequence<Option<u32>>],
}

impl Digraph for ModelGraph<'_> {
    ghost graph = { λ all. graph_of_models all.design.now all.targets.now };

    fn count(&self) -> u32 {
        self.design.models().len() as u32
    }

    fn starts(&self, number: u32) -> bool {
        number == 0
    }

    fn places(&self, number: u32) -> usize {
        match self.targets.get(number as usize) {
            Some(placed) => placed.len(),
            None => 0,
        }
    }

    fn read(&self, number: u32, place: usize) -> Option<u32> {
        *self.targets.get(number as usize)?.as_slice().get(place)?
    }
}
