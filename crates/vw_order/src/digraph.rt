ghost use Rattle.std.specs.Prelude.{◌≡◌, None, length, slice_index_or};
ghost use Rattle.vw_order.specs.Graphs.{Graph};

/// Numbers from 0 on that read each other: a directed graph. Each has places, and reads at most one number at each.
pub trait Digraph {
    /// The graph. Which numbers count is known to proofs alone: a search comes to no others.
    ghost graph: { Self → Graph };

    /// How many numbers there are.
    fn count(&self) -> u32
        ensures { result ≡ (graph self.now).count };

    /// Whether a search has to reach a number by itself.
    fn starts(&self, number: u32) -> bool
        ensures { result ≡ (graph self.now).starts number };

    /// How many places a number has.
    fn places(&self, number: u32) -> usize
        ensures { result ≡ length ((graph self.now).reads number) };

    /// The number that another one reads at a place, counted from 0; nothing where it reads none there, and past its
    /// last place.
    fn read(&self, number: u32, place: usize) -> Option<u32>
        ensures { result ≡ slice_index_or ((graph self.now).reads number) place None };
}
