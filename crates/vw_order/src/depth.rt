//! How far a search in depth has come.
ghost use Rattle.std.specs.Prelude.{
  ◌≡◌,
  ◌<◌,
  ◌++◌,
  ℕ,
  [],
  ◌∷◌,
  replicate,
  slice_set,
  slice_index,
  slice_index_or,
  IfOk,
  OnOk,
};
ghost use Rattle.std.specs.Vec.{vec_len};
ghost use Rattle.vw_order.specs.Graphs.{ReadsAt};
ghost use Rattle.vw_order.specs.Steps.SearchProgress.{is_fresh_progress, is_open_progress, is_done_progress, IsAhead};

use crate::digraph::Digraph;
use crate::progress::{Ahead, Progress};
use std::alloc::{AllocError, Global};

/// How far a search has come. It keeps its own stack, since a chain of numbers may be as long as there are any.
#[derive(Drop)]
pub struct DepthSearch {
    pub progress: Vec<Progress>,
    /// For each number, how many of its places are known to read what is done.
    pub cursors: Vec<usize>,
    /// The numbers that are done.
    pub order: Vec<u32>,
    /// The numbers that are open; each reads the next one.
    pub stack: Vec<u32>,
}

impl DepthSearch {
    /// The start over so many numbers: nothing is open.
    pub fn start(alloc: Global, count: usize) -> Result<Self, AllocError>
        ensures progress { IfOk result (λ depth. depth.progress.items ≡ replicate count Progress.Fresh) }
        ensures cursors { IfOk result (λ depth. depth.cursors.items ≡ replicate count 0) }
        ensures order { IfOk result (λ depth. depth.order.items ≡ []) }
        ensures stack { IfOk result (λ depth. depth.stack.items ≡ []) }
    {
        Ok(DepthSearch {
            progress: vec![in alloc; Progress::Fresh; count]?,
            cursors: vec![in alloc; 0; count]?,
            order: Vec::new(alloc),
            stack: Vec::new(alloc),
        })
    }

    /// The first number that isn't done among those that a number reads.
    pub fn ahead<D: Digraph>(&self, digraph: &D, number: u32) -> Option<Ahead>
        requires number { number < vec_len self.now.cursors }
        requires within { (place other : ℕ) → ReadsAt (D.graph digraph.now) number place other
            → other < vec_len self.now.progress }
        ensures { IsAhead self.now.progress.items (slice_index self.now.cursors.items number)
            ((D.graph digraph.now).reads number) result }
    {
        for place in self.cursors[number as usize]..digraph.places(number) {
            if let Some(read) = digraph.read(number, place) {
                if !self.is_finished(read) {
                    return Some(Ahead {
                        place,
                        number: read,
                    });
                }
            }
        }
        None
    }

    /// Whether a number is done.
    fn is_finished(&self, number: u32) -> bool
        requires { number < vec_len self.now.progress }
        ensures { result
            ≡ is_done_progress (slice_index_or self.now.progress.items number Progress.Fresh) }
    {
        matches!(self.progress[number as usize], Progress::Done)
    }

    /// Whether a number is open.
    pub fn is_on_stack(&self, number: u32) -> bool
        requires { number < vec_len self.now.progress }
        ensures { result
            ≡ is_open_progress (slice_index_or self.now.progress.items number Progress.Fresh) }
    {
        matches!(self.progress[number as usize], Progress::Open)
    }

    /// Whether a number hasn't been reached.
    pub fn is_fresh(&self, number: u32) -> bool
        requires { number < vec_len self.now.progress }
        ensures { result
            ≡ is_fresh_progress (slice_index_or self.now.progress.items number Progress.Fresh) }
    {
        matches!(self.progress[number as usize], Progress::Fresh)
    }

    /// Opens a number.
    pub fn open(&mut self, number: u32) -> Result<(), AllocError>
        requires { number < vec_len self.old.progress }
        ensures progress { OnOk result (
            self.new.progress.items ≡ slice_set self.old.progress.items number Progress.Open) }
        ensures cursors { self.new.cursors.items ≡ self.old.cursors.items }
        ensures order { self.new.order.items ≡ self.old.order.items }
        ensures stack { OnOk result (
            self.new.stack.items ≡ self.old.stack.items ++ number ∷ []) }
    {
        self.progress[number as usize] = Progress::Open;
        self.stack.push(number)?;
        Ok(())
    }

    /// Puts a number back, and opens another one that it reads.
    pub fn open_ahead(&mut self, number: u32, ahead: Ahead) -> Result<(), AllocError>
        requires number { number < vec_len self.old.cursors }
        requires ahead { ahead.number < vec_len self.old.progress }
        ensures progress { OnOk result (
            self.new.progress.items ≡ slice_set self.old.progress.items ahead.number Progress.Open) }
        ensures cursors { OnOk result (
            self.new.cursors.items ≡ slice_set self.old.cursors.items number ahead.place) }
        ensures order { self.new.order.items ≡ self.old.order.items }
        ensures stack { OnOk result (
            self.new.stack.items ≡ self.old.stack.items ++ number ∷ ahead.number ∷ []) }
    {
        self.cursors[number as usize] = ahead.place;
        self.progress[ahead.number as usize] = Progress::Open;
        self.stack.push(number)?;
        self.stack.push(ahead.number)?;
        Ok(())
    }

    /// A number is done.
    pub fn finish(&mut self, number: u32) -> Result<(), AllocError>
        requires { number < vec_len self.old.progress }
        ensures progress { OnOk result (
            self.new.progress.items ≡ slice_set self.old.progress.items number Progress.Done) }
        ensures cursors { self.new.cursors.items ≡ self.old.cursors.items }
        ensures order { OnOk result (
            self.new.order.items ≡ self.old.order.items ++ number ∷ []) }
        ensures stack { self.new.stack.items ≡ self.old.stack.items }
    {
        self.progress[number as usize] = Progress::Done;
        self.order.push(number)?;
        Ok(())
    }
}
