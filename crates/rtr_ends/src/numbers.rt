//! The free numbers of a cache.
ghost use Rattle.std.specs.Prelude.{◌<◌, ◌≡◌, ◌∷◌, ◌++◌, [], Bool, List, OnOk, Option, false, length, slice_get, slice_set, true};
ghost use Rattle.rtr_ends.specs.Numbers.{AreFree, TakesNumber};

use std::alloc::{AllocError, Global};
use std::cmp::Reverse;
use std::collections::BinaryHeap;

/// The numbers below a count that are not in use, as a heap with the least on top. There is room for those in use too.
#[derive(Debug, Drop)]
pub(crate) struct FreeNumbers {
    numbers: BinaryHeap<Reverse<usize>>,
}

impl FreeNumbers {
    /// A store without numbers: none is free and none is in use. Allocates no memory.
    pub fn new(alloc: Global) -> FreeNumbers
        ensures { AreFree [] result }
    {
        FreeNumbers {
            numbers: BinaryHeap::new(alloc),
        }
    }

    /// Uses the lowest free number from now on. `None`: no number is free. Allocates no memory.
    pub fn take(&mut self) -> Option<usize>
        ensures { (taken : List Bool) → AreFree taken self.old → TakesNumber taken result self.new }
    {
        match self.numbers.pop() {
            None => None,
            Some(least) => Some(least.0),
        }
    }

    /// Frees a number, which must be in use. It allocates no memory.
    pub fn put(&mut self, number: usize)
        ensures { (taken : List Bool) → AreFree taken self.old → slice_get taken number ≡ Option.Some true → AreFree (slice_set taken number false) self.new }
    {
        let _ = self.numbers.push(Reverse(number));
    }

    /// Makes room for `count` numbers beside the free ones. If it succeeds and fewer than `count` numbers exist, the caller may add the next
    /// number. That number is then in use, and `put` frees it. `AllocError`: out of memory. The call itself frees and uses no number.
    pub fn reserve(&mut self, count: usize) -> Result<(), AllocError>
        ensures same { (taken : List Bool) → AreFree taken self.old → AreFree taken self.new }
        ensures room { OnOk result ((taken : List Bool) → AreFree taken self.old → length taken < count → AreFree (taken ++ true ∷ []) self.new) }
    {
        self.numbers.reserve(count)
    }
}
