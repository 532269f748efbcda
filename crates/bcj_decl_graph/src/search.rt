ghost use Rattle.std.specs.Prelude.{◌≡◌, ◌≤◌, ◌<◌, ◌↔◌, ℕ, Bool, [], List, OnOk, length, nat_eq, if◌then◌else◌};
ghost use Rattle.std.specs.List.{Contains, IsDistinct};
ghost use Rattle.indexmap.specs.IndexSet.{insert_all};
ghost use Rattle.bcj_decl_graph.specs.Reached.{AreBelow, IsWithin, Reached, steps_of};
ghost use Rattle.bcj_decl_graph.specs.Found.{found_of};

use crate::steps::Steps;
use indexmap::IndexSet;
use std::alloc::{AllocError, Global};

/// Says from which places a search takes no step.
pub trait Barrier {
    ghost closed: { Self → ℕ → Bool };

    /// Whether no step is taken from this place.
    fn is_closed(&self, place: usize) -> bool
        ensures { result ≡ closed self.now place };
}

/// Closes no place.
#[derive(Clone, Copy)]
pub struct Nowhere;

impl Barrier for Nowhere {
    ghost use Rattle.std.specs.Prelude.{false};

    ghost closed = { λ s k. false };

    fn is_closed(&self, _place: usize) -> bool {
        false
    }
}

/// The places that a search has found. Its memory is used again by the next search.
#[derive(Drop)]
pub struct Search {
    found: IndexSet<usize>,
}

impl Search {
    /// A search that has found nothing.
    pub fn new(alloc: Global) -> Search
        ensures { found_of result ≡ [] }
    {
        Search {
            found: IndexSet::new(alloc),
        }
    }

    /// The places found, each once, in the order in which they were found. It takes no memory.
    pub fn places(&self) -> &[usize]
        ensures places { result.now ≡ found_of self.now }
        ensures once { IsDistinct nat_eq result.now }
    {
        self.found.as_slice()
    }

    fn insert_each(&mut self, places: &[usize]) -> Result<(), AllocError>
        ensures { OnOk result (found_of self.new ≡ insert_all nat_eq (found_of self.old) places.now) }
    {
        for place in places {
            self.found.insert(*place)?;
        }
        Ok(())
    }

    /// Takes the steps from a place, unless it is closed.
    fn open<B: Barrier>(
        &mut self,
        steps: &Steps,
        place: usize,
        barrier: &B,
    ) -> Result<(), AllocError>
        ensures { OnOk result (found_of self.new ≡ insert_all nat_eq (found_of self.old) (if B.closed barrier.now place then [] else steps_of steps.now place)) }
    {
        if barrier.is_closed(place) {
            return Ok(());
        }
        match steps.get(place) {
            None => Ok(()),
            Some(onward) => self.insert_each(onward.as_slice()),
        }
    }

    /// Finds the places that steps lead to from these, near ones first, in time linear in the steps met.
    pub fn run<B: Barrier>(
        &mut self,
        steps: &Steps,
        from: &[usize],
        barrier: &B,
    ) -> Result<(), AllocError>
        requires within { IsWithin steps.now }
        requires starts { AreBelow (length steps.now) from.now }
        ensures reached { OnOk result ((k : ℕ) → Contains (found_of self.new) k ↔ Reached steps.now (B.closed barrier.now) from.now k) }
        ensures once { OnOk result (IsDistinct nat_eq (found_of self.new)) }
        ensures below { OnOk result (AreBelow (length steps.now) (found_of self.new)) }
    {
        self.found.clear();
        self.insert_each(from)?;
        let mut next = 0;
        while next < self.found.len() {
            let place = self.found[next];
            self.open(steps, place, barrier)?;
            next += 1;
        }
        Ok(())
    }
}
