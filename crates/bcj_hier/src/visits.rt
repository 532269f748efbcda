ghost use Rattle.std.specs.Prelude.{◌≡◌, [], ◌∷◌, OnOk, MatchOption};

use std::alloc::{AllocError, Global};
use std::marker::Model;

/// A step of a walk over a tree of types.
#[derive(Clone, Copy)]
pub enum Visit {
    /// The type and all below it are still to be met.
    Enter(usize),
    /// All below the type were met.
    Leave(usize),
}

/// The steps that are still to be made. Contracts see the list of them, the next one first.
#[derive(Drop)]
pub struct Visits {
    items: Vec<Visit>,
}

impl Model for Visits {
    ghost use Rattle.std.specs.Prelude.{List, reverse};
    ghost use Rattle.bcj_hier.specs.declared.visits.Visit.{Visit};

    ghost Value = { List Visit };

    ghost view = { λ v. reverse v.items.items };
}

impl Visits {
    pub fn new(alloc: Global) -> Visits
        ensures { result ≡ [] }
    {
        Visits {
            items: Vec::new(alloc),
        }
    }

    /// Puts a step before the others.
    pub fn push(&mut self, visit: Visit) -> Result<(), AllocError>
        ensures { OnOk result (self.new ≡ visit ∷ self.old) }
    {
        self.items.push(visit)?;
        Ok(())
    }

    /// Takes the next step.
    pub fn pop(&mut self) -> Option<Visit>
        ensures { MatchOption result (self.old ≡ []) (λ v. self.old ≡ v ∷ self.new) }
    {
        self.items.pop()
    }
}
