//! The locals in scope.

use bcj_names::Name;
use std::alloc::{AllocError, Global};
use std::marker::Model;

/// How many locals a program may declare.
const MAX_LOCALS: usize = 100;

/// The name of a local.
#[derive(Drop)]
struct Known<'a> {
    name: &'a Name,
}

impl<'a> Model for Known<'a> {
    ghost use Rattle.std.specs.Prelude.{ℕ, List};

    ghost Value = { List ℕ };

    ghost view = { λ k. k.name.now };
}

/// The locals in scope, and how many more may be declared.
#[derive(Drop)]
pub struct Scope<'a> {
    names: Vec<Known<'a>>,
    left: usize,
}

impl<'a> Model for Scope<'a> {
    ghost use Rattle.std.specs.Prelude.{reverse};
    ghost use Rattle.bcj_cli_unit.specs.Lacking.{ScopeState};

    ghost Value = { ScopeState };

    ghost view = { λ s. record { names = reverse s.names.items; left = s.left } };
}

impl<'a> Scope<'a> {
    ghost use Rattle.std.specs.Prelude.{◌≡◌, ◌-◌, ◌∷◌, ◌&&◌, not, length, drop, nat_lt, OnOk};
    ghost use Rattle.bcj_cli_unit.specs.Kinds.{is_among};
    ghost use Rattle.bcj_cli_unit.specs.Lacking.{start};

    /// No local, and room for all that a program may declare.
    pub fn new(alloc: Global) -> Scope<'a>
        ensures { result ≡ start }
    {
        Scope {
            names: Vec::new(alloc),
            left: MAX_LOCALS,
        }
    }

    /// How many locals are in scope.
    pub fn len(&self) -> usize
        ensures { result ≡ length self.now.names }
    {
        self.names.len()
    }

    pub fn knows(&self, name: &Name) -> bool
        ensures { result ≡ is_among self.now.names name.now }
    {
        for i in (0..self.names.len()).rev() {
            if self.names[i].name.same(name) {
                return true;
            }
        }
        false
    }

    pub fn has_room(&self) -> bool
        ensures { result ≡ nat_lt 0 self.now.left }
    {
        0 < self.left
    }

    /// A local comes into scope.
    pub fn declare(&mut self, name: &'a Name) -> Result<(), AllocError>
        ensures { OnOk result (self.new ≡ record { names = name.entry.now ∷ self.old.names; left = self.old.left - 1 }) }
    {
        self.names.push(Known { name })?;
        self.left = self.left.saturating_sub(1);
        Ok(())
    }

    /// The locals behind the first `count` leave the scope.
    pub fn leave(&mut self, count: usize)
        ensures { self.new ≡ record { names = drop (length self.old.names - count) self.old.names; left = self.old.left } }
    {
        self.names.truncate(count);
    }
}
