use bcj_cli_language::Name;
use std::alloc::{AllocError, Global};
use std::marker::Model;

/// A local variable and its number.
#[derive(Drop)]
pub struct Local {
    pub name: Name,
    pub number: usize,
}

/// The locals in scope, and the number of the local that is declared next.
#[derive(Drop)]
pub struct Scope {
    locals: Vec<Local>,
    next: usize,
}

impl Model for Scope {
    ghost use Rattle.std.specs.Prelude.{reverse};
    ghost use Rattle.bcj_cli_code.specs.function.Slots.{Frame};

    ghost Value = { Frame };

    ghost view = { λ s. record { slots = reverse s.locals.items; next = s.next } };
}

impl Scope {
    ghost use Rattle.std.specs.Prelude.{◌≡◌, ◌+◌, ◌-◌, ◌<◌, ◌≤◌, ◌∷◌, [], length, drop, IfOk, OnOk};
    ghost use Rattle.bcj_cli_language.specs.Bounds.{max_locals};
    ghost use Rattle.bcj_cli_code.specs.function.Slots.{slot_of};

    /// No local, and the number 0.
    pub fn new(alloc: Global) -> Scope
        ensures { result ≡ record { slots = []; next = 0 } }
    {
        Scope {
            locals: Vec::new(alloc),
            next: 0,
        }
    }

    /// How many locals are in scope.
    pub fn len(&self) -> usize
        ensures { result ≡ length self.now.slots }
    {
        self.locals.len()
    }

    /// The number of the local of this name that was declared last, or 0.
    pub fn number_of(&self, name: &Name) -> usize
        ensures { result ≡ slot_of self.now.slots name.now }
    {
        for i in (0..self.locals.len()).rev() {
            let local = &self.locals[i];
            if name.as_bytes() == local.name.as_bytes() {
                return local.number;
            }
        }
        0
    }

    /// A local comes into scope, and gives its number.
    pub fn declare(&mut self, alloc: Global, name: &Name) -> Result<usize, AllocError>
        requires { self.old.next < max_locals }
        ensures number { IfOk result (λ n. n ≡ self.old.next) }
        ensures scope { OnOk result (self.new ≡ record { slots = record { name = name.now; number = self.old.next } ∷ self.old.slots; next = self.old.next + 1 }) }
    {
        let number = self.next;
        let bytes = Vec::from_slice(alloc, name.as_bytes())?;
        let name = Name::of(bytes);
        self.locals.push(Local { name, number })?;
        self.next += 1;
        Ok(number)
    }

    /// The locals behind the first `count` leave the scope.
    pub fn leave(&mut self, count: usize)
        ensures { self.new ≡ record { slots = drop (length self.old.slots - count) self.old.slots; next = self.old.next } }
    {
        self.locals.truncate(count);
    }
}
