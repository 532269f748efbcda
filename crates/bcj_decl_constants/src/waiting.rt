ghost use Rattle.std.specs.Prelude.{◌≡◌, ◌<◌, ◌≤◌, ◌++◌, ℕ, [], ◌∷◌, None, Some, length, slice_get, slice_set, OnOk, MatchOption};
ghost use Rattle.bcj_decl_constants.specs.Waiting.{AllAt, KnownBelow, list_at};

use bcj_decl_rules::Value;
use bcj_symbolic_trees::Sequence;
use std::alloc::{AllocError, Global};
use std::mem;

/// A field that waits for the need at a position among its needs; those before it are known.
#[derive(Clone, Copy)]
pub struct Waiter {
    pub field: usize,
    pub next: usize,
}

pub type Waiters = Sequence<Waiter>;

/// The first need without a value, with its position.
pub fn first_unknown(
    needs: &[usize],
    next: usize,
    values: &[Option<Value>],
) -> Option<(usize, usize)>
    requires below { (i m : ℕ) → slice_get needs.now i ≡ Some m → m < length values.now }
    requires known { KnownBelow values.now needs.now next }
    ensures { MatchOption result (AllAt values.now needs.now) (λ p. KnownBelow values.now needs.now p.0 × (slice_get needs.now p.0 ≡ Some p.1) × (slice_get values.now p.1 ≡ Some None)) }
{
    for i in next..needs.len() {
        let need = needs[i];
        if values[need].is_none() {
            return Some((i, need));
        }
    }
    None
}

pub fn put_waiter(
    waiting: &mut Vec<Waiters>,
    number: usize,
    waiter: Waiter,
) -> Result<(), AllocError>
    requires { number < length waiting.old.items }
    ensures { OnOk result (waiting.new.items ≡ slice_set waiting.old.items number (list_at waiting.old.items number ++ waiter ∷ [])) }
{
    waiting[number].push(waiter)
}

pub fn take_waiters(alloc: Global, waiting: &mut Vec<Waiters>, number: usize) -> Waiters
    requires { number < length waiting.old.items }
    ensures taken { result ≡ list_at waiting.old.items number }
    ensures rest { waiting.new.items ≡ slice_set waiting.old.items number [] }
{
    mem::replace(&mut waiting[number], Sequence::new(alloc))
}
