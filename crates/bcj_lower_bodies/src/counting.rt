//! Labels and temporaries by number. Trees with more of them than their types count fit no memory.

ghost use Rattle.std.specs.Prelude.{◌≡◌, ◌+◌, IfOk};

use std::alloc::AllocError;

/// The label so many behind `k`.
pub fn behind(k: u32, count: u32) -> Result<u32, AllocError>
    ensures { IfOk result (λ n. n ≡ k + count) }
{
    k.checked_add(count).ok_or(AllocError)
}

/// The temporary so many further than `d`.
pub fn further(d: u16, count: u16) -> Result<u16, AllocError>
    ensures { IfOk result (λ n. n ≡ d + count) }
{
    d.checked_add(count).ok_or(AllocError)
}

/// A count of labels.
pub fn label_count(count: usize) -> Result<u32, AllocError>
    ensures { IfOk result (λ n. n ≡ count) }
{
    match u32::try_from(count) {
        Ok(n) => Ok(n),
        Err(_) => Err(AllocError),
    }
}

/// One argument more, for the target of a call.
pub fn with_target(count: usize) -> Result<usize, AllocError>
    ensures { IfOk result (λ n. n ≡ count + 1) }
{
    count.checked_add(1).ok_or(AllocError)
}
