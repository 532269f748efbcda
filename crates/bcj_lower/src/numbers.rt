//! Sums and offsets. What passes its type's end is more than any memory holds.

ghost use Rattle.std.specs.Prelude.{◌≡◌, ◌+◌, ◌*◌, IfOk};
ghost use Rattle.bcj_lower_rules.specs.Words.{word_size};

use std::alloc::AllocError;

/// The bytes of a word.
const WORD_SIZE: u32 = 4;

pub fn plus(a: usize, b: usize) -> Result<usize, AllocError>
    ensures { IfOk result (λ n. n ≡ a + b) }
{
    a.checked_add(b).ok_or(AllocError)
}

pub fn narrow(n: usize) -> Result<u32, AllocError>
    ensures { IfOk result (λ m. m ≡ n) }
{
    match u32::try_from(n) {
        Err(_) => Err(AllocError),
        Ok(m) => Ok(m),
    }
}

/// The bytes of so many words.
pub fn bytes(words: usize) -> Result<u32, AllocError>
    ensures { IfOk result (λ n. n ≡ word_size * words) }
{
    let words = narrow(words)?;
    WORD_SIZE.checked_mul(words).ok_or(AllocError)
}
