//! Offsets, sizes and numbers of symbols. What passes its type's end is more than any memory holds.

ghost use Rattle.std.specs.Prelude.{◌≡◌, ◌+◌, ◌*◌, IfOk};
ghost use Rattle.bcj_lower_rules.specs.Words.{word_size};

use std::alloc::AllocError;

/// The bytes of a word.
const WORD_SIZE: u32 = 4;

pub fn plus(a: u32, b: u32) -> Result<u32, AllocError>
    ensures { IfOk result (λ n. n ≡ a + b) }
{
    a.checked_add(b).ok_or(AllocError)
}

/// The bytes of so many words.
pub fn bytes(words: usize) -> Result<u32, AllocError>
    ensures { IfOk result (λ n. n ≡ word_size * words) }
{
    match u32::try_from(words) {
        Err(_) => Err(AllocError),
        Ok(words) => WORD_SIZE.checked_mul(words).ok_or(AllocError),
    }
}
