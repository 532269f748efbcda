//! Sums of words and of bytes. One past 32 bits fits no memory.

ghost use Rattle.std.specs.Prelude.{◌≡◌, ◌+◌, ◌*◌, IfOk};
ghost use Rattle.bcj_layout_rules.specs.Places.{word_size};

use std::alloc::AllocError;

/// The bytes of a word.
const WORD_SIZE: u32 = 4;

pub fn plus(words: u32, more: u32) -> Result<u32, AllocError>
    ensures { IfOk result (λ n. n ≡ words + more) }
{
    words.checked_add(more).ok_or(AllocError)
}

/// The address behind so many words.
pub fn behind(at: u32, words: u32) -> Result<u32, AllocError>
    ensures { IfOk result (λ n. n ≡ at + word_size * words) }
{
    match words.checked_mul(WORD_SIZE) {
        None => Err(AllocError),
        Some(bytes) => plus(at, bytes),
    }
}

/// With so many more.
pub fn with_count(words: u32, count: usize) -> Result<u32, AllocError>
    ensures { IfOk result (λ n. n ≡ words + count) }
{
    match u32::try_from(count) {
        Err(_) => Err(AllocError),
        Ok(count) => plus(words, count),
    }
}
