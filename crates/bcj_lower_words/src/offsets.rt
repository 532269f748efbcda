//! Offsets of the words of a frame.

ghost use Rattle.std.specs.Prelude.{◌≡◌, ◌*◌, pos};
ghost use Rattle.bcj_lower_rules.specs.Words as w;

/// The bytes of a word.
const WORD_SIZE: usize = 4;

/// The bytes of so many words.
pub fn size(words: u16) -> i32
    ensures { result ≡ pos (w.word_size * words) }
{
    (WORD_SIZE * usize::from(words)) as i32
}

/// What is added to `sp` for a frame of so many words.
pub fn below(frame: u16) -> i32
    ensures { result ≡ w.minus (w.word_size * frame) }
{
    -size(frame)
}

/// A temporary.
pub fn temporary(d: u16) -> i32
    ensures { result ≡ w.temporary d }
{
    (WORD_SIZE + WORD_SIZE * usize::from(d)) as i32
}

/// A local, in a frame of so many words.
pub fn local(frame: u16, i: usize) -> i32
    ensures { result ≡ w.local frame i }
{
    let behind = usize::from(frame).saturating_sub(1).saturating_sub(i);
    (WORD_SIZE * behind) as i32
}

/// An argument of a callee, below its caller's frame.
pub fn argument(j: u16) -> i32
    ensures { result ≡ w.argument j }
{
    let above = (WORD_SIZE * (usize::from(j) + 1)) as i32;
    -above
}
