ghost use Rattle.std.specs.Prelude.{◌≡◌, ◌<◌, ℕ, false, ◌||◌, ◌==◌};
ghost use Rattle.bcj_hier.specs.Rows.{has};
ghost use Rattle.bcj_hier.specs.Rows as spec;

/// The most types of a run.
pub const MAX_TYPES: usize = 4096;

/// The bits of a word.
const WORD_BITS: usize = 64;

/// The words of a row.
const ROW_WORDS: usize = 64;

/// A set of numbers of types: a bit for each type of a run.
#[derive(Clone, Copy)]
pub struct Row {
    words: [u64; 64],
}

impl Row {
    /// The empty set.
    pub fn new() -> Row
        ensures { (i : ℕ) → has result i ≡ false }
    {
        Row { words: [0; 64] }
    }

    /// Whether a number is in the set.
    pub fn has(&self, i: usize) -> bool
        requires { i < 4096 }
        ensures { result ≡ has self.now i }
    {
        (self.words[i / WORD_BITS] >> (i % WORD_BITS)) & 1 == 1
    }

    /// Puts a number into the set.
    pub fn put(&mut self, i: usize)
        requires { i < 4096 }
        ensures { (j : ℕ) → j < 4096 → has self.new j ≡ (j == i || has self.old j) }
    {
        self.words[i / WORD_BITS] |= 1 << (i % WORD_BITS);
    }

    /// Puts the numbers of another set into this one.
    pub fn put_all(&mut self, other: &Row)
        ensures { (j : ℕ) → has self.new j ≡ (has self.old j || has other.now j) }
    {
        for k in 0..ROW_WORDS {
            self.words[k] |= other.words[k];
        }
    }
}

/// Whether a number is in the set at a place.
pub fn has_at(rows: &[Row], place: usize, number: usize) -> bool
    requires { number < 4096 }
    ensures { result ≡ spec.has_at rows.now place number }
{
    match rows.get(place) {
        None => false,
        Some(row) => row.has(number),
    }
}
