//! Sums that stand at the last value of their type.

ghost use Rattle.std.specs.Prelude.{◌≡◌, ◌+◌, ◌*◌, ℕ};
ghost use Rattle.bcj_symbolic_measure.specs.Totals.{capped};

/// More words.
#[tactic(auto, unfolding(bcj_symbolic_measure::specs::Totals::capped))]
pub fn add(words: u64, more: u64) -> u64
    ensures { (n : ℕ) → words ≡ capped n → result ≡ capped (n + more) }
{
    words.saturating_add(more)
}

/// So many times as many.
#[tactic(auto, unfolding(bcj_symbolic_measure::specs::Totals::capped))]
pub fn times_four(words: u64) -> u64
    ensures { (n : ℕ) → words ≡ capped n → result ≡ capped (4 * n) }
{
    words.saturating_mul(4)
}

/// Two sums as one.
#[tactic(auto, unfolding(bcj_symbolic_measure::specs::Totals::capped))]
pub fn join(words: u64, more: u64) -> u64
    ensures { (n k : ℕ) → words ≡ capped n → more ≡ capped k → result ≡ capped (n + k) }
{
    words.saturating_add(more)
}

/// A count as a sum.
#[tactic(auto, unfolding(bcj_symbolic_measure::specs::Totals::capped))]
pub fn counted(count: usize) -> u64
    ensures { result ≡ capped count }
{
    count as u64
}
