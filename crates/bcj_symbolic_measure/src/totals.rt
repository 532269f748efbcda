//! Sums that stand at the last value of their type.

ghost use Rattle.std.specs.Prelude.{◌≡◌};
ghost use Rattle.bcj_symbolic_measure.specs.Totals as spec;

#[tactic(auto, unfolding(crate::specs::Totals::plus, crate::specs::Totals::capped))]
pub fn plus(first: u64, second: u64) -> u64
    ensures { result ≡ spec.plus first second }
{
    first.saturating_add(second)
}

// Not inlined, as `saved` of the temporaries.
#[inline(never)]
#[tactic(auto, unfolding(crate::specs::Totals::capped, crate::specs::Totals::larger))]
pub fn larger(first: u64, second: u64) -> u64
    ensures { result ≡ spec.capped (spec.larger first second) }
{
    first.max(second)
}

/// A number as a `u32`.
#[tactic(auto, unfolding(crate::specs::Totals::narrow))]
pub fn narrow(number: u64) -> u32
    ensures { result ≡ spec.narrow number }
{
    if number < u32::MAX as u64 {
        number as u32
    } else {
        u32::MAX
    }
}
