//! Why there are no lines.

ghost use Rattle.std.specs.Prelude.{◌≡◌};
ghost use Rattle.bcj_lower_bodies.specs.declared.stop.LowerStop.TheVariants.{NoMemory};

use bcj_lower_rules::Limit;
use std::alloc::AllocError;
use thiserror::Error;

/// Why a class has no lines.
#[derive(Debug, Drop, Error)]
pub enum LowerStop {
    /// The first number of the first body that passes its limit.
    #[error("TooLarge")]
    TooLarge { what: Limit },
    #[error("NoMemory")]
    NoMemory,
}

impl From<AllocError> for LowerStop {
    ghost from_gives = { λ _ e. e ≡ NoMemory };

    fn from(_e: AllocError) -> LowerStop {
        LowerStop::NoMemory
    }
}
