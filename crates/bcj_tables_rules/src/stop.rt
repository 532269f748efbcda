//! Why records are refused.

ghost use Rattle.std.specs.Prelude.{◌≡◌};
ghost use Rattle.bcj_tables_rules.specs.declared.stop.Stop.TheVariants.{NoMemory};

use std::alloc::AllocError;

/// Why a part was not read. A bad field is still the next one.
#[derive(Clone, Copy)]
pub enum Stop {
    Bad,
    NoMemory,
}

impl From<AllocError> for Stop {
    ghost from_gives = { λ _ e. e ≡ NoMemory };

    fn from(_e: AllocError) -> Stop {
        Stop::NoMemory
    }
}
