use std::alloc::{AllocError, AllocFailed};
use thiserror::Error;

/// Why no program came of a unit.
#[derive(Debug, Drop, Error)]
pub enum UnitStop {
    /// The language that runs lacks the node whose first byte is at `at`.
    #[error("not built yet")]
    NotBuilt { at: u32 },
    #[error("out of memory")]
    NoMemory,
}

impl From<AllocError> for UnitStop {
    ghost use Rattle.std.specs.Prelude.{◌≡◌};
    ghost use Rattle.bcj_cli_unit.specs.declared.stop.UnitStop.TheVariants.{NoMemory};

    ghost from_gives = { λ x r. r ≡ NoMemory };

    fn from(_error: AllocError) -> UnitStop {
        UnitStop::NoMemory
    }
}

impl<T: Drop> From<AllocFailed<T>> for UnitStop {
    ghost use Rattle.std.specs.Prelude.{◌≡◌};
    ghost use Rattle.bcj_cli_unit.specs.declared.stop.UnitStop.TheVariants.{NoMemory};

    ghost from_gives = { λ x r. r ≡ NoMemory };

    fn from(_error: AllocFailed<T>) -> UnitStop {
        UnitStop::NoMemory
    }
}

/// Why nothing was built of a node.
#[derive(Debug, Drop)]
pub enum Miss {
    /// It has no form of the language that runs.
    NoForm,
    NoMemory,
}

impl From<AllocError> for Miss {
    ghost use Rattle.std.specs.Prelude.{◌≡◌};
    ghost use Rattle.bcj_cli_unit.specs.declared.stop.Miss.TheVariants.{NoMemory};

    ghost from_gives = { λ x r. r ≡ NoMemory };

    fn from(_error: AllocError) -> Miss {
        Miss::NoMemory
    }
}

impl<T: Drop> From<AllocFailed<T>> for Miss {
    ghost use Rattle.std.specs.Prelude.{◌≡◌};
    ghost use Rattle.bcj_cli_unit.specs.declared.stop.Miss.TheVariants.{NoMemory};

    ghost from_gives = { λ x r. r ≡ NoMemory };

    fn from(_error: AllocFailed<T>) -> Miss {
        Miss::NoMemory
    }
}
