//! Why a unit has no object.

ghost use Rattle.std.specs.Prelude.{◌≡◌};
ghost use Rattle.bcj_object.specs.declared.stop.ObjectStop.TheVariants.{NoMemory};

use bcj_object_rules::ObjectLimit;
use std::alloc::AllocError;
use thiserror::Error;

/// Why no object was made.
#[derive(Debug, Drop, Error)]
pub enum ObjectStop {
    /// A number of the unit passes its limit: the first of the frame, the method and the object that does.
    #[error("TooLarge")]
    TooLarge { what: ObjectLimit },
    #[error("NoMemory")]
    NoMemory,
}

impl From<AllocError> for ObjectStop {
    ghost from_gives = { λ _ e. e ≡ NoMemory };

    fn from(_e: AllocError) -> ObjectStop {
        ObjectStop::NoMemory
    }
}
