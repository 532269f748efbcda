ghost use Rattle.std.specs.Prelude.{◌≡◌};
ghost use Rattle.bcj_typing.specs.declared.stop.TypeStop.TheVariants.{NoMemory};

use bcj_typing_rules::Kind;
use std::alloc::AllocError;
use std::fmt;
use thiserror::Error;

/// What has a limit: the words of a method's frame and of its code, and the bytes of the unit's object.
#[derive(Clone, Copy)]
pub enum Limited {
    Frame,
    Method,
    Object,
}

/// Why a unit has no symbolic unit.
#[derive(Drop, Error)]
pub enum TypeStop {
    /// The first byte of the first node at fault, in text order with parts before the whole, and the earliest kind of what it lacks.
    #[error("untyped")]
    Untyped { at: u32, kind: Kind },
    /// The first number past its limit, with the first byte of its member, or of the type where no member is written.
    #[error("too large")]
    TooLarge { what: Limited, at: u32 },
    #[error("out of memory")]
    NoMemory,
}

impl fmt::Debug for TypeStop {
    fn fmt<W: fmt::Write>(&self, f: &mut fmt::Formatter<W>) -> Result<(), fmt::Error> {
        fmt::Display::fmt(self, f)
    }
}

impl From<AllocError> for TypeStop {
    ghost from_gives = { λ _ e. e ≡ NoMemory };

    fn from(_e: AllocError) -> TypeStop {
        TypeStop::NoMemory
    }
}
