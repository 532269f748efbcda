//! Why a mixture is refused.

ghost use Rattle.std.specs.Prelude.{◌≡◌};
ghost use Rattle.bcj_linker_objects.specs.declared.stop.LinkStop.TheVariants.{NoMemory};

use bcj_names::Name;
use std::alloc::AllocError;
use std::fmt;
use thiserror::Error;

/// What there is too much of.
#[derive(Clone, Copy, Debug)]
pub enum LinkTotal {
    /// The types of all objects.
    Types,
    /// The words of the image.
    Image,
}

/// Why objects were not linked. They are counted from 1, and boot is 0.
#[derive(Drop, Error)]
pub enum LinkStop {
    /// The bytes are no object: `at` is the offset in the file of the first byte of the first bad field.
    #[error("Malformed")]
    Malformed { object: u32, at: u32 },
    /// A type of `second` has the name of an earlier one; `first` is the object of that one.
    #[error("Duplicate")]
    Duplicate { name: Name, first: u32, second: u32 },
    #[error("TooLarge")]
    TooLarge { what: LinkTotal },
    #[error("NoMemory")]
    NoMemory,
}

impl fmt::Debug for LinkStop {
    fn fmt<W: fmt::Write>(&self, f: &mut fmt::Formatter<W>) -> Result<(), fmt::Error> {
        fmt::Display::fmt(self, f)
    }
}

impl From<AllocError> for LinkStop {
    ghost from_gives = { λ _ e. e ≡ NoMemory };

    fn from(_e: AllocError) -> LinkStop {
        LinkStop::NoMemory
    }
}
