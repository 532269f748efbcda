//! Why a file is refused.

ghost use Rattle.std.specs.Prelude.{◌≡◌};
ghost use Rattle.bcj_elf.specs.declared.stop.ElfStop.TheVariants.{NoMemory};

use std::alloc::AllocError;
use thiserror::Error;

/// Why a file was not read.
#[derive(Debug, Drop, Error)]
pub enum ElfStop {
    /// No object has these bytes: `what` names the first field in the order of reading that is
    /// wrong, by its name in ELF or that of its section, and `at` is the offset of its first byte.
    #[error("Bad")]
    Bad { at: u32, what: &'static str },
    #[error("NoMemory")]
    NoMemory,
}

impl From<AllocError> for ElfStop {
    ghost from_gives = { λ _ e. e ≡ NoMemory };

    fn from(_e: AllocError) -> ElfStop {
        ElfStop::NoMemory
    }
}
