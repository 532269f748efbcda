ghost use Rattle.std.specs.Prelude.{◌≡◌};
ghost use Rattle.bcj_decl.specs.declared.stop.DeclStop.TheVariants.{NoMemory};

use bcj_names::Name;
use std::alloc::AllocError;
use std::fmt;
use thiserror::Error;

/// A byte of a unit; `file` counts the units from 0.
#[derive(Clone, Copy, Debug)]
pub struct Place {
    pub file: u32,
    pub at: u32,
}

/// Why units declare no world. The first place decides, and at one place the variant that stands first here. A fault in a head has
/// the place of the type, and one in a member that of the member.
#[derive(Drop, Error)]
pub enum DeclStop {
    /// A second type of a name (JLS 7.6); the boot types stand first.
    #[error("duplicate")]
    Duplicate { name: Name, at: Place },
    /// A name in a head or a member that names no type (JLS 6.5.5).
    #[error("unknown")]
    Unknown { name: Name, at: Place },
    /// A class or interface that stands where it can't in the hierarchy (JLS 8.1.4, 8.1.5, 9.1.3).
    #[error("bad hierarchy")]
    BadHierarchy { at: Place },
    /// A member that its type can't have (JLS 8.3, 8.4, 8.8, 9.3, 9.4).
    #[error("bad member")]
    BadMember { at: Place },
    #[error("out of memory")]
    NoMemory,
}

impl fmt::Debug for DeclStop {
    fn fmt<W: fmt::Write>(&self, f: &mut fmt::Formatter<W>) -> Result<(), fmt::Error> {
        fmt::Display::fmt(self, f)
    }
}

impl From<AllocError> for DeclStop {
    ghost from_gives = { λ _ e. e ≡ NoMemory };

    fn from(_e: AllocError) -> DeclStop {
        DeclStop::NoMemory
    }
}
