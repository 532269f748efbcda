// Why sources give no object.
ghost use Rattle.std.specs.Prelude.{◌≡◌, ◌++◌};
ghost use Rattle.bcj_cli_compile.specs.Answers.{IsRefusalOf};
ghost use Rattle.bcj_cli_compile.specs.declared.stop.CompileStop.TheVariants.{NoMemory};

use std::alloc::{AllocError, Global};
use thiserror::Error;

/// Why sources give no object.
#[derive(Debug, Drop, Error)]
pub enum CompileStop {
    /// The first cause: a byte of the source with this number, counted from 0, and what is said of it.
    #[error("refused")]
    Refused { file: u32, at: u32, kind: String },
    #[error("out of memory")]
    NoMemory,
}

impl From<AllocError> for CompileStop {
    ghost from_gives = { λ _ e. e ≡ NoMemory };

    fn from(_e: AllocError) -> CompileStop {
        CompileStop::NoMemory
    }
}

/// A refusal whose kind is told in two parts.
pub fn refusal(alloc: Global, file: u32, at: u32, kind: &str, what: &str) -> CompileStop
    ensures { IsRefusalOf file at (kind.now ++ what.now) result }
{
    match format!(in alloc; "{kind}{what}") {
        Ok(kind) => CompileStop::Refused { file, at, kind },
        Err(AllocError) => CompileStop::NoMemory,
    }
}
