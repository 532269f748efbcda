//! Why the records of an object are refused.

use thiserror::Error;

/// Why records were not read.
#[derive(Debug, Drop, Error)]
pub enum TableStop {
    /// No records have these bytes: `at` is the offset in the record section of the first byte of the first bad field.
    #[error("Bad")]
    Bad { at: u32 },
    #[error("NoMemory")]
    NoMemory,
}
