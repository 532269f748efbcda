//! Instructions as texts that an assembler reads.
#![tactic(auto)]

mod instruction;

pub use instruction::text;
