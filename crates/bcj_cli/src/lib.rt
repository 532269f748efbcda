//! What the commands do, over any files and sinks.
#![tactic(auto)]

mod command;
mod source;
mod whole;

pub use bcj_cli_telling::{BAD_WORDS, NO_MEMORY};
pub use whole::top;
