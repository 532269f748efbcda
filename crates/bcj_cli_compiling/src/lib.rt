//! The command that compiles a source, over any files and a sink for errors.
#![tactic(auto)]

mod command;
mod form;
mod saying;
mod sources;
mod writing;

pub use command::compile_command;
pub use form::asks_to_compile;
