//! Machine code for the language that runs today: `compile` makes the words of RV32IM that a program
//! runs as, by the code scheme of `specs/Code`.
#![tactic(auto)]

mod ending;
mod execution;
mod instructions;
mod laws;
mod program;
mod scope;
mod size;

pub use ending::{Cause, Ending, Ran};
pub use execution::execute;
pub use laws::{run_is_meaning, small_runs, words_are_counted};
pub use program::{CompileStop, compile};
