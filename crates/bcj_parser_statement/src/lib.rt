//! The parser of statements and of the variables that statements and fields declare.
#![tactic(auto)]

mod compound;
mod evaluation;
mod grammar;
mod local;
mod measured;
mod opening;
mod part;
mod statement;
mod variable;

pub use evaluation::evaluated;
pub use statement::{block, statements_from};
pub use variable::{Variable, variables_behind};
