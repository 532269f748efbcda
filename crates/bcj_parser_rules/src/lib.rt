//! The grammar of source texts and the parser as a function on tokens, for the crates that prove one against the other.
#![tactic(auto)]

mod construct;
mod kind;
mod stop;
mod terminal;

pub use construct::Construct;
pub use kind::{Beginning, Heading, Joining, Mark, TypeBeginning, UnitBeginning};
pub use stop::{Site, Stop};
pub use terminal::Terminal;
