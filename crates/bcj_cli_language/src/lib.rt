//! The language that runs today: one class with a `main` of prints, `int` locals, choices and loops, as
//! trees with names. `specs/Meaning` says what a program prints, in how many turns.
#![tactic(auto)]

mod name;
mod tree;

pub use name::Name;
pub use tree::{Comparison, Condition, Expression, Operator, Statement};
