//! The code of a class as definitions: what words, ranges and tables the code scheme gives for each node of its trees.
#![tactic(auto)]

mod half;
mod laws;
mod limit;

pub use half::Half;
pub use laws::{halves_are_placed, long_is_measured};
pub use limit::Limit;
