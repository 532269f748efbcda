//! The first fault of a list of source units.
#![tactic(auto)]

mod fault;
mod file;
mod first;
mod head;
mod member;

pub use fault::{Fault, Refusal};
pub use first::first_fault;
