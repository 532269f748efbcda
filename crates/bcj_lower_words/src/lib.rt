//! The lines of a method's code as they are made: instructions, labels and the addresses that linking sets, and the words that recur in
//! them.
#![tactic(auto)]

mod arrays;
mod calls;
mod entries;
mod exceptions;
mod frames;
mod instructions;
mod line;
mod lines;
mod numbers;
mod offsets;
mod operators;

pub use line::{Address, Line, Relocated};
pub use lines::Lines;
pub use numbers::deeper;
pub use operators::print_service;
