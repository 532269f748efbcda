//! The code of a class: words, relocations, methods, ranges and tables, from the lines of its bodies.
#![tactic(auto)]

mod assembling;
mod code;
mod emitting;
mod item;
mod labels;
mod lowering;
mod numbers;
mod ranges;
mod relocations;
mod tables;

pub use bcj_lower_bodies::LowerStop;
pub use bcj_lower_rules::{Half, Limit};
pub use code::{ClassCode, CodeRange, CodeRelocation, MethodCode};
pub use lowering::lower;
