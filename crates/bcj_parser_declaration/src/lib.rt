//! The parser of members, of classes and interfaces, and of the units that have them.
#![tactic(auto)]

mod body;
mod field;
mod member;
mod modifiers;
mod names;
mod parameters;
mod types;
mod units;

pub use units::unit;
