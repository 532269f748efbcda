//! The object file of a symbolic unit.
#![tactic(auto)]

mod limits;
mod making;
mod numbers;
mod parts;
mod placing;
mod records;
mod relocations;
mod stop;
mod symbols;

pub use bcj_object_rules::ObjectLimit;
pub use making::make;
pub use stop::ObjectStop;
