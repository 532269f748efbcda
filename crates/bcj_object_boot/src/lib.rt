//! The object of the boot unit.
#![tactic(auto)]

mod making;

pub use making::make_boot;
