//! The image of a mixture, as definitions: its start code, its relocated code, and the memory that a run begins with; what linking a class writes, and
//! which frame takes a throw.
#![tactic(auto)]

mod state;

pub use state::ClassState;
