//! Which frame takes a throw, found by the ranges of the linked code.
#![tactic(auto)]

mod ranges;
mod search;
mod unwound;

pub use bcj_hier_rules::ClassId;
pub use ranges::{AddressRange, MethodRanges, Ranges};
pub use search::find;
pub use unwound::Unwound;
