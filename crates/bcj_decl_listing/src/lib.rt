//! The types of a world, found by their names without memory.
#![tactic(auto)]

mod index;
mod listing;
mod members;

pub use listing::Listing;
pub use members::{MemberIndex, MemberIndices};
