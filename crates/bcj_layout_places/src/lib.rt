//! Where the parts of an image begin.
#![tactic(auto)]

mod adding;
mod classes;
mod part;
mod places;
mod start;
mod types;

pub use part::Words;
pub use places::{Places, find_places};
