//! The steps from types to their supertypes by place (JLS 4.10.2), and a search along them.
#![tactic(auto)]

mod laws;
mod search;
mod steps;

pub use laws::{circles_are_reached, passing_methods_are_reached};
pub use search::{Barrier, Nowhere, Search};
pub use steps::{Places, Steps, places_of_names, steps_of_listing};
