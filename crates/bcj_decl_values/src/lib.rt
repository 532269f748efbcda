//! Operations on the values of constants (JLS 15.28).
#![tactic(auto)]

mod joined;
mod single;

pub use joined::{binary_value, chosen_value};
pub use single::{literal_value, of_type, unary_value};
