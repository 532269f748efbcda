//! The declared world that typing asks (JLS 6, 8, 9, 15.12.2, 15.28): definitions, and the values of constants.
#![tactic(auto)]

mod value;

pub use value::Value;
