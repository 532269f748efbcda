//! The object file of a symbolic unit as definitions: which bytes its code, its tables and the records of its classes are.
#![tactic(auto)]

mod limit;

pub use limit::ObjectLimit;
