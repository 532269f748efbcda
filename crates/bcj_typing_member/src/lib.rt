//! The members of classes and interfaces, typed (JLS 8, 9, 12.4, 12.5), and the symbolic classes that they make.
#![tactic(auto)]

mod adding;
mod body;
mod classes;
mod constructor;
mod field;
mod gather;
mod initial;
mod making;
mod method;
mod pairs;
mod params;
mod typed;

pub use classes::class;
