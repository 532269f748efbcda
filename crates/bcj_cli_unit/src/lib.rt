//! From a parsed unit to a program of the language that runs today, or to the first node that this language lacks.
#![tactic(auto)]

mod build;
mod expression;
mod kind;
mod laws;
mod scope;
mod statement;
mod stop;
mod unit;

pub use laws::{each_is_bounded, programs_are_the_fitting_units};
pub use stop::UnitStop;
pub use unit::convert;
