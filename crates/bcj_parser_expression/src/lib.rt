//! The parser of types and expressions.
#![tactic(auto)]

mod begin;
mod creation;
mod grammar;
mod joined;
mod literal;
mod operand;
mod paren;
mod reading;
mod shape;
mod statement;
mod types;

pub use begin::Begin;
pub use reading::{arguments, expression, statement_expression};
pub use types::{brackets, type_name};
