//! Nodes of operators and literals by their typed parts (JLS 15.8, 15.10, 15.13, 15.15 to 15.25).
#![tactic(auto)]

mod array;
mod joined;
mod literal;
mod operand;
mod operator;
mod single;

pub use array::{array_length, element, new_array};
pub use joined::{binary, conditional};
pub use literal::{bool_literal, int_literal, least, null_literal, this_value};
pub use single::{cast, instance_of, unary};
