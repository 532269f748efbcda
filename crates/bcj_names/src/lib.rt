//! Names: texts that contracts see as lists of bytes, what an identifier is (JLS 3.8), and the reserved words (JLS 3.9).
#![tactic(auto)]

mod identifier;
mod name;

pub use identifier::{can_begin, can_go_on, is_identifier, is_reserved, is_word};
pub use name::Name;
