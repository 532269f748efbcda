//! The tokens of a text as the parser takes them: each with what it is to the grammar, its first byte and its word.
#![tactic(auto)]

mod cursor;
mod kinds;
pub mod level;
mod lexeme;

pub use cursor::Cursor;
pub use kinds::{begins_expression, is_mark};
pub use lexeme::Lexeme;
