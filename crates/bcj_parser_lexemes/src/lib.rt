//! What the tokens of a text are to the grammar.
#![tactic(auto)]

mod lexemes;
mod terminals;

pub use lexemes::lexemes_of;
