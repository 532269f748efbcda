//! The text of `show`: the tree of the classes that load, an object's class records and the words of its code.
#![tactic(auto)]

mod code;
mod laws;
mod pieces;
mod records;
mod show;
mod tables;
mod tree;
mod writer;

pub use laws::{digits_write_words, steps_lead_to_object};
pub use pieces::put_pieces;
pub use show::show_bytes;
