//! Whether the head of a source type is at fault (JLS 8.1, 9.1), in any world.
#![tactic(auto)]

mod ancestor;
mod body;
mod head;
mod name;

pub use head::{HeadRefusal, Searches, head_refusal};
