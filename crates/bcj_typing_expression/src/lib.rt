//! The typing of expressions in a scope (JLS 6.5, 15).
#![tactic(auto)]

mod arrays;
mod assigning;
mod calling;
mod members;
mod naming;
mod operating;
mod placing;
mod reading;
mod walk;

pub use walk::{arguments, expression};
