//! The words of an image before its rows: the start code, and the relocated code of the objects.
#![tactic(auto)]

mod addresses;
mod code;
mod instructions;
mod object;
mod relocation;
mod start;

pub use code::push_code;
pub use start::push_start;
