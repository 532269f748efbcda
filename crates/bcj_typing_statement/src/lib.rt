//! The typing of statements (JLS 6.3, 14), in a scope that grows and shrinks with them.
#![tactic(auto)]

mod asks;
mod leaf;
mod local;
mod statement;

pub use bcj_typing_effect::Acting;
pub use statement::statements;
