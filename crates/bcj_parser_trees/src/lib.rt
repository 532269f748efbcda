//! The trees that a source text is read into, each node with the place of its first byte.
//!
//! `Plain` in specs/ reads them as plain data: names as lists of bytes, lists as lists.
#![tactic(auto)]

mod expression;
mod names;
mod statement;
mod unit;

pub use expression::{BinOp, Expr, UnaryOp};
pub use names::{Access, Base, Mods, Param, TypeName};
pub use statement::{Catch, Stmt};
pub use unit::{First, Member, TypeDecl, Unit};
