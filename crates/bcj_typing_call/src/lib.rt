//! Calls of methods and constructors by their typed parts (JLS 8.8.7, 15.9, 15.12).
#![tactic(auto)]

mod argument;
mod behind;
mod constructor;
mod method;
mod object;
mod own;

pub use behind::{behind_call, super_call};
pub use constructor::{Starting, constructor_call};
pub use object::new_object;
pub use own::{own_call, type_call};
