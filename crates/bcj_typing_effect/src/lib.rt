//! Statements made of their typed parts (JLS 14).
#![tactic(auto)]

mod act;
mod branch;
mod catching;
mod list;
mod loops;
mod parts;
mod result;
mod simple;
mod variable;

pub use act::{Acted, Acting};
pub use branch::if_else;
pub use catching::{Handled, caught, lacks_catch, no_catches, try_catch};
pub use list::{block, followed, no_statements};
pub use loops::{do_loop, for_loop, while_loop};
pub use result::{return_nothing, return_value, throw};
pub use simple::{break_loop, continue_loop, empty, evaluated};
pub use variable::{Declaration, bare_local, local};
