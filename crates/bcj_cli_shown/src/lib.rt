//! The command that shows an object.
#![tactic(auto)]

mod command;
mod form;
mod saying;
mod text;

pub use command::show_command;
pub use form::asks_to_show;
pub use saying::UNLINKED;
