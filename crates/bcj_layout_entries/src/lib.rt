//! What linking a class writes into its tables, and the errors of what can't be resolved.
#![tactic(auto)]

mod addresses;
mod classes;
mod entries;
mod interfaces;
mod lookup;
mod offsets;
mod start;
mod tables;

pub use entries::{Entries, Entry, EntryWord, all_entries};
pub use start::start_entries;
