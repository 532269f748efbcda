//! What the commands say on the sink for errors, and the statuses that they end with.
#![tactic(auto)]

mod status;
mod telling;

pub use status::{
    BAD_WORDS, DONE, MAX_SOURCE_BYTES, NO_MEMORY, REFUSED, TURNS_SPENT, UNREAD, WRITE_FAULT,
};
pub use telling::{put_some, refuse, refuse_read, say};
