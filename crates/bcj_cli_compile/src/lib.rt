//! From the bytes of sources to the bytes of an object, or why there is none.
#![tactic(auto)]

mod compiling;
mod laws;
mod names;
mod reading;
mod stop;

pub use compiling::compile;
pub use laws::{accepted_is_carried, one_is_accepted};
pub use stop::CompileStop;
