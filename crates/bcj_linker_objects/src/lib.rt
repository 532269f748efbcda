//! The objects of a mixture, read: where they are damaged, whether a name stands twice, and their total of types.
#![tactic(auto)]

mod gathered;
mod gathering;
mod heads;
mod laws;
mod names;
mod reading;
mod stop;

pub use gathered::{Gathered, GatheredObject, gather};
pub use laws::{bytes_are_one_object, damage_has_one_place, no_object_is_bad};
pub use stop::{LinkStop, LinkTotal};
