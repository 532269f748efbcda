//! The addresses of methods and static fields, and the offsets of fields in objects.
#![tactic(auto)]

mod address;
mod addresses;
mod fields;
mod finding;
mod lists;
mod lookup;
mod methods;
mod parts;

pub use addresses::{Addresses, WordLists, find_addresses};
pub use lookup::{field_place, method_address};
pub use parts::Parts;
