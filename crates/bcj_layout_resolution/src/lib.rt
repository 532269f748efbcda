//! What a reference in a table names, or its error, by the class records of a mixture (JVMS 5.4.3).
#![tactic(auto)]

mod index;
mod member;
mod reach;
mod reference;
mod resolver;
mod search;
mod sought;
mod usage;

pub use member::{FieldId, MethodId};
pub use resolver::Resolver;
