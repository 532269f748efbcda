//! The slots in the rows of a mixture's types, and the numbers of fields in objects (JVMS 5.4.5).
#![tactic(auto)]

mod building;
mod field;
mod filling;
mod inheriting;
mod members;
mod place;
mod row;
mod table;
mod visiting;

pub use members::Members;
pub use place::Place;
