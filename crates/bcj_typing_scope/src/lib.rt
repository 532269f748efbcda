//! What the typing of a body asks of its surroundings (JLS 6, 8.1.3, 8.3.1.2, 15): what a name means in a scope, whether types go
//! together, and which method a call takes.
#![tactic(auto)]

mod blank;
mod call;
mod conversion;
mod field;
mod local;
mod scope;
mod sort;
mod world;

pub use scope::Scope;
pub use world::World;
