//! Which types of a mixture load, and which are below which (JVMS 5.3.5; JLS 8.1.4, 8.1.5).
#![tactic(auto)]

mod copies;
mod hierarchy;
mod loading;
mod names;
mod parts;
mod rows;
mod stop;
mod tree;
mod visits;

pub use bcj_hier_rules::{ClassId, LinkError};
pub use bcj_symbolic_trees::ClassHead;
pub use hierarchy::{Heads, Hier, build};
pub use stop::HierStop;
