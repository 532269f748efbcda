//! The lines, labels and ranges of the bodies of a class: a walk over its trees.
#![tactic(auto)]

mod array;
mod body;
mod call;
mod cast;
mod class;
mod code;
mod context;
mod counting;
mod expression;
mod initialiser;
mod limits;
mod method;
mod object;
mod place;
mod range;
mod statement;
mod stop;

pub use crate::body::{BodyCode, BodyLines};
pub use crate::class::bodies;
pub use crate::range::LabelRange;
pub use crate::stop::LowerStop;
