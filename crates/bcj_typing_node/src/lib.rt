//! What typed parts of a body are (JLS 6, 15): expressions with their types, variables that are assigned, why a part has none, and the
//! answers that decide what a node becomes.
#![tactic(auto)]

mod constant;
mod ending;
mod form;
mod miss;
mod need;
mod step;
mod typing;

pub use constant::worth;
pub use ending::typed;
pub use form::{CastForm, Chosen, Finals, Join, Meaning, Variable, Variables, Way};
pub use miss::Miss;
pub use need::{earlier, unless};
pub use step::{append, push_uses, uses};
pub use typing::{Placing, Typing, Typings};
