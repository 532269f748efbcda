//! Locals, fields and array elements, read and assigned, from their typed parts (JLS 6.5.6, 15.11, 15.13, 15.14, 15.15, 15.26).
#![tactic(auto)]

ghost use Rattle.bcj_typing_variable.specs.Laws as law;

mod assigning;
mod element;
mod field;
mod operator;
mod placing;
mod reading;
mod tree;
mod variable;

pub use assigning::{assigned, compound, step};
pub use element::{element_place, length_place};
pub use placing::{behind_place, own_place, super_place, type_place};
pub use reading::{behind_field, own_field, super_field, type_field};
pub use variable::{local, local_place};

/// With the parts of a context in their places, what a field becomes is what the rules say of it.
pub fn fields_become_what_the_rules_say()
    ensures own_field { law.OwnTypingIs }
    ensures own_place { law.OwnPlacingIs }
    ensures type_place { law.TypePlacingIs }
    ensures behind_place { law.BehindPlacingIs }
    ensures super_field { law.SuperTypingIs }
    ensures super_place { law.SuperPlacingIs }
{}
