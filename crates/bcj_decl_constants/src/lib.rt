//! The values of constant fields (JLS 4.12.4, 15.28).
#![tactic(auto)]

ghost use Rattle.bcj_decl_constants.specs.Initials as initials;
ghost use Rattle.bcj_decl_constants.specs.Laws as law;

mod book;
mod build;
mod expression;
mod initials;
mod needs;
mod numbers;
mod search;
mod table;
mod waiting;
mod work;

pub use search::FieldSearch;
pub use table::constants;

/// A finished table has the constants of the units and no other values.
pub fn tables_have_the_constants()
    ensures right { law.EachValueIsAConstant }
    ensures whole { law.EachConstantIsThere }
{}

/// In declared units (JLS 8.3, 9.3) each initialiser stands at the number of its own field.
pub fn initialisers_are_own()
    ensures { initials.DeclaredInitialisersAreOwn }
{}
