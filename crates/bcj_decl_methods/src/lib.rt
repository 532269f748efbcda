//! Which method a call takes (JLS 15.12.2), in a declared world and without memory.
#![tactic(auto)]

ghost use Rattle.bcj_decl_methods.specs.Laws as law;

mod applicable;
mod choice;
mod contest;
mod search;

pub use applicable::is_applicable;
pub use choice::{Choice, most_specific};
pub use contest::MethodId;

/// A choice among the methods of a name that the types above a class have without their ways is that of JLS 15.12.2.
pub fn choices_agree()
    ensures { law.ChoicesAgree }
{}

/// Where nothing is refused, no type above one with a private method declares an open one of its name and parameters.
pub fn private_methods_stand_alone()
    ensures { law.DeclaredPrivateMethodsStandAlone }
{}
