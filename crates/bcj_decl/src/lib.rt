//! The declared world that typing asks (JLS 6, 8, 9, 15.12.2, 15.28): units are declared once, and what a name means in it is then
//! answered without memory.
#![tactic(auto)]

mod declaring;
mod decls;
mod filling;
mod refusing;
mod search;
mod stop;
mod world;

pub use bcj_decl_fields::FieldId;
pub use bcj_decl_methods::{Choice, MethodId};
pub use bcj_decl_table::{FieldInfo, MethodInfo};
pub use declaring::declare;
pub use decls::Decls;
pub use stop::{DeclStop, Place};
