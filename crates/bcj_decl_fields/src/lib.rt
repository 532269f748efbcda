//! The field that a name means in a type, and subtypes, in a declared world (JLS 4.10, 8.3), without memory.
#![tactic(auto)]

ghost use Rattle.bcj_decl_fields.specs.Laws as law;

mod climbing;
mod lookup;
mod subtyping;

pub use lookup::{FieldId, lookup_field};
pub use subtyping::{fits, subtype};

/// The field that a name means is found without the ways of the search.
pub fn fields_are_found()
    ensures { law.FieldsAreFound }
{}

/// A declared world has what `subtype`, `fits` and `lookup_field` require.
pub fn declared_worlds_are_hierarchies()
    ensures hierarchy { law.DeclaredWorldsAreHierarchies }
    ensures open { law.DeclaredFieldsAreOpen }
    ensures once { law.DeclaredFieldsStandOnce }
{}
