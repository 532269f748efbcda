//! The layout of an image: where everything lies, and what each reference of the classes is resolved to (JVMS 5.4).
#![tactic(auto)]

mod entries;
mod entry_id;
mod fields;
mod instances;
mod keeping;
mod layout;
mod members;
mod objects;
mod place;
mod places;
mod regions;
mod row_id;
mod rows;

pub use entry_id::EntryId;
pub use layout::{Layout, lay_out, lay_out_resolved};
pub use place::FieldPlace;
pub use row_id::RowId;
