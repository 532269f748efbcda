//! Which rows an image has, and the numbers of its array types and selectors.
#![tactic(auto)]

mod array_rows;
mod arrays;
mod highest;
mod keys;
mod laws;
mod loading;
mod selector_table;
mod text;

pub use array_rows::ArrayRows;
pub use arrays::array_types;
pub use bcj_hier_rules::ClassId;
pub use bcj_layout_resolution::Resolver;
pub use bcj_symbolic_trees::{Name, Sequence, Ty, Types};
pub use highest::selectors;
pub use keys::ReferenceKey;
pub use laws::numbers_begin;
pub use loading::{ClassIds, RowNumbers, class_rows, loaded};
pub use selector_table::Selectors;
pub use text::type_of_text;
