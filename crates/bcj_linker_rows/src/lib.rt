//! The words of an image behind its code: rows, dispatch rows, tables and static fields.
#![tactic(auto)]

mod addresses;
mod counting;
mod dispatch;
mod implemented;
mod rows;
mod slots;
mod statics;
mod tables;

pub use dispatch::push_dispatch_rows;
pub use rows::push_rows;
pub use statics::push_statics;
pub use tables::push_tables;
