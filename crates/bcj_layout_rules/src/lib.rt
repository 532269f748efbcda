//! Where the parts of an image lie, as definitions over the class records of a mixture: text, rows, dispatch rows, tables, statics, and what each
//! entry of a table becomes when its class is linked.
#![tactic(auto)]

mod table;

pub use table::Table;
