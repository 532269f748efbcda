use bcj_hier_rules::ClassId;
use bcj_layout_rules::Table;

/// An entry of a table of a class, or of the start's region where there is no class. `index` counts from 0 in the table.
#[derive(Clone, Copy)]
pub struct EntryId {
    pub class: Option<ClassId>,
    pub table: Table,
    pub index: u32,
}
