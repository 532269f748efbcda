use bcj_hier_rules::ClassId;

/// A row of an image: that of a class or interface that loads, or that of an array type, by its number among those that have rows, from 0.
#[derive(Clone, Copy)]
pub enum RowId {
    Class(ClassId),
    Array(u32),
}
