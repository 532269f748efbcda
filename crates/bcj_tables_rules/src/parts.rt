//! What the fields of a record are judged against, and parts of a record.

use crate::records::{AEntries, CEntries, IEntries, OEntries};

/// Where the code and the tables of a class lie in an object, and whether its tables are as they are before linking: zeros,
/// and a relocation that puts the address of the first method into the first word.
#[derive(Clone, Copy)]
pub struct ClassPlace {
    pub code: u32,
    pub code_size: u32,
    pub table: u32,
    pub table_size: u32,
    pub is_clean: bool,
}

/// What the methods before say of the next one: whether it is the first, whether it may be a constructor, whether it is the
/// last, and where its code begins and that of the class ends.
#[derive(Clone, Copy)]
pub struct MethodTurn {
    pub is_first: bool,
    pub is_last: bool,
    pub may_construct: bool,
    pub code: u64,
    pub code_end: u64,
}

/// The code of a method.
#[derive(Clone, Copy)]
pub struct CodeSpan {
    pub entry: u32,
    pub words: u32,
    pub frame: u32,
}

/// The four tables of a class, and the offset of their words in the object.
#[derive(Drop)]
pub struct Tables {
    pub ctable: CEntries,
    pub otable: OEntries,
    pub atable: AEntries,
    pub itable: IEntries,
    pub table: u32,
}
