//! The class records of object files, in one spelling each.
#![tactic(auto)]

mod codes;
mod cursor;
mod descriptors;
mod keys;
mod places;
mod putting;
mod reading;
mod reading_class;
mod reading_codes;
mod reading_entries;
mod reading_members;
mod stop;
mod writing;

pub use bcj_tables_rules::{
    AEntries, AEntry, AEntryKind, CEntries, CEntry, ClassRecord, ClassRecords, FieldRecord,
    FieldRecords, IEntries, IEntry, MethodRecord, MethodRecords, OEntries, OEntry, PairRecord,
    PairRecords, Range, Ranges, Records,
};
pub use reading::read_class;
pub use stop::TableStop;
pub use writing::write_classes;
