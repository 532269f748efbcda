//! What the class records of an object are, as definitions, and what is asked of each field of them.
//!
//! The reader and the writer stand in `bcj_tables`.
#![tactic(auto)]

mod codes;
mod laws;
mod parts;
mod records;
mod stop;

pub use codes::{ClassFlags, FieldFlags, MethodCode};
pub use laws::{
    methods_have_descriptors, no_spelling_is_refused, one_spelling, only_spellings_are_read,
    spellings_are_read, types_have_descriptors,
};
pub use parts::{ClassPlace, CodeSpan, MethodTurn, Tables};
pub use records::{
    AEntries, AEntry, AEntryKind, CEntries, CEntry, ClassRecord, ClassRecords, FieldRecord,
    FieldRecords, IEntries, IEntry, MethodRecord, MethodRecords, OEntries, OEntry, PairRecord,
    PairRecords, Range, Ranges, Records,
};
pub use stop::Stop;
