//! Relocatable ELF32 objects for RV32IM, in one spelling each.
#![tactic(auto)]

mod cutting;
mod decoding;
mod elf;
mod field;
mod judging;
mod judging_contents;
mod judging_headers;
mod names;
mod object;
mod parts;
mod reading;
mod rules;
mod sizes;
mod stop;
mod writing;

pub use object::{Object, Relocation, RelocationKind, Section, Symbol};
pub use reading::{one_spelling, read, rec_start};
pub use rules::is_object;
pub use stop::ElfStop;
pub use writing::write;
