ghost use Rattle.std.specs.Prelude.{IfOk};
ghost use Rattle.bcj_layout_addresses.specs.Parts.{AreParts, classes_of, main_of};
ghost use Rattle.bcj_layout_entries.specs.Entries.{AreAllEntries};

use crate::tables::class_entries;
use bcj_hier_rules::{ClassId, LinkError};
use bcj_layout_addresses::Parts;
use bcj_symbolic_trees::Sequence;
use std::alloc::{AllocError, Global};

/// The word that linking writes for an entry, or the error of what the entry names.
pub type EntryWord = Result<u32, LinkError>;

/// An entry of a table. `class` is the class of a resolved entry of a class table that is of no array type, and the declaring class of
/// a resolved entry of an address table.
#[derive(Clone, Copy)]
pub struct Entry {
    pub word: EntryWord,
    pub class: Option<ClassId>,
}

/// The entries of the tables of a class, in their order.
pub type Entries = Sequence<Entry>;

/// The entries of all classes. A name that is cut inside a character and an address past 32 bits fit no memory.
pub fn all_entries(alloc: Global, parts: &Parts<'_>) -> Result<Sequence<Entries>, AllocError>
    requires { AreParts parts.now }
    ensures { IfOk result (AreAllEntries (classes_of parts.now) (main_of parts.now)) }
{
    let count = parts.resolver.hier().len();
    let mut all = Sequence::new(alloc);
    for k in 0..count {
        all.push(class_entries(alloc, parts, ClassId(k as u32))?)?;
    }
    Ok(all)
}
