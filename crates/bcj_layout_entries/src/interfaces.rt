ghost use Rattle.std.specs.Prelude.{◌≡◌, None, IfOk};
ghost use Rattle.bcj_hier_rules.specs.Heads.{IsIn, name_of};
ghost use Rattle.bcj_layout_rules.specs.Entries as spec;
ghost use Rattle.bcj_layout_resolution.specs.Places.{heads_in};
ghost use Rattle.bcj_layout_addresses.specs.Parts.{AreParts, classes_of, main_of};
ghost use Rattle.bcj_layout_entries.specs.Listed.{IsEntry};

use crate::classes::unresolved;
use crate::entries::Entry;
use crate::offsets::WORD_SIZE;
use bcj_hier_rules::ClassId;
use bcj_layout_addresses::Parts;
use bcj_tables_rules::IEntry;
use std::alloc::AllocError;

/// The offset in a dispatch row of the word of a selector.
fn selector_word(parts: &Parts<'_>, entry: &IEntry) -> Result<u32, AllocError>
    requires { AreParts parts.now }
    ensures { IfOk result (λ w. w ≡ spec.selector_word (classes_of parts.now) (main_of parts.now) (spec.interface_entry (classes_of parts.now) (main_of parts.now) entry.now)) }
{
    let number = parts
        .selectors
        .number(&entry.class, &entry.name, &entry.desc)
        .unwrap_or(0);
    match number.checked_mul(WORD_SIZE) {
        None => Err(AllocError),
        Some(word) => Ok(word),
    }
}

/// An entry of an interface table, of a class's code.
pub fn interface_entry(
    parts: &Parts<'_>,
    from: ClassId,
    entry: &IEntry,
) -> Result<Entry, AllocError>
    requires parts { AreParts parts.now }
    requires there { IsIn (heads_in (classes_of parts.now)) from }
    ensures { IfOk result (IsEntry (classes_of parts.now)
        (spec.itable_word (classes_of parts.now) (main_of parts.now) (name_of (heads_in (classes_of parts.now)) from) entry.now) None) }
{
    match parts
        .resolver
        .interface_method(from, &entry.class, &entry.name, &entry.desc)
    {
        Err(error) => Ok(unresolved(error)),
        Ok(_) => Ok(Entry {
            word: Ok(selector_word(parts, entry)?),
            class: None,
        }),
    }
}
