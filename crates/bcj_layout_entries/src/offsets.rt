ghost use Rattle.std.specs.Prelude.{◌≡◌, false, None, IfOk};
ghost use Rattle.bcj_hier_rules.specs.declared.call_kind.CallKind.TheVariants as call;
ghost use Rattle.bcj_hier_rules.specs.Shapes.{Reference};
ghost use Rattle.bcj_hier_rules.specs.Heads.{IsIn, name_of};
ghost use Rattle.bcj_hier_rules.specs.Loading.{load_error};
ghost use Rattle.bcj_hier_rules.specs.Resolution.{FoundMethod, resolved_field, resolved_method};
ghost use Rattle.bcj_layout_rules.specs.Rows.{mixture_of};
ghost use Rattle.bcj_layout_rules.specs.Entries as spec;
ghost use Rattle.bcj_layout_resolution.specs.Places.{heads_in, IsMethod};
ghost use Rattle.bcj_layout_addresses.specs.Parts.{AreParts, classes_of, main_of};
ghost use Rattle.bcj_layout_entries.specs.Listed.{IsEntry};

use crate::entries::{Entry, EntryWord};
use crate::lookup::{class_of, field_place, method_record};
use bcj_hier_rules::{CallKind, ClassId};
use bcj_layout_addresses::Parts;
use bcj_layout_resolution::MethodId;
use bcj_names::Name;
use bcj_tables_rules::OEntry;
use std::alloc::AllocError;

/// The bytes of a word.
pub const WORD_SIZE: u32 = 4;

/// The bytes of a row before its slots.
const ROW_HEAD_SIZE: u32 = 16;

/// The offset in a row of the slot with this number.
fn slot_offset(number: u32) -> Result<u32, AllocError>
    ensures { IfOk result (λ w. w ≡ spec.slot_offset number) }
{
    let Some(bytes) = number.checked_mul(WORD_SIZE) else {
        return Err(AllocError);
    };
    match bytes.checked_add(ROW_HEAD_SIZE) {
        None => Err(AllocError),
        Some(offset) => Ok(offset),
    }
}

/// The slot of a method that was found: a private one has its own, any other that of its name in the rows of the class that is named.
fn slot_of(parts: &Parts<'_>, named: ClassId, method: MethodId) -> Option<u32>
    requires parts { AreParts parts.now }
    requires named_there { IsIn (heads_in (classes_of parts.now)) named }
    requires named_loads { load_error (mixture_of (classes_of parts.now)) (name_of (heads_in (classes_of parts.now)) named) ≡ None }
    requires found { (x : FoundMethod) × IsMethod (classes_of parts.now) method x × (load_error (mixture_of (classes_of parts.now)) x.class ≡ None) }
    ensures { (x : FoundMethod) (r : Reference) → IsMethod (classes_of parts.now) method x
        → r.class ≡ name_of (heads_in (classes_of parts.now)) named → result ≡ spec.slot_of (classes_of parts.now) (main_of parts.now) r x }
{
    let record = method_record(parts.resolver, method);
    if record.is_private {
        parts.members.slot(method.class, &record.name, &record.desc, Some(method.class))
    } else {
        parts.members.slot(named, &record.name, &record.desc, None)
    }
}

/// The offset of the slot of a method that was found by the class of this name.
fn slot_word(parts: &Parts<'_>, class: &Name, method: MethodId) -> Result<u32, AllocError>
    requires parts { AreParts parts.now }
    requires loads { load_error (mixture_of (classes_of parts.now)) class.now ≡ None }
    requires found { (x : FoundMethod) × IsMethod (classes_of parts.now) method x × (load_error (mixture_of (classes_of parts.now)) x.class ≡ None) }
    ensures { IfOk result (λ w. (x : FoundMethod) (r : Reference) → IsMethod (classes_of parts.now) method x
        → r.class ≡ class.now → w ≡ spec.offset_of_method (classes_of parts.now) (main_of parts.now) r x) }
{
    let named = class_of(parts.resolver, class);
    slot_offset(slot_of(parts, named, method).unwrap_or(0))
}

/// The word of an instance method.
fn method_word(parts: &Parts<'_>, from: ClassId, entry: &OEntry) -> Result<EntryWord, AllocError>
    requires parts { AreParts parts.now }
    requires there { IsIn (heads_in (classes_of parts.now)) from }
    ensures { IfOk result (λ w. w ≡ spec.mapped (spec.offset_of_method (classes_of parts.now) (main_of parts.now) (spec.offset_reference (classes_of parts.now) (main_of parts.now) entry.now))
        (resolved_method (mixture_of (classes_of parts.now)) (name_of (heads_in (classes_of parts.now)) from) (spec.offset_reference (classes_of parts.now) (main_of parts.now) entry.now) call.Instance)) }
{
    let found = parts.resolver.method(
        from,
        &entry.class,
        &entry.name,
        &entry.desc,
        CallKind::Instance,
    );
    match found {
        Err(error) => Ok(Err(error)),
        Ok(method) => Ok(Ok(slot_word(parts, &entry.class, method)?)),
    }
}

/// The word of a field that isn't static.
fn field_word(parts: &Parts<'_>, from: ClassId, entry: &OEntry) -> EntryWord
    requires parts { AreParts parts.now }
    requires there { IsIn (heads_in (classes_of parts.now)) from }
    ensures { result ≡ spec.mapped (spec.offset_of_field (classes_of parts.now) (main_of parts.now))
        (resolved_field (mixture_of (classes_of parts.now)) (name_of (heads_in (classes_of parts.now)) from) (spec.offset_reference (classes_of parts.now) (main_of parts.now) entry.now) false) }
{
    match parts
        .resolver
        .field(from, &entry.class, &entry.name, &entry.desc, false)
    {
        Err(error) => Err(error),
        Ok(field) => Ok(field_place(parts.addresses, field)),
    }
}

/// An entry of an offset table, of a class's code.
pub fn offset_entry(parts: &Parts<'_>, from: ClassId, entry: &OEntry) -> Result<Entry, AllocError>
    requires parts { AreParts parts.now }
    requires there { IsIn (heads_in (classes_of parts.now)) from }
    ensures { IfOk result (IsEntry (classes_of parts.now)
        (spec.otable_word (classes_of parts.now) (main_of parts.now) (name_of (heads_in (classes_of parts.now)) from) entry.now) None) }
{
    let word = if entry.is_method {
        method_word(parts, from, entry)?
    } else {
        field_word(parts, from, entry)
    };
    Ok(Entry { word, class: None })
}
