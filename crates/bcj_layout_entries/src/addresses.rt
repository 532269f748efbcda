ghost use Rattle.std.specs.Prelude.{◌≡◌, true};
ghost use Rattle.bcj_hier_rules.specs.Shapes.{Named};
ghost use Rattle.bcj_hier_rules.specs.Heads.{IsIn, name_of};
ghost use Rattle.bcj_hier_rules.specs.Resolution.{resolved_field, resolved_method};
ghost use Rattle.bcj_layout_rules.specs.Rows.{Classes, mixture_of};
ghost use Rattle.bcj_layout_rules.specs.Entries as spec;
ghost use Rattle.bcj_layout_resolution.specs.Places.{heads_in};
ghost use Rattle.bcj_layout_addresses.specs.Parts.{AreParts, classes_of, main_of};
ghost use Rattle.bcj_layout_entries.specs.Classes.{class_of_field, class_of_method, atable_class};
ghost use Rattle.bcj_layout_entries.specs.Listed.{IsEntry};

use crate::classes::unresolved;
use crate::entries::Entry;
use crate::lookup::{field_place, method_address};
use bcj_hier_rules::{CallKind, ClassId};
use bcj_layout_addresses::Parts;
use bcj_names::Name;
use bcj_tables_rules::{AEntry, AEntryKind};

/// The name of constructors.
const CONSTRUCTOR: &str = "<init>";

/// The entry of a static field.
fn field_entry(parts: &Parts<'_>, from: ClassId, entry: &AEntry) -> Entry
    requires parts { AreParts parts.now }
    requires there { IsIn (heads_in (classes_of parts.now)) from }
    ensures { let field = resolved_field (mixture_of (classes_of parts.now)) (name_of (heads_in (classes_of parts.now)) from)
        (spec.address_reference (classes_of parts.now) (main_of parts.now) entry.now) true in
        IsEntry (classes_of parts.now) (spec.mapped (spec.address_of_field (classes_of parts.now) (main_of parts.now)) field) (class_of_field field) result }
{
    match parts
        .resolver
        .field(from, &entry.class, &entry.name, &entry.desc, true)
    {
        Err(error) => unresolved(error),
        Ok(field) => Entry {
            word: Ok(field_place(parts.addresses, field)),
            class: Some(field.class),
        },
    }
}

/// The entry of a method that is called so.
fn method_entry(parts: &Parts<'_>, from: ClassId, entry: &AEntry, kind: CallKind) -> Entry
    requires parts { AreParts parts.now }
    requires there { IsIn (heads_in (classes_of parts.now)) from }
    ensures { let method = resolved_method (mixture_of (classes_of parts.now)) (name_of (heads_in (classes_of parts.now)) from)
        (spec.address_reference (classes_of parts.now) (main_of parts.now) entry.now) kind in
        IsEntry (classes_of parts.now) (spec.mapped (spec.address_of_method (classes_of parts.now) (main_of parts.now)) method) (class_of_method method) result }
{
    match parts
        .resolver
        .method(from, &entry.class, &entry.name, &entry.desc, kind)
    {
        Err(error) => unresolved(error),
        Ok(method) => Entry {
            word: Ok(method_address(parts.addresses, method)),
            class: Some(method.class),
        },
    }
}

/// How a constructor, or a method that `super` names, is called.
fn special_kind(name: &Name) -> CallKind
    ensures { (cs : Classes) (main : Named) → result ≡ spec.special_kind cs main name.now }
{
    if name.as_str() == CONSTRUCTOR {
        CallKind::Constructor
    } else {
        CallKind::Special
    }
}

/// An entry of an address table, of a class's code.
pub fn address_entry(parts: &Parts<'_>, from: ClassId, entry: &AEntry) -> Entry
    requires parts { AreParts parts.now }
    requires there { IsIn (heads_in (classes_of parts.now)) from }
    ensures { IsEntry (classes_of parts.now)
        (spec.atable_word (classes_of parts.now) (main_of parts.now) (name_of (heads_in (classes_of parts.now)) from) entry.now)
        (atable_class (classes_of parts.now) (name_of (heads_in (classes_of parts.now)) from) entry.now) result }
{
    match entry.kind {
        AEntryKind::Field => field_entry(parts, from, entry),
        AEntryKind::StaticMethod => method_entry(parts, from, entry, CallKind::Static),
        AEntryKind::Special => method_entry(parts, from, entry, special_kind(&entry.name)),
    }
}
