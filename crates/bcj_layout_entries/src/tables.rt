ghost use Rattle.std.specs.Prelude.{◌≡◌, map, slice_get, Some, IfOk, OnOk};
ghost use Rattle.bcj_tables_rules.specs.declared.records.ClassRecord.{ClassRecord as Record};
ghost use Rattle.bcj_hier_rules.specs.Heads.{IsIn, name_of};
ghost use Rattle.bcj_layout_rules.specs.Entries as spec;
ghost use Rattle.bcj_layout_resolution.specs.Places.{heads_in};
ghost use Rattle.bcj_layout_addresses.specs.Parts.{AreParts, classes_of, main_of};
ghost use Rattle.bcj_layout_entries.specs.Classes.{ctable_class, atable_class, no_class};
ghost use Rattle.bcj_layout_entries.specs.Entries.{AreEntries};
ghost use Rattle.bcj_layout_entries.specs.Listed.{AreBehind};

use crate::addresses::address_entry;
use crate::classes::named_entry;
use crate::entries::Entries;
use crate::interfaces::interface_entry;
use crate::offsets::offset_entry;
use bcj_hier_rules::ClassId;
use bcj_layout_addresses::Parts;
use bcj_symbolic_trees::Sequence;
use bcj_tables_rules::{AEntry, CEntry, ClassRecord, IEntry, OEntry};
use std::alloc::{AllocError, Global};

fn put_classes(
    alloc: Global,
    parts: &Parts<'_>,
    table: &[CEntry],
    entries: &mut Entries,
) -> Result<(), AllocError>
    requires { AreParts parts.now }
    ensures { OnOk result (AreBehind (classes_of parts.now)
        (map (spec.ctable_word (classes_of parts.now) (main_of parts.now)) table.now) (map (ctable_class (classes_of parts.now)) table.now) entries.old entries.new) }
{
    for entry in table {
        entries.push(named_entry(alloc, parts, entry)?)?;
    }
    Ok(())
}

fn put_offsets(
    parts: &Parts<'_>,
    from: ClassId,
    table: &[OEntry],
    entries: &mut Entries,
) -> Result<(), AllocError>
    requires parts { AreParts parts.now }
    requires there { IsIn (heads_in (classes_of parts.now)) from }
    ensures { OnOk result (AreBehind (classes_of parts.now)
        (map (spec.otable_word (classes_of parts.now) (main_of parts.now) (name_of (heads_in (classes_of parts.now)) from)) table.now) (map no_class table.now) entries.old entries.new) }
{
    for entry in table {
        entries.push(offset_entry(parts, from, entry)?)?;
    }
    Ok(())
}

fn put_addresses(
    parts: &Parts<'_>,
    from: ClassId,
    table: &[AEntry],
    entries: &mut Entries,
) -> Result<(), AllocError>
    requires parts { AreParts parts.now }
    requires there { IsIn (heads_in (classes_of parts.now)) from }
    ensures { OnOk result (AreBehind (classes_of parts.now)
        (map (spec.atable_word (classes_of parts.now) (main_of parts.now) (name_of (heads_in (classes_of parts.now)) from)) table.now)
        (map (atable_class (classes_of parts.now) (name_of (heads_in (classes_of parts.now)) from)) table.now) entries.old entries.new) }
{
    for entry in table {
        entries.push(address_entry(parts, from, entry))?;
    }
    Ok(())
}

fn put_interfaces(
    parts: &Parts<'_>,
    from: ClassId,
    table: &[IEntry],
    entries: &mut Entries,
) -> Result<(), AllocError>
    requires parts { AreParts parts.now }
    requires there { IsIn (heads_in (classes_of parts.now)) from }
    ensures { OnOk result (AreBehind (classes_of parts.now)
        (map (spec.itable_word (classes_of parts.now) (main_of parts.now) (name_of (heads_in (classes_of parts.now)) from)) table.now) (map no_class table.now) entries.old entries.new) }
{
    for entry in table {
        entries.push(interface_entry(parts, from, entry)?)?;
    }
    Ok(())
}

fn put_record(
    alloc: Global,
    parts: &Parts<'_>,
    from: ClassId,
    class: &ClassRecord,
) -> Result<Entries, AllocError>
    requires parts { AreParts parts.now }
    requires there { slice_get (classes_of parts.now) from.0 ≡ Some class.now }
    ensures { IfOk result (AreEntries (classes_of parts.now) (main_of parts.now) class.now) }
{
    let mut entries = Sequence::new(alloc);
    put_classes(alloc, parts, class.ctable.as_slice(), &mut entries)?;
    put_offsets(parts, from, class.otable.as_slice(), &mut entries)?;
    put_addresses(parts, from, class.atable.as_slice(), &mut entries)?;
    put_interfaces(parts, from, class.itable.as_slice(), &mut entries)?;
    Ok(entries)
}

/// The entries of a class's tables.
pub fn class_entries(
    alloc: Global,
    parts: &Parts<'_>,
    class: ClassId,
) -> Result<Entries, AllocError>
    requires parts { AreParts parts.now }
    requires there { IsIn (heads_in (classes_of parts.now)) class }
    ensures { IfOk result (λ es. (c : Record) → slice_get (classes_of parts.now) class.0 ≡ Some c
        → AreEntries (classes_of parts.now) (main_of parts.now) c es) }
{
    let classes = parts.resolver.records().classes.as_slice();
    put_record(alloc, parts, class, &classes[class.0 as usize])
}
