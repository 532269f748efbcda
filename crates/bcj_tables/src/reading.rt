//! Bytes as records.

ghost use Rattle.std.specs.Prelude.{◌≡◌, ◌≢◌, ◌+◌, ◌*◌, ◌^◌, ◌<◌, IfOk, IfErr, length};
ghost use Rattle.bcj_elf.specs.Plain.{plain};
ghost use Rattle.bcj_elf.specs.Rules.{IsObject};
ghost use Rattle.bcj_tables_rules.specs.declared.records.Records.{Records};
ghost use Rattle.bcj_tables_rules.specs.Spelling.{spelling};
ghost use Rattle.bcj_tables_rules.specs.Steps.{Reads};
ghost use Rattle.bcj_tables_rules.specs.Records as spec;
ghost use Rattle.bcj_tables.specs.Places.{outside_of, place_of, class_name};
ghost use Rattle.bcj_tables.specs.Stops.{IsBadAt};

use crate::cursor::Cursor;
use crate::places::{class_name, place_of};
use crate::reading_class::read_record;
use crate::stop::TableStop;
use bcj_elf::Object;
use bcj_symbolic_trees::Sequence;
use bcj_tables_rules::{ClassRecord, ClassRecords, Records, Stop};
use std::alloc::Global;

/// The record of the class with this number.
fn read_numbered(
    alloc: Global,
    cursor: &mut Cursor<'_>,
    o: &Object,
    version: u32,
    class: usize,
) -> Result<ClassRecord, Stop>
    requires { 2 * class + 1 < length o.now.symbols.items }
    ensures { Reads (λ c. c) ((spec.class_format version (place_of (plain o.now) class) (class_name (plain o.now) (2 * class))).reads cursor.old) result cursor.new }
{
    let place = place_of(o, class);
    let name = class_name(o, 2 * class);
    read_record(alloc, cursor, version, &place, name)
}

#[tactic(auto, unfolding(bcj_tables_rules::specs::Records::classes_format))]
fn read_classes(
    alloc: Global,
    cursor: &mut Cursor<'_>,
    o: &Object,
    version: u32,
) -> Result<ClassRecords, Stop>
    ensures { Reads (λ cs. cs) ((spec.classes_format (outside_of (plain o.now)) version).reads cursor.old) result cursor.new }
{
    let good = cursor.next_word() as usize == o.symbols.len() / 2;
    let count = cursor.take_word(good)?;
    let mut found = Sequence::new(alloc);
    for class in 0..count {
        found.push(read_numbered(alloc, cursor, o, version, class as usize)?)?;
    }
    Ok(found)
}

fn is_version(version: u32) -> bool
    ensures { result ≡ spec.is_version version }
{
    version == 1 || version == 2
}

#[tactic(auto, unfolding(bcj_tables_rules::specs::Records::records_format))]
fn read_parts(alloc: Global, cursor: &mut Cursor<'_>, o: &Object) -> Result<Records, Stop>
    ensures { Reads (λ r. r) ((spec.records_format (outside_of (plain o.now))).reads cursor.old) result cursor.new }
{
    let good = is_version(cursor.next_word());
    let version = cursor.take_word(good)?;
    let classes = read_classes(alloc, cursor, o, version)?;
    Ok(Records { version, classes })
}

#[tactic(auto, using(crate::proofs::Wholes::whole_rules), unfolding(bcj_tables_rules::specs::Records::records_reading))]
fn read_records(alloc: Global, cursor: &mut Cursor<'_>, o: &Object) -> Result<Records, Stop>
    ensures { Reads (λ r. r) (spec.records_reading (outside_of (plain o.now)) cursor.old) result cursor.new }
{
    let r = read_parts(alloc, cursor, o)?;
    if cursor.len() != 0 {
        return Err(Stop::Bad);
    }
    Ok(r)
}

/// The records that these bytes spell, which the object holds.
fn read_bytes(alloc: Global, o: &Object, bytes: &[u8]) -> Result<Records, TableStop>
    requires { length bytes.now < 2 ^ 32 }
    ensures found { IfOk result (λ r. spec.Meets (outside_of (plain o.now)) r × (spelling r ≡ bytes.now)) }
    ensures only { IfOk result (λ r. (s : Records) → spec.Meets (outside_of (plain o.now)) s → spelling s ≡ bytes.now → r ≡ s) }
    ensures none { IfErr result (λ e. e ≢ TableStop.NoMemory → (s : Records) → spec.Meets (outside_of (plain o.now)) s → spelling s ≡ bytes.now → ⊥) }
    ensures place { IfErr result (IsBadAt (outside_of (plain o.now)) bytes.now) }
{
    let mut cursor = Cursor::new(bytes);
    match read_records(alloc, &mut cursor, o) {
        Ok(r) => Ok(r),
        Err(Stop::NoMemory) => Err(TableStop::NoMemory),
        Err(Stop::Bad) => {
            let at = bytes.len().saturating_sub(cursor.len());
            Err(TableStop::Bad { at: at as u32 })
        }
    }
}

/// The records of an object, in memory of a small multiple of their bytes. The first bad field is the first in their order
/// that breaks what is asked of it by the object and the fields before.
pub fn read_class(alloc: Global, o: &Object) -> Result<Records, TableStop>
    requires { IsObject (plain o.now) }
    ensures found { IfOk result (λ r. spec.Meets (outside_of (plain o.now)) r × (spelling r ≡ o.now.rec.items)) }

    // No other records have these bytes.
    ensures only { IfOk result (λ r. (s : Records) → spec.Meets (outside_of (plain o.now)) s → spelling s ≡ o.now.rec.items → r ≡ s) }

    // They are refused only where no records have these bytes.
    ensures bad { IfErr result (λ e. e ≢ TableStop.NoMemory → (s : Records) → spec.Meets (outside_of (plain o.now)) s → spelling s ≡ o.now.rec.items → ⊥) }

    // The place is that of the first bad field.
    ensures place { IfErr result (IsBadAt (outside_of (plain o.now)) o.now.rec.items) }
{
    read_bytes(alloc, o, &o.rec)
}
