//! One class.

ghost use Rattle.std.specs.Prelude.{◌≡◌, ◌<◌, ◌^◌};
ghost use Rattle.bcj_tables_rules.specs.Steps.{Reads};
ghost use Rattle.bcj_tables_rules.specs.Records as spec;

use crate::cursor::Cursor;
use crate::reading_codes::read_class_flags;
use crate::reading_entries::{
    name_or_none, read_atable, read_ctable, read_itable, read_names, read_otable, read_pairs,
    read_ranges,
};
use crate::reading_members::{read_fields, read_methods};
use bcj_names::is_identifier;
use bcj_symbolic_trees::{ClassHead, Name};
use bcj_tables_rules::{ClassPlace, ClassRecord, Stop, Tables};
use std::alloc::Global;

/// The version in which members may be private.
const PRIVATE_VERSION: u32 = 2;

/// The name of the class that has no superclass.
const OBJECT: &[u8] = b"Object";

/// Whether a class may have this superclass, where none is an empty name.
#[tactic(auto, unfolding(bcj_tables_rules::specs::Records::is_superclass))]
fn is_superclass(name: &[u8], interface: bool, superclass: &[u8]) -> bool
    ensures { result ≡ spec.is_superclass name.now interface superclass.now }
{
    if interface || name == OBJECT {
        return superclass.is_empty();
    }
    is_identifier(superclass)
}

/// Whether the text is the name of the class.
fn is_name(name: &[u8], text: &[u8]) -> bool
    ensures { result ≡ spec.is_name name.now text.now }
{
    text == name
}

#[tactic(auto, unfolding(bcj_tables_rules::specs::Records::head_format))]
fn read_head(alloc: Global, cursor: &mut Cursor<'_>, name: &[u8]) -> Result<ClassHead, Stop>
    ensures { Reads (λ h. h) ((spec.head_format name.now).reads cursor.old) result cursor.new }
{
    let good = is_name(name, cursor.next_text().as_bytes());
    let text = cursor.take_text(good)?;
    let flags = read_class_flags(cursor)?;
    let good = is_superclass(name, flags.interface, cursor.next_text().as_bytes());
    let superclass = cursor.take_text(good)?;
    let interfaces = read_names(alloc, cursor)?;
    Ok(ClassHead {
        name: Name::from_str(alloc, text)?,
        interface: flags.interface,
        is_abstract: flags.is_abstract,
        superclass: name_or_none(alloc, superclass)?,
        interfaces,
    })
}

/// Whether the region at this place has one word for the class and one for each entry.
#[tactic(auto, unfolding(bcj_tables_rules::specs::Records::is_region))]
fn is_region(place: &ClassPlace, at: u32, entries: u128) -> bool
    requires { entries < 2 ^ 70 }
    ensures { result ≡ spec.is_region place.now at entries }
{
    place.is_clean && at == place.table && place.table_size as u128 == 4 * (1 + entries)
}

#[tactic(auto, unfolding(bcj_tables_rules::specs::Records::tables_format))]
fn read_tables(alloc: Global, cursor: &mut Cursor<'_>, place: &ClassPlace) -> Result<Tables, Stop>
    ensures { Reads (λ t. t) ((spec.tables_format place.now).reads cursor.old) result cursor.new }
{
    let ctable = read_ctable(alloc, cursor)?;
    let otable = read_otable(alloc, cursor)?;
    let atable = read_atable(alloc, cursor)?;
    let itable = read_itable(alloc, cursor)?;
    let entries = ctable.len() as u128
        + otable.len() as u128
        + atable.len() as u128
        + itable.len() as u128;
    let good = is_region(place, cursor.next_word(), entries);
    let table = cursor.take_word(good)?;
    Ok(Tables {
        ctable,
        otable,
        atable,
        itable,
        table,
    })
}

#[tactic(auto, unfolding(bcj_tables_rules::specs::Records::class_format))]
pub fn read_record(
    alloc: Global,
    cursor: &mut Cursor<'_>,
    version: u32,
    place: &ClassPlace,
    name: &[u8],
) -> Result<ClassRecord, Stop>
    ensures { Reads (λ c. c) ((spec.class_format version place.now name.now).reads cursor.old) result cursor.new }
{
    let head = read_head(alloc, cursor, name)?;
    let is_open = version == PRIVATE_VERSION && !head.interface;
    let fields = read_fields(alloc, cursor, is_open)?;
    let methods = read_methods(alloc, cursor, place, is_open)?;
    let ranges = read_ranges(alloc, cursor, methods.as_slice())?;
    let pairs = read_pairs(alloc, cursor)?;
    let tables = read_tables(alloc, cursor, place)?;
    let Tables {
        ctable,
        otable,
        atable,
        itable,
        table,
    } = tables;
    Ok(ClassRecord {
        head,
        fields,
        methods,
        ranges,
        pairs,
        ctable,
        otable,
        atable,
        itable,
        table,
    })
}
