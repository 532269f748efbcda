ghost use Rattle.std.specs.Prelude.{◌≡◌, ◌+◌, ◌-◌, ◌<◌, ◌≤◌, true, length, slice_get, slice_range, None, Some, IfSome};
ghost use Rattle.std.specs.Option.{option_map};
ghost use Rattle.std.specs.List.{position};
ghost use Rattle.bcj_layout_rules.specs.Members.{same_slot, field_number};
ghost use Rattle.bcj_layout_rules.specs.Rows.{mixture_of};
ghost use Rattle.bcj_hier_rules.specs.Loading.{load_error};
ghost use Rattle.bcj_hier_rules.specs.Shapes.{field_of_record};
ghost use Rattle.bcj_tables_rules.specs.declared.records.ClassRecord.{ClassRecord as Record};
ghost use Rattle.bcj_tables_rules.specs.declared.records.FieldRecord.{FieldRecord as Field};
ghost use Rattle.bcj_layout_members.specs.Places.{slot_at, wanted, name_at, IsFieldAt, IsPlace, ArePlaces};
ghost use Rattle.bcj_layout_members.specs.Tables.{own_slots, slots_above, IsTable, IsDone, AreAdded, AreLinked};

use crate::field::number_in;
use crate::place::{Place, number_among};
use crate::row::Row;
use bcj_hier_rules::ClassId;
use bcj_names::Name;
use bcj_tables_rules::{ClassRecord, FieldRecord};

/// The row of a type whose row is done.
pub fn row_at(rows: &[Row], c: ClassId) -> Row
    requires { IsDone rows.now c.0 }
    ensures there { slice_get rows.now c.0 ≡ Some result }
    ensures done { result.done ≡ true }
{
    rows[c.0 as usize]
}

fn part(places: &[Place], row: Row) -> &[Place]
    requires start { row.start ≤ row.end }
    requires end { row.end ≤ length places.now }
    ensures { result.now ≡ slice_range places.now row.start row.end }
{
    &places[row.start..row.end]
}

fn own_number(
    classes: &[ClassRecord],
    places: &[Place],
    row: Row,
    name: &Name,
    desc: &Name,
    owner: Option<ClassId>,
) -> Option<u32>
    requires there { ArePlaces classes.now places.now }
    requires owned { IfSome owner (λ o. o.0 < length classes.now) }
    requires start { row.start ≤ row.end }
    requires end { row.end ≤ length places.now }
    requires total { row.total ≡ row.before + (row.end - row.start) }
    ensures { result ≡ option_map (λ k. row.before + k) (position (same_slot (wanted classes.now name.now desc.now owner)) (own_slots classes.now places.now row)) }
{
    match number_among(classes, part(places, row), name, desc, owner) {
        None => None,
        Some(k) => Some(row.before + k as u32),
    }
}

/// The number of the slot among those of a type.
pub fn slot_number(
    classes: &[ClassRecord],
    rows: &[Row],
    places: &[Place],
    from: Option<ClassId>,
    name: &Name,
    desc: &Name,
    owner: Option<ClassId>,
) -> Option<u32>
    requires table { IsTable classes.now rows.now places.now }
    requires there { IfSome from (λ c. IsDone rows.now c.0) }
    requires owned { IfSome owner (λ o. o.0 < length classes.now) }
    ensures { result ≡ position (same_slot (wanted classes.now name.now desc.now owner)) (slots_above classes.now from) }
{
    let mut found = None;
    let mut at = from;
    while let Some(c) = at {
        let row = row_at(rows, c);
        found = own_number(classes, places, row, name, desc, owner).or(found);
        at = row.parent;
    }
    found
}

/// The slots that a type whose row is done has beside its superclass's.
pub fn added_slots<'a>(
    classes: &[ClassRecord],
    rows: &[Row],
    places: &'a [Place],
    c: ClassId,
) -> &'a [Place]
    requires table { IsTable classes.now rows.now places.now }
    requires there { IsDone rows.now c.0 }
    ensures { AreAdded classes.now c result.now }
{
    part(places, row_at(rows, c))
}

fn own_slot(places: &[Place], row: Row, k: u32) -> Option<Place>
    requires before { row.before ≤ k }
    requires start { row.start ≤ row.end }
    requires end { row.end ≤ length places.now }
    ensures { result ≡ slice_get (slice_range places.now row.start row.end) (k - row.before) }
{
    part(places, row).get((k - row.before) as usize).copied()
}

/// The method of the slot with this number among those of a type.
pub fn slot_place(
    classes: &[ClassRecord],
    rows: &[Row],
    places: &[Place],
    from: Option<ClassId>,
    k: u32,
) -> Option<Place>
    requires table { IsTable classes.now rows.now places.now }
    requires there { IfSome from (λ c. IsDone rows.now c.0) }
    ensures slot { option_map (slot_at classes.now) result ≡ slice_get (slots_above classes.now from) k }
    ensures place { IfSome result (IsPlace classes.now) }
{
    let mut at = from;
    while let Some(c) = at {
        let row = row_at(rows, c);
        if row.before <= k {
            return own_slot(places, row, k);
        }
        at = row.parent;
    }
    None
}

fn fields_of(classes: &[ClassRecord], c: ClassId) -> &[FieldRecord]
    requires { c.0 < length classes.now }
    ensures { (class : Record) → slice_get classes.now c.0 ≡ Some class → result.now ≡ class.fields }
{
    classes[c.0 as usize].fields.as_slice()
}

fn field_at(fields: &[FieldRecord], k: u32) -> &FieldRecord
    requires { k < length fields.now }
    ensures { slice_get fields.now k ≡ Some result.now }
{
    &fields[k as usize]
}

/// The number in objects of a field, by its number in the record of a type whose row is done.
pub fn field_number_at(
    classes: &[ClassRecord],
    rows: &[Row],
    places: &[Place],
    c: ClassId,
    field: u32,
) -> u32
    requires linked { AreLinked classes.now }
    requires table { IsTable classes.now rows.now places.now }
    requires there { IsDone rows.now c.0 }
    requires loads { load_error (mixture_of classes.now) (name_at classes.now c.0) ≡ None }
    requires field { (f : Field) × IsFieldAt classes.now c field f }
    ensures { (f : Field) → IsFieldAt classes.now c field f → result ≡ field_number (mixture_of classes.now) (name_at classes.now c.0) (field_of_record f) }
{
    let row = row_at(rows, c);
    let fields = fields_of(classes, c);
    let field = field_at(fields, field);
    number_in(fields, row.fields_before, row.fields, field)
}
