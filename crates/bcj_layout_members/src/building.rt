ghost use Rattle.std.specs.Prelude.{◌≡◌, ◌-◌, ◌<◌, ◌≤◌, ◌||◌, true, length, map, drop, None, Some, IfSome, IfOk, OnOk, if◌then◌else◌};
ghost use Rattle.std.specs.List.{list_any, fold};
ghost use Rattle.bcj_hier_rules.specs.Shapes.{method_of_record, behind_first};
ghost use Rattle.bcj_tables_rules.specs.Codes as codes_of;
ghost use Rattle.bcj_tables_rules.specs.declared.records.MethodRecord.{MethodRecord};
ghost use Rattle.bcj_tables_rules.specs.declared.records.ClassRecord.{ClassRecord};
ghost use Rattle.bcj_layout_rules.specs.Members.{same_slot, with_slot, with_method};
ghost use Rattle.bcj_layout_members.specs.Places.{slot_at, wanted, IsPlace, IsMethodAt, AreMethodsOf, name_at};
ghost use Rattle.bcj_layout_members.specs.Tables.{current, IsGoing, GoesOn};

use crate::place::{Place, number_among};
use crate::row::Row;
use crate::table::slot_number;
use bcj_hier_rules::ClassId;
use bcj_symbolic_trees::MethodKind;
use bcj_tables_rules::{ClassRecord, MethodRecord};
use std::alloc::AllocError;

/// A number that the numbers of a run hold; more fit no memory.
pub fn number(n: usize) -> Result<u32, AllocError>
    ensures { IfOk result (λ k. k ≡ n) }
{
    match u32::try_from(n) {
        Ok(k) => Ok(k),
        Err(_) => Err(AllocError),
    }
}

pub fn method_at(classes: &[ClassRecord], place: Place) -> &MethodRecord
    requires { IsPlace classes.now place }
    ensures { IsMethodAt classes.now place result.now }
{
    let class = &classes[place.class.0 as usize];
    &class.methods.as_slice()[place.method as usize]
}

fn behind(places: &[Place], start: usize) -> &[Place]
    requires { start ≤ length places.now }
    ensures { result.now ≡ drop start places.now }
{
    &places[start..]
}

fn is_among(
    classes: &[ClassRecord],
    rows: &[Row],
    parent: Option<ClassId>,
    start: usize,
    places: &[Place],
    method: &MethodRecord,
    owner: Option<ClassId>,
) -> bool
    requires going { IsGoing classes.now rows.now parent start places.now }
    requires owned { IfSome owner (λ o. o.0 < length classes.now) }
    ensures { result ≡ list_any (same_slot (wanted classes.now method.now.name method.now.desc owner)) (current classes.now parent start places.now) }
{
    let name = &method.name;
    let desc = &method.desc;
    let above = slot_number(classes, rows, places, parent, name, desc, owner);
    let own = number_among(classes, behind(places, start), name, desc, owner);
    above.is_some() || own.is_some()
}

fn owner_of(place: Place, is_private: bool) -> Option<ClassId>
    ensures { result ≡ (if is_private then Some place.class else None) }
{
    if is_private { Some(place.class) } else { None }
}

fn has_slot(
    classes: &[ClassRecord],
    rows: &[Row],
    parent: Option<ClassId>,
    start: usize,
    places: &[Place],
    place: Place,
) -> bool
    requires going { IsGoing classes.now rows.now parent start places.now }
    requires there { IsPlace classes.now place }
    ensures { result ≡ list_any (same_slot (slot_at classes.now place)) (current classes.now parent start places.now) }
{
    let method = method_at(classes, place);
    let owner = owner_of(place, method.is_private);
    is_among(classes, rows, parent, start, places, method, owner)
}

pub fn add_slot(
    classes: &[ClassRecord],
    rows: &[Row],
    parent: Option<ClassId>,
    start: usize,
    places: &mut Vec<Place>,
    place: Place,
) -> Result<(), AllocError>
    requires going { IsGoing classes.now rows.now parent start places.old.items }
    requires there { IsPlace classes.now place }
    ensures { OnOk result (GoesOn classes.now rows.now parent start places.new.items (with_slot (current classes.now parent start places.old.items) (slot_at classes.now place))) }
{
    if !has_slot(classes, rows, parent, start, places.as_slice(), place) {
        places.push(place)?;
    }
    Ok(())
}

/// Static methods and constructors have no slot.
fn has_none(kind: MethodKind) -> bool
    ensures { result ≡ (codes_of.is_static kind || codes_of.is_constructor kind) }
{
    match kind {
        MethodKind::Static | MethodKind::Constructor => true,
        MethodKind::Instance | MethodKind::Abstract => false,
    }
}

fn add_method(
    classes: &[ClassRecord],
    rows: &[Row],
    parent: Option<ClassId>,
    start: usize,
    places: &mut Vec<Place>,
    place: Place,
) -> Result<(), AllocError>
    requires going { IsGoing classes.now rows.now parent start places.old.items }
    requires there { IsPlace classes.now place }
    ensures { OnOk result ((method : MethodRecord) → IsMethodAt classes.now place method
        → GoesOn classes.now rows.now parent start places.new.items (with_method (name_at classes.now place.class.0) (current classes.now parent start places.old.items) (method_of_record method))) }
{
    if has_none(method_at(classes, place).kind) {
        return Ok(());
    }
    add_slot(classes, rows, parent, start, places, place)
}

pub fn add_own(
    classes: &[ClassRecord],
    rows: &[Row],
    parent: Option<ClassId>,
    start: usize,
    places: &mut Vec<Place>,
    c: ClassId,
    methods: &[MethodRecord],
) -> Result<(), AllocError>
    requires going { IsGoing classes.now rows.now parent start places.old.items }
    requires there { AreMethodsOf classes.now c methods.now }
    ensures { OnOk result (GoesOn classes.now rows.now parent start places.new.items
        (fold (with_method (name_at classes.now c.0)) (current classes.now parent start places.old.items) (map method_of_record (behind_first methods.now)))) }
{
    for k in 1..methods.len() {
        let place = Place {
            class: c,
            method: number(k)?,
        };
        add_method(classes, rows, parent, start, places, place)?;
    }
    Ok(())
}
