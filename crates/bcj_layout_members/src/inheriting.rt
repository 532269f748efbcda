ghost use Rattle.std.specs.Prelude.{◌≡◌, ◌+◌, ◌-◌, ◌<◌, ℕ, length, slice_get, None, Some, OnOk};
ghost use Rattle.std.specs.List.{fold};
ghost use Rattle.bcj_hier_rules.specs.Heads.{number_of};
ghost use Rattle.bcj_layout_members.specs.Places.{heads_in, name_at, superclass_at};
ghost use Rattle.bcj_layout_members.specs.Tables.{IsDone, current, IsGoing, GoesOn, AreInterfaces, with_slots_of};

use crate::building::add_slot;
use crate::place::Place;
use crate::row::Row;
use crate::table::row_at;
use bcj_hier::Hier;
use bcj_hier_rules::ClassId;
use bcj_names::Name;
use bcj_tables_rules::ClassRecord;
use std::alloc::AllocError;

fn place_at(places: &[Place], k: usize) -> Place
    requires { k < length places.now }
    ensures { slice_get places.now k ≡ Some result }
{
    places[k]
}

fn add_interface(
    classes: &[ClassRecord],
    rows: &[Row],
    parent: Option<ClassId>,
    start: usize,
    places: &mut Vec<Place>,
    i: ClassId,
) -> Result<(), AllocError>
    requires going { IsGoing classes.now rows.now parent start places.old.items }
    requires done { IsDone rows.now i.0 }
    requires top { superclass_at classes.now i.0 ≡ None }
    ensures { OnOk result (GoesOn classes.now rows.now parent start places.new.items
        (with_slots_of classes.now (current classes.now parent start places.old.items) (name_at classes.now i.0))) }
{
    let row = row_at(rows, i);
    for k in 0..row.end - row.start {
        let place = place_at(places.as_slice(), row.start + k);
        add_slot(classes, rows, parent, start, places, place)?;
    }
    Ok(())
}

fn type_called(hier: &Hier, name: &Name) -> ClassId
    requires { (k : ℕ) × (number_of hier.now name.now ≡ Some k) }
    ensures { number_of hier.now name.now ≡ Some result.0 }
{
    hier.find(name).unwrap()
}

pub fn add_interfaces(
    hier: &Hier,
    classes: &[ClassRecord],
    rows: &[Row],
    parent: Option<ClassId>,
    start: usize,
    places: &mut Vec<Place>,
    names: &[Name],
) -> Result<(), AllocError>
    requires agree { hier.now ≡ heads_in classes.now }
    requires going { IsGoing classes.now rows.now parent start places.old.items }
    requires interfaces { AreInterfaces classes.now rows.now names.now }
    ensures { OnOk result (GoesOn classes.now rows.now parent start places.new.items
        (fold (with_slots_of classes.now) (current classes.now parent start places.old.items) names.now)) }
{
    for name in names {
        let i = type_called(hier, name);
        add_interface(classes, rows, parent, start, places, i)?;
    }
    Ok(())
}
