ghost use Rattle.std.specs.Prelude.{◌≡◌, ◌+◌, ◌-◌, ◌<◌, not, true, length, slice_get, None, Some, IfSome, IfOk, OnOk};
ghost use Rattle.std.specs.List.{filter};
ghost use Rattle.std.specs.Option.{option_map, option_and_then};
ghost use Rattle.bcj_hier_rules.specs.Heads.{number_of};
ghost use Rattle.bcj_layout_rules.specs.Members.{slots};
ghost use Rattle.bcj_layout_rules.specs.Rows.{mixture_of};
ghost use Rattle.bcj_layout_members.specs.Places.{heads_in, name_at};
ghost use Rattle.bcj_layout_members.specs.Tables.{IsTable, IsDone, IsRow, GoesOn, AreLinked, IsReady, IsAboveOf, IsParent};

use crate::building::{add_own, number};
use crate::inheriting::add_interfaces;
use crate::place::Place;
use crate::row::{Above, Row};
use crate::table::row_at;
use bcj_hier::Hier;
use bcj_hier_rules::ClassId;
use bcj_names::Name;
use bcj_tables_rules::{ClassRecord, FieldRecord};
use std::alloc::AllocError;

fn more(n: u32, by: usize) -> Result<u32, AllocError>
    ensures { IfOk result (λ k. k ≡ n + by) }
{
    let by = number(by)?;
    n.checked_add(by).ok_or(AllocError)
}

fn own_field_count(fields: &[FieldRecord]) -> usize
    ensures { result ≡ length (filter (λ f. not f.is_static) fields.now) }
{
    fields.iter().filter(|f| !f.is_static).count()
}

pub fn class_at(classes: &[ClassRecord], c: ClassId) -> &ClassRecord
    requires { c.0 < length classes.now }
    ensures { slice_get classes.now c.0 ≡ Some result.now }
{
    &classes[c.0 as usize]
}

fn parent_of(hier: &Hier, superclass: &Option<Name>) -> Option<ClassId>
    ensures { option_map (λ c. c.0) result ≡ option_and_then (number_of hier.now) superclass.now }
{
    match superclass {
        None => None,
        Some(name) => hier.find(name),
    }
}

fn above(
    classes: &[ClassRecord],
    rows: &[Row],
    places: &[Place],
    parent: Option<ClassId>,
) -> Result<Above, AllocError>
    requires table { IsTable classes.now rows.now places.now }
    requires done { IfSome parent (λ p. IsDone rows.now p.0) }
    ensures { IfOk result (λ a. IsAboveOf classes.now rows.now parent a) }
{
    match parent {
        None => Ok(Above {
            depth: 0,
            slots: 0,
            fields: 0,
        }),
        Some(p) => {
            let row = row_at(rows, p);
            Ok(Above {
                depth: more(row.depth, 1)?,
                slots: row.total,
                fields: row.fields,
            })
        }
    }
}

fn put_slots(
    hier: &Hier,
    classes: &[ClassRecord],
    rows: &[Row],
    parent: Option<ClassId>,
    places: &mut Vec<Place>,
    c: ClassId,
    class: &ClassRecord,
) -> Result<(), AllocError>
    requires agree { hier.now ≡ heads_in classes.now }
    requires linked { AreLinked classes.now }
    requires table { IsTable classes.now rows.now places.old.items }
    requires ready { IsReady classes.now rows.now c }
    requires class { slice_get classes.now c.0 ≡ Some class.now }
    requires parent { IsParent classes.now rows.now class.now.head.superclass parent }
    ensures { OnOk result (GoesOn classes.now rows.now parent (length places.old.items) places.new.items (slots (mixture_of classes.now) (name_at classes.now c.0))) }
{
    let start = places.len();
    let methods = class.methods.as_slice();
    add_own(classes, rows, parent, start, places, c, methods)?;
    let names = class.head.interfaces.as_slice();
    add_interfaces(hier, classes, rows, parent, start, places, names)?;
    Ok(())
}

/// The row of a type that loads and of which all above it are done; the slots that it has beside its superclass's are put behind
/// the others.
pub fn type_row(
    hier: &Hier,
    classes: &[ClassRecord],
    rows: &[Row],
    places: &mut Vec<Place>,
    c: ClassId,
) -> Result<Row, AllocError>
    requires agree { hier.now ≡ heads_in classes.now }
    requires linked { AreLinked classes.now }
    requires table { IsTable classes.now rows.now places.old.items }
    requires ready { IsReady classes.now rows.now c }
    ensures done { IfOk result (λ r. r.done ≡ true) }
    ensures row { IfOk result (λ r. IsRow classes.now rows.now places.new.items c.0 r) }
    ensures table { OnOk result (IsTable classes.now rows.now places.new.items) }
{
    let class = class_at(classes, c);
    let parent = parent_of(hier, &class.head.superclass);
    let above = above(classes, rows, places.as_slice(), parent)?;
    let start = places.len();
    put_slots(hier, classes, rows, parent, places, c, class)?;
    let end = places.len();
    Ok(Row {
        done: true,
        parent,
        depth: above.depth,
        before: above.slots,
        total: more(above.slots, end - start)?,
        start,
        end,
        fields_before: above.fields,
        fields: more(above.fields, own_field_count(class.fields.as_slice()))?,
    })
}
