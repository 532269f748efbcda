ghost use Rattle.std.specs.Prelude.{◌≡◌, ◌↔◌, ◌+◌, ◌<◌, ℕ, true, false, length, slice_get, None, Some, IfSome, OnOk, IfOk, IsTrue};
ghost use Rattle.bcj_hier_rules.specs.Shapes.{Named};
ghost use Rattle.bcj_hier_rules.specs.Loading.{load_error};
ghost use Rattle.bcj_tables_rules.specs.declared.records.ClassRecord.{ClassRecord};
ghost use Rattle.bcj_layout_rules.specs.Rows.{mixture_of};
ghost use Rattle.bcj_layout_members.specs.Places.{heads_in, name_at};
ghost use Rattle.bcj_layout_members.specs.Tables.{IsTable, IsDone, IsPrepared, IsReady, ArePartsDone, AreLinked, Keeps, Fills, IsOpen, IsFull};

use crate::building::number;
use crate::filling::{class_at, type_row};
use crate::place::Place;
use crate::row::Row;
use bcj_hier::Hier;
use bcj_hier_rules::ClassId;
use bcj_names::Name;
use bcj_tables_rules::ClassRecord;
use std::alloc::AllocError;

fn is_done(rows: &[Row], c: ClassId) -> bool
    requires { c.0 < length rows.now }
    ensures done { IsTrue result → IsDone rows.now c.0 }
    ensures free { result ≡ false → IsOpen rows.now c.0 }
{
    rows[c.0 as usize].done
}

fn is_prepared(hier: &Hier, classes: &[ClassRecord], rows: &[Row], name: &Name) -> bool
    requires agree { hier.now ≡ heads_in classes.now }
    requires count { length rows.now ≡ length classes.now }
    ensures { IsTrue result ↔ IsPrepared classes.now rows.now name.now }
{
    match hier.find(name) {
        None => false,
        Some(c) => is_done(rows, c),
    }
}

fn are_prepared(hier: &Hier, classes: &[ClassRecord], rows: &[Row], names: &[Name]) -> bool
    requires agree { hier.now ≡ heads_in classes.now }
    requires count { length rows.now ≡ length classes.now }
    ensures { IsTrue result ↔ ((k : ℕ) (name : Named) → slice_get names.now k ≡ Some name → IsPrepared classes.now rows.now name) }
{
    for name in names {
        if !is_prepared(hier, classes, rows, name) {
            return false;
        }
    }
    true
}

fn is_parent_prepared(
    hier: &Hier,
    classes: &[ClassRecord],
    rows: &[Row],
    superclass: &Option<Name>,
) -> bool
    requires agree { hier.now ≡ heads_in classes.now }
    requires count { length rows.now ≡ length classes.now }
    ensures { IsTrue result ↔ IfSome superclass.now (IsPrepared classes.now rows.now) }
{
    match superclass {
        None => true,
        Some(name) => is_prepared(hier, classes, rows, name),
    }
}

fn are_parts_done(hier: &Hier, classes: &[ClassRecord], rows: &[Row], class: &ClassRecord) -> bool
    requires agree { hier.now ≡ heads_in classes.now }
    requires count { length rows.now ≡ length classes.now }
    ensures { IsTrue result ↔ ArePartsDone classes.now rows.now class.now }
{
    is_parent_prepared(hier, classes, rows, &class.head.superclass)
        && are_prepared(hier, classes, rows, class.head.interfaces.as_slice())
}

fn is_loaded(hier: &Hier, classes: &[ClassRecord], c: ClassId) -> bool
    requires agree { hier.now ≡ heads_in classes.now }
    requires there { c.0 < length classes.now }
    ensures { IsTrue result ↔ (load_error (mixture_of classes.now) (name_at classes.now c.0) ≡ None) }
{
    hier.load(c).is_ok()
}

fn is_next(hier: &Hier, classes: &[ClassRecord], rows: &[Row], c: ClassId) -> bool
    requires agree { hier.now ≡ heads_in classes.now }
    requires count { length rows.now ≡ length classes.now }
    requires there { c.0 < length classes.now }
    ensures ready { IsTrue result → IsReady classes.now rows.now c }
    ensures free { IsTrue result → IsOpen rows.now c.0 }
    ensures other { result ≡ false → Fills classes.now rows.now rows.now c.0 }
{
    if is_done(rows, c) {
        return false;
    }
    if !is_loaded(hier, classes, c) {
        return false;
    }
    are_parts_done(hier, classes, rows, class_at(classes, c))
}

/// Fills the row of a type that loads, where all above it are done.
fn visit(
    hier: &Hier,
    classes: &[ClassRecord],
    rows: &mut [Row],
    places: &mut Vec<Place>,
    c: ClassId,
) -> Result<(), AllocError>
    requires agree { hier.now ≡ heads_in classes.now }
    requires linked { AreLinked classes.now }
    requires table { IsTable classes.now rows.old places.old.items }
    requires there { c.0 < length classes.now }
    ensures table { OnOk result (IsTable classes.now rows.new places.new.items) }
    ensures keeps { OnOk result (Keeps rows.old rows.new) }
    ensures fills { OnOk result (Fills classes.now rows.old rows.new c.0) }
{
    if is_next(hier, classes, rows, c) {
        let row = type_row(hier, classes, rows, places, c)?;
        rows[c.0 as usize] = row;
    }
    Ok(())
}

/// Visits each type once.
fn round(
    hier: &Hier,
    classes: &[ClassRecord],
    rows: &mut [Row],
    places: &mut Vec<Place>,
) -> Result<(), AllocError>
    requires agree { hier.now ≡ heads_in classes.now }
    requires linked { AreLinked classes.now }
    requires table { IsTable classes.now rows.old places.old.items }
    ensures table { OnOk result (IsTable classes.now rows.new places.new.items) }
    ensures fills { OnOk result ((k : ℕ) → Fills classes.now rows.old rows.new k) }
{
    for k in 0..classes.len() {
        let c = ClassId(number(k)?);
        visit(hier, classes, rows, places, c)?;
    }
    Ok(())
}

fn is_full(hier: &Hier, classes: &[ClassRecord], rows: &[Row]) -> Result<bool, AllocError>
    requires agree { hier.now ≡ heads_in classes.now }
    requires count { length rows.now ≡ length classes.now }
    ensures { IfOk result (λ b. IsTrue b → IsFull classes.now rows.now) }
{
    for k in 0..classes.len() {
        let c = ClassId(number(k)?);
        if !is_done(rows, c) && is_loaded(hier, classes, c) {
            return Ok(false);
        }
    }
    Ok(true)
}

/// Fills the rows of all types that load. In each round those are filled of which all above them were filled before.
pub fn run(
    hier: &Hier,
    classes: &[ClassRecord],
    rows: &mut [Row],
    places: &mut Vec<Place>,
) -> Result<(), AllocError>
    requires agree { hier.now ≡ heads_in classes.now }
    requires linked { AreLinked classes.now }
    requires table { IsTable classes.now rows.old places.old.items }
    ensures table { OnOk result (IsTable classes.now rows.new places.new.items) }
    ensures full { OnOk result (IsFull classes.now rows.new) }
{
    let rounds = hier.len() + 1;
    for _ in 0..rounds {
        if is_full(hier, classes, rows)? {
            return Ok(());
        }
        round(hier, classes, rows, places)?;
    }
    Ok(())
}
