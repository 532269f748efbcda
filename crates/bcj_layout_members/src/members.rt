ghost use Rattle.std.specs.Prelude.{◌≡◌, ◌<◌, ◌++◌, [], false, length, map, slice_get, None, Some, IfSome, IfOk, if◌then◌else◌};
ghost use Rattle.std.specs.Option.{option_map, option_map_or};
ghost use Rattle.bcj_hier_rules.specs.Shapes.{field_of_record};
ghost use Rattle.bcj_hier_rules.specs.Heads.{IsIn, name_of, superclass_of};
ghost use Rattle.bcj_hier_rules.specs.Loading.{load_error};
ghost use Rattle.bcj_tables_rules.specs.declared.records.ClassRecord.{ClassRecord};
ghost use Rattle.bcj_tables_rules.specs.declared.records.FieldRecord.{FieldRecord};
ghost use Rattle.bcj_layout_rules.specs.Members.{slots, slot_number, field_count, field_number};
ghost use Rattle.bcj_layout_rules.specs.Rows.{mixture_of};
ghost use Rattle.bcj_layout_members.specs.Places.{slot_at, IsPlace, ArePlaces, IsMethodAt, IsFieldAt};

use crate::building::method_at;
use crate::place::Place;
use crate::row::Row;
use crate::table::{added_slots, field_number_at, row_at, slot_number as number_from, slot_place};
use crate::visiting::run;
use bcj_hier::Hier;
use bcj_hier_rules::ClassId;
use bcj_names::Name;
use bcj_tables_rules::{ClassRecord, MethodRecord};
use std::alloc::{AllocError, Global};
use std::marker::Model;

/// The slots and fields of the types of a mixture. Contracts see it as the list of their records.
#[derive(Drop)]
pub struct Members<'a> {
    classes: &'a [ClassRecord],
    rows: Vec<Row>,
    places: Vec<Place>,
}

impl<'a> Model for Members<'a> {
    ghost use Rattle.std.specs.Prelude.{List};
    ghost use Rattle.bcj_tables_rules.specs.declared.records.ClassRecord.{ClassRecord};
    ghost use Rattle.bcj_layout_members.specs.Tables.{AreMembers};

    ghost Value = { List ClassRecord };

    ghost view = { λ m. m.classes.now };

    ghost invariant = { λ m. AreMembers m.classes.now m.rows.items m.places.items };
}

const OPEN: Row = Row {
    done: false,
    parent: None,
    depth: 0,
    before: 0,
    total: 0,
    start: 0,
    end: 0,
    fields_before: 0,
    fields: 0,
};

impl<'a> Members<'a> {
    /// The slots and fields of the types of these records, whose heads are those of the hierarchy. More slots or fields than a
    /// `u32` counts fit no memory.
    pub fn new(
        alloc: Global,
        hier: &Hier,
        classes: &'a [ClassRecord],
    ) -> Result<Members<'a>, AllocError>
        requires agree { hier.now ≡ map (λ c. c.head) classes.now }
        ensures { IfOk result (λ m. m ≡ classes.now) }
    {
        let mut rows = vec![in alloc; OPEN; hier.len()]?;
        let mut places = Vec::new(alloc);
        run(hier, classes, rows.as_mut_slice(), &mut places)?;
        Ok(Members {
            classes,
            rows,
            places,
        })
    }

    /// How many slots a type that loads has. It takes no memory, as all calls below.
    pub fn slot_count(&self, c: ClassId) -> u32
        requires there { IsIn (map (λ c. c.head) self.now) c }
        requires loads { load_error (mixture_of self.now) (name_of (map (λ c. c.head) self.now) c) ≡ None }
        ensures { result ≡ length (slots (mixture_of self.now) (name_of (map (λ c. c.head) self.now) c)) }
    {
        row_at(self.rows.as_slice(), c).total
    }

    /// The number of the slot of the method with this name and descriptor; that of a private one is its class's own.
    pub fn slot(&self, c: ClassId, name: &Name, desc: &Name, owner: Option<ClassId>) -> Option<u32>
        requires there { IsIn (map (λ c. c.head) self.now) c }
        requires loads { load_error (mixture_of self.now) (name_of (map (λ c. c.head) self.now) c) ≡ None }
        requires owned { IfSome owner (IsIn (map (λ c. c.head) self.now)) }
        ensures { result ≡ slot_number (mixture_of self.now) (name_of (map (λ c. c.head) self.now) c)
            (record { name = name.now; desc = desc.now; owner = option_map (name_of (map (λ c. c.head) self.now)) owner }) }
    {
        number_from(
            self.classes,
            self.rows.as_slice(),
            self.places.as_slice(),
            Some(c),
            name,
            desc,
            owner,
        )
    }

    /// The method of the slot with this number, by its number in the record of its class: of those that share the slot the first.
    pub fn slot_at(&self, c: ClassId, k: u32) -> Option<Place>
        requires there { IsIn (map (λ c. c.head) self.now) c }
        requires loads { load_error (mixture_of self.now) (name_of (map (λ c. c.head) self.now) c) ≡ None }
        ensures slot { option_map (slot_at self.now) result ≡ slice_get (slots (mixture_of self.now) (name_of (map (λ c. c.head) self.now) c)) k }
        ensures place { IfSome result (IsPlace self.now) }
    {
        slot_place(
            self.classes,
            self.rows.as_slice(),
            self.places.as_slice(),
            Some(c),
            k,
        )
    }

    /// The methods of the slots that a type has behind its superclass's.
    pub fn added(&self, c: ClassId) -> &[Place]
        requires there { IsIn (map (λ c. c.head) self.now) c }
        requires loads { load_error (mixture_of self.now) (name_of (map (λ c. c.head) self.now) c) ≡ None }
        ensures slots { slots (mixture_of self.now) (name_of (map (λ c. c.head) self.now) c)
            ≡ option_map_or (slots (mixture_of self.now)) (superclass_of (map (λ c. c.head) self.now) c) [] ++ map (slot_at self.now) result.now }
        ensures places { ArePlaces self.now result.now }
    {
        added_slots(
            self.classes,
            self.rows.as_slice(),
            self.places.as_slice(),
            c,
        )
    }

    /// The record of the method at a place, by which its slot has a name and a descriptor.
    pub fn method(&self, place: Place) -> &MethodRecord
        requires { IsPlace self.now place }
        ensures at { IsMethodAt self.now place result.now }
        ensures name { (slot_at self.now place).name ≡ result.now.name }
        ensures desc { (slot_at self.now place).desc ≡ result.now.desc }
        ensures owner { (slot_at self.now place).owner ≡ (if result.now.is_private then Some (name_of (map (λ c. c.head) self.now) place.class) else None) }
        ensures class { IsIn (map (λ c. c.head) self.now) place.class }
    {
        method_at(self.classes, place)
    }

    /// How many fields an object of a type that loads has.
    pub fn field_count(&self, c: ClassId) -> u32
        requires there { IsIn (map (λ c. c.head) self.now) c }
        requires loads { load_error (mixture_of self.now) (name_of (map (λ c. c.head) self.now) c) ≡ None }
        ensures { result ≡ field_count (mixture_of self.now) (name_of (map (λ c. c.head) self.now) c) }
    {
        row_at(self.rows.as_slice(), c).fields
    }

    /// The number in objects of the field with this number in the record of a type that loads.
    pub fn field_number(&self, c: ClassId, field: u32) -> u32
        requires there { IsIn (map (λ c. c.head) self.now) c }
        requires loads { load_error (mixture_of self.now) (name_of (map (λ c. c.head) self.now) c) ≡ None }
        requires field { (f : FieldRecord) × IsFieldAt self.now c field f }
        ensures { (f : FieldRecord) → IsFieldAt self.now c field f
            → result ≡ field_number (mixture_of self.now) (name_of (map (λ c. c.head) self.now) c) (field_of_record f) }
    {
        field_number_at(
            self.classes,
            self.rows.as_slice(),
            self.places.as_slice(),
            c,
            field,
        )
    }
}
