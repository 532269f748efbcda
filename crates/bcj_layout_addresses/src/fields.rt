ghost use Rattle.std.specs.Prelude.{◌≡◌, ◌+◌, ◌*◌, ◌<◌, true, length, map, slice_get, Some, IfOk};
ghost use Rattle.std.specs.List.{filter, position};
ghost use Rattle.bcj_tables_rules.specs.declared.records.FieldRecord.{FieldRecord as Field};
ghost use Rattle.bcj_tables_rules.specs.declared.records.ClassRecord.{ClassRecord as Record};
ghost use Rattle.bcj_hier_rules.specs.Shapes.{field_of_record};
ghost use Rattle.bcj_hier_rules.specs.Heads.{IsIn, name_of};
ghost use Rattle.bcj_hier_rules.specs.Trees.{loads};
ghost use Rattle.bcj_layout_rules.specs.Rows.{mixture_of};
ghost use Rattle.bcj_layout_rules.specs.Members.{field_number};
ghost use Rattle.bcj_layout_rules.specs.Places.{word_size};
ghost use Rattle.bcj_layout_rules.specs.Entries.{field_offset};
ghost use Rattle.bcj_layout_members.specs.Places.{IsFieldAt};
ghost use Rattle.bcj_layout_resolution.specs.Places.{heads_in};
ghost use Rattle.bcj_layout_addresses.specs.Lists.{is_same_field, static_place, place_in, fields_by, AreFieldsOf};

use crate::address::address;
use bcj_hier_rules::ClassId;
use bcj_layout_members::Members;
use bcj_layout_places::Words;
use bcj_layout_resolution::Resolver;
use bcj_names::Name;
use bcj_symbolic_trees::Sequence;
use bcj_tables_rules::FieldRecord;
use std::alloc::{AllocError, Global};

/// The bytes of a word.
const WORD_SIZE: u32 = 4;

/// The last offset of 32 bits that is a multiple of 4: no object has a field there.
const LAST_OFFSET: u64 = 4294967292;

fn is_same(field: &FieldRecord, name: &Name, desc: &Name) -> bool
    ensures { result ≡ is_same_field name.now desc.now field.now }
{
    field.name.same(name) && field.ty.same(desc)
}

/// The number of a field among the static ones.
fn static_number(fields: &[FieldRecord], name: &Name, desc: &Name) -> Option<usize>
    ensures { result ≡ position (is_same_field name.now desc.now) (filter (λ f. f.is_static) fields.now) }
{
    let mut number = 0;
    for field in fields {
        if field.is_static {
            if is_same(field, name, desc) {
                return Some(number);
            }
            number += 1;
        }
    }
    None
}

/// The address of the word with this number behind another.
fn word_behind(start: u32, number: usize) -> Result<u32, AllocError>
    ensures { IfOk result (λ a. a ≡ start + word_size * number) }
{
    let Ok(number) = u32::try_from(number) else {
        return Err(AllocError);
    };
    match number.checked_mul(WORD_SIZE) {
        None => Err(AllocError),
        Some(offset) => address(start, offset),
    }
}

/// Where a static field is, by where those of its class begin.
fn static_place(
    statics: u32,
    fields: &[FieldRecord],
    field: &FieldRecord,
) -> Result<u32, AllocError>
    ensures { IfOk result (λ a. a ≡ static_place statics fields.now field.now) }
{
    match static_number(fields, &field.name, &field.ty) {
        None => Ok(statics),
        Some(number) => word_behind(statics, number),
    }
}

/// The offset in objects of the field with this number, behind the word with the row.
fn field_offset(number: u32) -> u32
    ensures { result ≡ field_offset number }
{
    let offset = WORD_SIZE as u64 + WORD_SIZE as u64 * number as u64;
    if LAST_OFFSET < offset {
        LAST_OFFSET as u32
    } else {
        offset as u32
    }
}

/// The offset of a field that isn't static, by its number in the record of a class that loads.
fn offset_at(members: &Members<'_>, class: ClassId, k: usize) -> Result<u32, AllocError>
    requires there { IsIn (heads_in members.now) class }
    requires loads { loads (mixture_of members.now) (name_of (heads_in members.now) class) ≡ true }
    requires field { (f : Field) × IsFieldAt members.now class k f }
    ensures { IfOk result (λ w. (f : Field) → IsFieldAt members.now class k f
        → w ≡ field_offset (field_number (mixture_of members.now) (name_of (heads_in members.now) class) (field_of_record f))) }
{
    match u32::try_from(k) {
        Err(_) => Err(AllocError),
        Ok(field) => Ok(field_offset(members.field_number(class, field))),
    }
}

/// Where a field is, by its number in the record of its class.
fn place_at(
    members: &Members<'_>,
    class: ClassId,
    is_loaded: bool,
    statics: u32,
    fields: &[FieldRecord],
    k: usize,
) -> Result<u32, AllocError>
    requires there { IsIn (heads_in members.now) class }
    requires loads { is_loaded ≡ loads (mixture_of members.now) (name_of (heads_in members.now) class) }
    requires fields { AreFieldsOf members.now class fields.now }
    requires within { k < length fields.now }
    ensures { IfOk result (λ w. (f : Field) → slice_get fields.now k ≡ Some f
        → w ≡ place_in statics is_loaded (field_number (mixture_of members.now) (name_of (heads_in members.now) class)) fields.now f) }
{
    let field = &fields[k];
    if field.is_static {
        return static_place(statics, fields, field);
    }
    if is_loaded {
        offset_at(members, class, k)
    } else {
        Ok(0)
    }
}

/// Where the fields of a class are.
fn places_of(
    alloc: Global,
    members: &Members<'_>,
    class: ClassId,
    is_loaded: bool,
    statics: u32,
    fields: &[FieldRecord],
) -> Result<Words, AllocError>
    requires there { IsIn (heads_in members.now) class }
    requires loads { is_loaded ≡ loads (mixture_of members.now) (name_of (heads_in members.now) class) }
    requires fields { AreFieldsOf members.now class fields.now }
    ensures { IfOk result (λ ws.
        ws ≡ map (place_in statics is_loaded (field_number (mixture_of members.now) (name_of (heads_in members.now) class)) fields.now) fields.now) }
{
    let mut words = Sequence::new(alloc);
    for k in 0..fields.len() {
        words.push(place_at(members, class, is_loaded, statics, fields, k)?)?;
    }
    Ok(words)
}

fn is_loaded(resolver: &Resolver, class: ClassId) -> bool
    requires { IsIn (heads_in resolver.now) class }
    ensures { result ≡ loads (mixture_of resolver.now) (name_of (heads_in resolver.now) class) }
{
    resolver.hier().load(class).is_ok()
}

fn fields_of(resolver: &Resolver, class: ClassId) -> &[FieldRecord]
    requires { IsIn (heads_in resolver.now) class }
    ensures { AreFieldsOf resolver.now class result.now }
{
    let classes = resolver.records().classes.as_slice();
    classes[class.0 as usize].fields.as_slice()
}

/// Where the fields of a class are, by where its static ones begin.
pub fn field_words(
    alloc: Global,
    resolver: &Resolver,
    members: &Members<'_>,
    class: ClassId,
    statics: u32,
) -> Result<Words, AllocError>
    requires same { members.now ≡ resolver.now }
    requires there { IsIn (heads_in resolver.now) class }
    ensures { IfOk result (λ ws. (c : Record) → slice_get resolver.now class.0 ≡ Some c → ws ≡ fields_by statics resolver.now c) }
{
    let is_loaded = is_loaded(resolver, class);
    let fields = fields_of(resolver, class);
    places_of(alloc, members, class, is_loaded, statics, fields)
}
