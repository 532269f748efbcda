ghost use Rattle.std.specs.Prelude.{◌≡◌, List, [], ◌∷◌, ℕ, Some, None, map, if◌then◌else◌, IfOk, OnOk, slice_get};
ghost use Rattle.std.specs.List.{position_from};
ghost use Rattle.std.specs.Option.{option_map_or, option_and_then, option_copied};
ghost use Rattle.std.specs.HashMap.{get_by_text};
ghost use Rattle.std.specs.Str.{bytes_eq};
ghost use Rattle.std.specs.Prelude.{◌++◌};
ghost use Rattle.bcj_decl_rules.specs.Members.{field_named};
ghost use Rattle.bcj_decl_table.specs.Views.{field_of_info, method_of_info, world_in};
ghost use Rattle.bcj_decl_listing.specs.Places.{positions_from};
ghost use Rattle.bcj_decl_listing.specs.Agreement.{HasFields, HasMethods, AreMembersOf, listed};

use crate::index::{Index, note};
use bcj_decl_table::{FieldInfo, MethodInfo, TypeInfo};
use bcj_names::Name;
use std::alloc::{AllocError, Global};
use std::collections::HashMap;

pub type Positions = HashMap<String, Vec<usize>>;

/// The position of the first field of each name, and of all methods of each name.
#[derive(Drop)]
pub struct MemberIndex {
    pub fields: Index,
    pub methods: Positions,
}

pub type MemberIndices = Vec<MemberIndex>;

fn index_fields(alloc: Global, fields: &[FieldInfo]) -> Result<Index, AllocError>
    ensures { IfOk result (λ ix. (q : List ℕ) → get_by_text ix q ≡ position_from (field_named q) 0 (map field_of_info fields.now)) }
{
    let mut index = HashMap::new(alloc);
    for i in 0..fields.len() {
        note(alloc, &mut index, &fields[i].name, i)?;
    }
    Ok(index)
}

/// Puts a position behind those of the name.
fn note_position(
    alloc: Global,
    index: &mut Positions,
    name: &Name,
    position: usize,
) -> Result<(), AllocError>
    ensures { OnOk result
        ((q : List ℕ) → option_map_or (λ g. g.items) (get_by_text index.new q) [] ≡ option_map_or (λ g. g.items) (get_by_text index.old q) [] ++ (if bytes_eq name.now q then position ∷ [] else [])) }
{
    index
        .entry(String::from_str(alloc, name.as_str())?)?
        .or_default()
        .push(position)?;
    Ok(())
}

fn index_methods(alloc: Global, methods: &[MethodInfo]) -> Result<Positions, AllocError>
    ensures { IfOk result (λ ix. (q : List ℕ) → option_map_or (λ g. g.items) (get_by_text ix q) [] ≡ positions_from 0 q (map method_of_info methods.now)) }
{
    let mut index = HashMap::new(alloc);
    for i in 0..methods.len() {
        note_position(alloc, &mut index, &methods[i].name, i)?;
    }
    Ok(index)
}

fn index_members(alloc: Global, info: &TypeInfo) -> Result<MemberIndex, AllocError>
    ensures fields { IfOk result (λ m. HasFields m (map field_of_info info.now.fields)) }
    ensures methods { IfOk result (λ m. HasMethods m (map method_of_info info.now.methods)) }
{
    let fields = index_fields(alloc, info.fields.as_slice())?;
    let methods = index_methods(alloc, info.methods.as_slice())?;
    Ok(MemberIndex { fields, methods })
}

/// The indices of the members of types, in their order.
pub fn members_of(alloc: Global, types: &[TypeInfo]) -> Result<MemberIndices, AllocError>
    ensures { IfOk result (λ ms. AreMembersOf ms.items (world_in types.now)) }
{
    let mut members = Vec::new(alloc);
    for info in types {
        members.push(index_members(alloc, info)?)?;
    }
    Ok(members)
}

/// The position of a field at a place. It takes no memory.
pub fn field_in(members: &[MemberIndex], place: usize, name: &Name) -> Option<usize>
    ensures { result ≡ option_and_then (λ m. get_by_text m.fields name.now) (slice_get members.now place) }
{
    match members.get(place) {
        None => None,
        Some(index) => index.fields.get(name.as_str()).copied(),
    }
}

fn positions_in<'a>(index: &'a MemberIndex, name: &Name) -> &'a [usize]
    ensures { result.now ≡ listed index.now name.now }
{
    match index.methods.get(name.as_str()) {
        None => &[],
        Some(positions) => positions.as_slice(),
    }
}

/// The positions of the methods of a name at a place. It takes no memory.
pub fn methods_in<'a>(members: &'a [MemberIndex], place: usize, name: &Name) -> &'a [usize]
    ensures { result.now ≡ option_map_or (λ m. listed m name.now) (slice_get members.now place) [] }
{
    match members.get(place) {
        None => &[],
        Some(index) => positions_in(index, name),
    }
}
