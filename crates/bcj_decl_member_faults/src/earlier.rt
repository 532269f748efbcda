ghost use Rattle.std.specs.Prelude.{◌≡◌, ◌<◌, List, ℕ, Some, take, map, slice_get, length, if◌then◌else◌, IfOk, OnOk};
ghost use Rattle.std.specs.List.{list_any};
ghost use Rattle.std.specs.HashMap.{get_by_text};
ghost use Rattle.std.specs.Str.{bytes_eq};
ghost use Rattle.bcj_parser_trees.specs.Trees.{PlainMember};
ghost use Rattle.bcj_parser_trees.specs.Plain as tree;
ghost use Rattle.bcj_decl_member_faults.specs.Earlier as spec;
ghost use Rattle.bcj_decl_member_faults.specs.Last as last;

use crate::again::is_again;
use bcj_names::Name;
use bcj_parser_trees::Member;
use std::alloc::{AllocError, Global};
use std::collections::HashMap;

/// Where the last field and the last method of each name stand, and the last constructor.
#[derive(Drop)]
pub struct Last {
    fields: HashMap<String, usize>,
    methods: HashMap<String, usize>,
    constructor: Option<usize>,
}

fn replace_place(
    alloc: Global,
    places: &mut HashMap<String, usize>,
    name: &Name,
    place: usize,
) -> Result<Option<usize>, AllocError>
    ensures old { IfOk result (λ o. o ≡ get_by_text places.old name.now) }
    ensures new { OnOk result ((q : List ℕ) → get_by_text places.new q ≡ (if bytes_eq name.now q then Some place else get_by_text places.old q)) }
{
    let before = places.insert(String::from_str(alloc, name.as_str())?, place)?;
    Ok(before)
}

/// Takes a member in, and gives the last one that is like it.
fn note(
    alloc: Global,
    places: &mut Last,
    member: &Member,
    position: usize,
) -> Result<Option<usize>, AllocError>
    ensures old { IfOk result (λ o. o ≡ last.last_of places.old (tree.member_of member.now)) }
    ensures new { OnOk result (last.TakesIn places.old places.new (tree.member_of member.now) position) }
{
    match member {
        Member::Field { name, .. } => replace_place(alloc, &mut places.fields, name, position),
        Member::Method { name, .. } => replace_place(alloc, &mut places.methods, name, position),
        Member::Constructor { .. } => {
            let before = places.constructor;
            places.constructor = Some(position);
            Ok(before)
        }
        Member::Static { .. } => Ok(None),
    }
}

/// For each member the last one before it that is like it.
pub fn earlier_of(alloc: Global, members: &[Member]) -> Result<Vec<Option<usize>>, AllocError>
    ensures each { IfOk result (λ e. spec.AreEarlier (map tree.member_of members.now) e.items) }
    ensures all { IfOk result (λ e. length e.items ≡ length members.now) }
{
    let mut places = Last {
        fields: HashMap::new(alloc),
        methods: HashMap::new(alloc),
        constructor: None,
    };
    let mut earlier = Vec::new(alloc);
    for i in 0..members.len() {
        let before = note(alloc, &mut places, &members[i], i)?;
        earlier.push(before)?;
    }
    Ok(earlier)
}

/// Whether the same field, method or constructor stands before the one at a position. It takes no memory.
pub fn stands_before(members: &[Member], earlier: &[Option<usize>], position: usize) -> bool
    requires each { spec.AreEarlier (map tree.member_of members.now) earlier.now }
    requires all { length earlier.now ≡ length members.now }
    requires within { position < length members.now }
    ensures { (m : PlainMember) → slice_get (map tree.member_of members.now) position ≡ Some m → result ≡ list_any (spec.is_again m) (take position (map tree.member_of members.now)) }
{
    let mut at = earlier[position];
    while let Some(k) = at {
        if is_again(&members[position], &members[k]) {
            return true;
        }
        at = earlier[k];
    }
    false
}
