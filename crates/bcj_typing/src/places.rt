//! The places of the bodies of a class, in the order of its record.
#![tactic(auto, using(crate::proofs::Rules::limit_rules))]

ghost use Rattle.std.specs.Prelude.{◌≡◌, [], ◌∷◌, ◌++◌, map, filter, IfOk, OnOk};
ghost use Rattle.bcj_parser_trees.specs.Plain as tree;
ghost use Rattle.bcj_decl_rules.specs.Faults.{member_at};
ghost use Rattle.bcj_typing_rules.specs.Members as rules;
ghost use Rattle.bcj_typing.specs.Limits as spec;

use bcj_parser_trees::{Member, TypeDecl};
use bcj_symbolic_trees::Sequence;
use std::alloc::{AllocError, Global};

fn push_constructor(member: &Member, places: &mut Sequence<u32>) -> Result<(), AllocError>
    ensures { OnOk result (places.new ≡ places.old ++ map member_at (filter rules.is_constructor_member (tree.member_of member.now ∷ []))) }
{
    match member {
        Member::Constructor {
            at,
            mods: _,
            name: _,
            params: _,
            throws: _,
            first: _,
            body: _,
        } => places.push(*at),
        Member::Field { .. } | Member::Method { .. } | Member::Static { .. } => Ok(()),
    }
}

fn push_method(member: &Member, places: &mut Sequence<u32>) -> Result<(), AllocError>
    ensures { OnOk result (places.new ≡ places.old ++ map member_at (filter rules.is_method_member (tree.member_of member.now ∷ []))) }
{
    match member {
        Member::Method {
            at,
            mods: _,
            result: _,
            name: _,
            params: _,
            throws: _,
            body: _,
        } => places.push(*at),
        Member::Field { .. } | Member::Constructor { .. } | Member::Static { .. } => Ok(()),
    }
}

fn push_constructors(members: &[Member], places: &mut Sequence<u32>) -> Result<(), AllocError>
    ensures { OnOk result (places.new ≡ places.old ++ map member_at (filter rules.is_constructor_member (map tree.member_of members.now))) }
{
    for member in members {
        push_constructor(member, places)?;
    }
    Ok(())
}

fn push_methods(members: &[Member], places: &mut Sequence<u32>) -> Result<(), AllocError>
    ensures { OnOk result (places.new ≡ places.old ++ map member_at (filter rules.is_method_member (map tree.member_of members.now))) }
{
    for member in members {
        push_method(member, places)?;
    }
    Ok(())
}

fn constructor_places(alloc: Global, decl: &TypeDecl) -> Result<Sequence<u32>, AllocError>
    ensures { IfOk result (λ ps. ps ≡ spec.constructor_places (tree.type_of decl.now)) }
{
    let mut places = Sequence::new(alloc);
    if decl.interface {
        return Ok(places);
    }
    push_constructors(decl.members.as_slice(), &mut places)?;
    if places.len() == 0 {
        places.push(decl.at)?;
    }
    Ok(places)
}

/// The places of the class initialiser, the constructors and the methods.
pub fn body_places(alloc: Global, decl: &TypeDecl) -> Result<Sequence<u32>, AllocError>
    ensures { IfOk result (λ ps. ps ≡ spec.body_places (tree.type_of decl.now)) }
{
    let mut first = Vec::new(alloc);
    first.push(decl.at)?;
    let mut constructors = constructor_places(alloc, decl)?.into_vec();
    first.append(&mut constructors)?;
    let mut places = Sequence::of(first);
    push_methods(decl.members.as_slice(), &mut places)?;
    Ok(places)
}
