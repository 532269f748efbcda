//! What runs where an object is made (JLS 8.3.2, 12.5), typed alone.
#![tactic(auto, using(crate::proofs::Rules::member_rules))]

ghost use Rattle.std.specs.Prelude.{◌≡◌, map, if◌then◌else◌, IfSome, IsSomeAnd};
ghost use Rattle.std.specs.List.{Contains};
ghost use Rattle.bcj_parser_trees.specs.Plain as source;
ghost use Rattle.bcj_decl_rules.specs.Faults.{IsDeclared};
ghost use Rattle.bcj_decl_rules.specs.Members.{field_of};
ghost use Rattle.bcj_typing_rules.specs.Members as spec;
ghost use Rattle.bcj_typing_rules.specs.function.Expressions.{result as found};
ghost use Rattle.bcj_typing_rules.specs.function.Members as function;
ghost use Rattle.bcj_typing_node.specs.Outcomes.{Tells};
ghost use Rattle.bcj_typing_scope.specs.Surroundings.{IsOfUnit, answers_at, units_at, world_around};
ghost use Rattle.bcj_typing_member.specs.Gathered as gathered;
ghost use Rattle.bcj_typing_member.specs.Initialised.{AreInitialisers};
ghost use Rattle.bcj_typing_member.specs.Parts.{instance_in};
ghost use Rattle.bcj_typing_member.specs.Typed.{added_of};

use crate::adding::{both, nothing};
use crate::field::{initialiser, own_field};
use crate::typed::Added;
use bcj_names::Name;
use bcj_parser_trees::{Expr, Member};
use bcj_typing_node::Miss;
use bcj_typing_scope::World;
use std::alloc::Global;

/// Puts what the initialiser of an object's field adds behind the others.
fn with_field<'a>(
    alloc: Global,
    world: &'a World<'a>,
    at: u32,
    name: &Name,
    e: &Expr,
    added: Added,
) -> Result<Added, Miss>
    requires { IsSomeAnd (field_of (world_around world.now) world.now.decl.name name.now) (λ f. f.class ≡ world.now.decl.name) }
    ensures { IfSome (field_of (world_around world.now) world.now.decl.name name.now) (λ f.
        Tells added_of (gathered.outcome_map (function.both_added (added_of added))
        (if f.is_static then found spec.nothing_added else function.type_initialiser (answers_at world.now) (units_at world.now) at f (source.expr_of e.now))) result) }
{
    let field = own_field(alloc, world, name)?;
    if field.is_static {
        return Ok(added);
    }
    let more = initialiser(alloc, world, at, &field, e)?;
    Ok(both(added, more)?)
}

/// Puts what a field adds where an object is made behind the others.
fn with_option<'a>(
    alloc: Global,
    world: &'a World<'a>,
    at: u32,
    name: &Name,
    init: &Option<Expr>,
    added: Added,
) -> Result<Added, Miss>
    requires { IsSomeAnd (field_of (world_around world.now) world.now.decl.name name.now) (λ f. f.class ≡ world.now.decl.name) }
    ensures { IfSome (field_of (world_around world.now) world.now.decl.name name.now) (λ f.
        Tells added_of (gathered.outcome_map (function.both_added (added_of added)) (instance_in (answers_at world.now) (units_at world.now) at f (source.option_of init.now))) result) }
{
    match init {
        None => Ok(added),
        Some(e) => with_field(alloc, world, at, name, e, added),
    }
}

/// Puts what a member adds where an object is made behind the others.
fn with_part<'a>(
    alloc: Global,
    world: &'a World<'a>,
    member: &Member,
    added: Added,
) -> Result<Added, Miss>
    requires declared { IsDeclared (units_at world.now) }
    requires own { IsOfUnit (units_at world.now) world.now.own (source.type_of world.now.decl) }
    requires member { Contains world.now.decl.members member.now }
    ensures { Tells added_of (gathered.outcome_map (function.both_added (added_of added))
        (function.type_instance (answers_at world.now) (units_at world.now) (source.type_of world.now.decl) (source.member_of member.now))) result }
{
    match member {
        Member::Field {
            at,
            mods: _,
            ty: _,
            name,
            init,
        } => with_option(alloc, world, *at, name, init, added),
        Member::Method { .. } | Member::Constructor { .. } | Member::Static { .. } => Ok(added),
    }
}

fn each_initialiser<'a>(alloc: Global, world: &'a World<'a>, each: &[Member]) -> Result<Added, Miss>
    requires declared { IsDeclared (units_at world.now) }
    requires own { IsOfUnit (units_at world.now) world.now.own (source.type_of world.now.decl) }
    requires each { each.now ≡ world.now.decl.members }
    ensures { Tells added_of (function.type_initialisers (answers_at world.now) (units_at world.now) (source.type_of world.now.decl) (map source.member_of each.now)) result }
{
    let mut added = nothing(alloc);
    for member in each {
        added = with_part(alloc, world, member, added)?;
    }
    Ok(added)
}

/// Types the initialisers of objects alone (JLS 8.3.2, 12.5).
fn initialisers<'a>(alloc: Global, world: &'a World<'a>) -> Result<Added, Miss>
    requires declared { IsDeclared (units_at world.now) }
    requires own { IsOfUnit (units_at world.now) world.now.own (source.type_of world.now.decl) }
    ensures { Tells added_of (function.type_initialisers (answers_at world.now) (units_at world.now) (source.type_of world.now.decl) (map source.member_of world.now.decl.members)) result }
{
    each_initialiser(alloc, world, world.decl().members.as_slice())
}

/// The initialisers of objects for a constructor; those that are ready go to the first that takes them, and for others they are typed again.
pub fn initialisers_for<'a>(
    alloc: Global,
    world: &'a World<'a>,
    to_super: bool,
    ready: &mut Option<Added>,
) -> Result<Added, Miss>
    requires declared { IsDeclared (units_at world.now) }
    requires own { IsOfUnit (units_at world.now) world.now.own (source.type_of world.now.decl) }
    requires ready { AreInitialisers world.now ready.old }
    ensures added { (i : spec.Added) → function.type_initialisers (answers_at world.now) (units_at world.now) (source.type_of world.now.decl) (map source.member_of world.now.decl.members) ≡ found i
        → Tells added_of (found (spec.with_initialisers to_super i)) result }
    ensures ready { AreInitialisers world.now ready.new }
{
    if !to_super {
        return Ok(nothing(alloc));
    }
    match ready.take() {
        Some(added) => Ok(added),
        None => initialisers(alloc, world),
    }
}
