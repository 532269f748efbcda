//! The symbolic class of a class or interface (JLS 8.8.9, 12.4, 12.5).
#![tactic(auto, using(crate::proofs::Rules::member_rules))]

ghost use Rattle.std.specs.Prelude.{◌≡◌, map, option_map};
ghost use Rattle.std.specs.List.{list_any};
ghost use Rattle.bcj_parser_trees.specs.Plain as source;
ghost use Rattle.bcj_symbolic_trees.specs.Units as symbolic;
ghost use Rattle.bcj_decl_rules.specs.Faults.{IsDeclared};
ghost use Rattle.bcj_typing_rules.specs.Members as spec;
ghost use Rattle.bcj_typing_rules.specs.function.Expressions.{result as found};
ghost use Rattle.bcj_typing_rules.specs.function.Members as function;
ghost use Rattle.bcj_typing_node.specs.Outcomes.{Tells};
ghost use Rattle.bcj_typing_scope.specs.Surroundings.{IsOfUnit, answers_at, units_at};
ghost use Rattle.bcj_typing_member.specs.Gathered as gathered;
ghost use Rattle.bcj_typing_member.specs.Typed.{added_of, members_of};

use crate::constructor::unwritten_call;
use crate::gather::gathered;
use crate::making::{or_default, with_constructors, with_methods};
use crate::pairs::listed_pairs;
use crate::typed::{Added, Making, Members};
use bcj_decl_table::{TypeInfo, type_info};
use bcj_parser_trees::{Member, TypeDecl};
use bcj_symbolic_trees::{Sequence, SymClass, SymInit};
use bcj_typing_node::Miss;
use bcj_typing_scope::World;
use std::alloc::Global;

fn is_constructor(member: &Member) -> bool
    ensures { result ≡ spec.is_constructor_member (source.member_of member.now) }
{
    match member {
        Member::Constructor { .. } => true,
        Member::Field { .. } | Member::Method { .. } | Member::Static { .. } => false,
    }
}

/// Whether a constructor is written.
fn writes_constructor(members: &[Member]) -> bool
    ensures { result ≡ list_any spec.is_constructor_member (map source.member_of members.now) }
{
    for member in members {
        if is_constructor(member) {
            return true;
        }
    }
    false
}

/// Whether the type is a class that writes no constructor (JLS 8.8.9).
fn has_default(decl: &TypeDecl) -> bool
    ensures { result ≡ gathered.has_default (source.type_of decl.now) }
{
    !decl.interface && !writes_constructor(decl.members.as_slice())
}

/// The first call of the constructor that a class has where it writes none; `decl` is the world's type.
fn start_of<'a>(alloc: Global, world: &'a World<'a>, decl: &TypeDecl) -> Result<Option<Added>, Miss>
    requires { decl.now ≡ world.now.decl }
    ensures { Tells (option_map added_of) (function.default_start (answers_at world.now) (units_at world.now) (source.type_of decl.now)) result }
{
    if !has_default(decl) {
        return Ok(None);
    }
    let first = unwritten_call(alloc, world, decl.at)?;
    Ok(Some(first))
}

fn default_start<'a>(alloc: Global, world: &'a World<'a>) -> Result<Option<Added>, Miss>
    ensures { Tells (option_map added_of) (function.default_start (answers_at world.now) (units_at world.now) (source.type_of world.now.decl)) result }
{
    start_of(alloc, world, world.decl())
}

/// The class of the members that it has.
fn assembled<'a>(
    alloc: Global,
    world: &'a World<'a>,
    members: Members,
    default: Option<Added>,
) -> Result<SymClass, Miss>
    requires declared { IsDeclared (units_at world.now) }
    requires own { IsOfUnit (units_at world.now) world.now.own (source.type_of world.now.decl) }
    requires instances { function.type_initialisers (answers_at world.now) (units_at world.now) (source.type_of world.now.decl) (map source.member_of world.now.decl.members) ≡ found (added_of members.instances) }
    ensures { Tells symbolic.class_of (found (gathered.class_with (source.type_of world.now.decl) (members_of members) (option_map added_of default))) result }
{
    let Members {
        fields,
        types,
        statics,
        instances,
        constructors,
        methods,
    } = members;
    let Added { trees, steps } = statics;
    let constructors = or_default(alloc, &world.decl().name, default, constructors)?;
    let making = Making {
        methods: Sequence::new(alloc),
        steps,
    };
    let making = with_constructors(alloc, world, constructors, instances, making)?;
    let Making { methods, steps } = with_methods(methods, making)?;
    let pairs = listed_pairs(alloc, steps.as_slice())?;
    let TypeInfo {
        head,
        fields: _,
        methods: _,
    } = type_info(alloc, world.decl())?;
    Ok(SymClass {
        head,
        fields,
        init: SymInit {
            locals: types,
            body: trees,
        },
        methods,
        pairs,
    })
}

/// The symbolic class of the type, or the first fault in it.
pub fn class<'a>(alloc: Global, world: &'a World<'a>) -> Result<SymClass, Miss>
    requires declared { IsDeclared (units_at world.now) }
    requires own { IsOfUnit (units_at world.now) world.now.own (source.type_of world.now.decl) }
    ensures { Tells symbolic.class_of (function.type_class (answers_at world.now) (units_at world.now) (source.type_of world.now.decl)) result }
{
    let members = gathered(alloc, world)?;
    let default = default_start(alloc, world)?;
    assembled(alloc, world, members, default)
}
