//! The members of a class or interface in text order (JLS 8.3.2, 8.7, 12.4, 12.5).
#![tactic(auto, using(crate::proofs::Rules::member_rules))]

ghost use Rattle.std.specs.Prelude.{◌≡◌, [], true, map, option_map, IfOk, IfSome, IsSomeAnd};
ghost use Rattle.std.specs.List.{Contains};
ghost use Rattle.bcj_parser_trees.specs.Plain as source;
ghost use Rattle.bcj_symbolic_trees.specs.Types.{types_of};
ghost use Rattle.bcj_decl_rules.specs.Faults.{IsDeclared};
ghost use Rattle.bcj_decl_rules.specs.Members.{field_of};
ghost use Rattle.bcj_decl_table.specs.Views.{field_of_info};
ghost use Rattle.bcj_typing_rules.specs.Members as spec;
ghost use Rattle.bcj_typing_rules.specs.function.Expressions.{and_then, result as found};
ghost use Rattle.bcj_typing_rules.specs.function.Statements.{run_all};
ghost use Rattle.bcj_typing_rules.specs.function.Members as function;
ghost use Rattle.bcj_typing_node.specs.Forms.{worth_of};
ghost use Rattle.bcj_typing_node.specs.Outcomes.{Tells};
ghost use Rattle.bcj_typing_scope.specs.Surroundings.{IsOfUnit, answers_at, units_at, world_around};
ghost use Rattle.bcj_typing_member.specs.Gathered.{no_members, outcome_map, with_member, with_members};
ghost use Rattle.bcj_typing_member.specs.Typed.{added_of, constructor_of, effects_of, members_of, method_of};

use crate::adding::{block, both, nothing};
use crate::body::{initialiser_scope, run};
use crate::constructor::constructor;
use crate::field::{initialiser, own_field, record_of};
use crate::method::{method, method_info};
use crate::typed::{Added, Body, Constructor, Made, Members};
use bcj_decl_table::FieldInfo;
use bcj_names::Name;
use bcj_parser_trees::{Expr, Member, Stmt};
use bcj_symbolic_trees::{Sequence, Types};
use bcj_typing_node::{Miss, worth};
use bcj_typing_scope::World;
use std::alloc::{AllocError, Global};

fn nothing_gathered(alloc: Global) -> Members
    ensures { members_of result ≡ no_members }
{
    Members {
        fields: Sequence::new(alloc),
        types: Sequence::new(alloc),
        statics: nothing(alloc),
        instances: nothing(alloc),
        constructors: Sequence::new(alloc),
        methods: Sequence::new(alloc),
    }
}

/// What initialisers of the class and of its objects add, with that of a field behind them (JLS 12.4.2, 12.5).
fn with_initialiser(
    statics: Added,
    instances: Added,
    field: &FieldInfo,
    added: Option<Added>,
) -> Result<(Added, Added), AllocError>
    ensures statics { IfOk result (λ r. added_of r.0 ≡ function.both_added (added_of statics) (function.static_of (function.typed_field (field_of_info field.now) (worth_of field.now) (option_map added_of added)))) }
    ensures instances { IfOk result (λ r. added_of r.1 ≡ function.both_added (added_of instances) (function.instance_of (function.typed_field (field_of_info field.now) (worth_of field.now) (option_map added_of added)))) }
{
    match added {
        None => Ok((statics, instances)),
        Some(added) => {
            if !field.is_static {
                Ok((statics, both(instances, added)?))
            } else if worth(field).is_some() {
                Ok((statics, instances))
            } else {
                Ok((both(statics, added)?, instances))
            }
        }
    }
}

/// Puts a field behind the others, and what its initialiser adds to what the class or its objects begin with. A static constant
/// has its value from the start.
fn with_field(
    members: Members,
    field: FieldInfo,
    added: Option<Added>,
) -> Result<Members, AllocError>
    ensures { IfOk result (λ m. members_of m ≡ with_member (members_of members) (function.typed_field (field_of_info field) (worth_of field) (option_map added_of added))) }
{
    let Members {
        fields,
        types,
        statics,
        instances,
        constructors,
        methods,
    } = members;
    let (statics, instances) = with_initialiser(statics, instances, &field, added)?;
    let mut fields = fields;
    fields.push(record_of(field))?;
    Ok(Members {
        fields,
        types,
        statics,
        instances,
        constructors,
        methods,
    })
}

/// Puts a block behind what the class begins with; the types are those of all locals so far.
fn with_block(alloc: Global, members: Members, body: Body) -> Result<Members, AllocError>
    ensures { IfOk result (λ m. members_of m ≡ with_member (members_of members) (function.typed_block (effects_of body))) }
{
    let Members {
        fields,
        types: _,
        statics,
        instances,
        constructors,
        methods,
    } = members;
    let Body {
        locals: _,
        types,
        trees,
        steps,
    } = body;
    let trees = block(alloc, trees)?;
    let statics = both(statics, Added { trees, steps })?;
    Ok(Members {
        fields,
        types,
        statics,
        instances,
        constructors,
        methods,
    })
}

fn with_method(members: Members, method: Made) -> Result<Members, AllocError>
    ensures { IfOk result (λ m. members_of m ≡ with_member (members_of members) (method_of method)) }
{
    let mut members = members;
    members.methods.push(method)?;
    Ok(members)
}

fn with_constructor(members: Members, constructor: Constructor) -> Result<Members, AllocError>
    ensures { IfOk result (λ m. members_of m ≡ with_member (members_of members) (constructor_of constructor)) }
{
    let mut members = members;
    members.constructors.push(constructor)?;
    Ok(members)
}

/// Types a field of the type.
fn put_field<'a>(
    alloc: Global,
    world: &'a World<'a>,
    at: u32,
    name: &Name,
    init: &Option<Expr>,
    members: Members,
) -> Result<Members, Miss>
    requires { IsSomeAnd (field_of (world_around world.now) world.now.decl.name name.now) (λ f. f.class ≡ world.now.decl.name) }
    ensures { IfSome (field_of (world_around world.now) world.now.decl.name name.now) (λ f.
        Tells members_of (outcome_map (with_member (members_of members)) (function.type_field (answers_at world.now) (units_at world.now) at f (source.option_of init.now))) result) }
{
    let field = own_field(alloc, world, name)?;
    let added = match init {
        None => None,
        Some(e) => Some(initialiser(alloc, world, at, &field, e)?),
    };
    Ok(with_field(members, field, added)?)
}

/// A block of the class initialiser behind locals of these types.
fn block_of<'a>(
    alloc: Global,
    world: &'a World<'a>,
    types: Types,
    body: &[Stmt],
) -> Result<Body, Miss>
    ensures { Tells effects_of (run_all (answers_at world.now) (spec.initialiser_context (units_at world.now) world.now.decl.name true) (types_of types) (source.stmts_of body.now)) result }
{
    let scope = initialiser_scope(alloc, world, true, types);
    run(alloc, scope, body)
}

/// Types a block of the class initialiser (JLS 8.7).
fn put_block<'a>(
    alloc: Global,
    world: &'a World<'a>,
    body: &[Stmt],
    members: Members,
) -> Result<Members, Miss>
    ensures { Tells members_of (outcome_map (with_member (members_of members))
        (and_then (run_all (answers_at world.now) (spec.initialiser_context (units_at world.now) world.now.decl.name true) (types_of members.types) (source.stmts_of body.now))
        (λ b. found (function.typed_block b)))) result }
{
    let Members {
        fields,
        types,
        statics,
        instances,
        constructors,
        methods,
    } = members;
    let typed = block_of(alloc, world, types, body)?;
    let members = Members {
        fields,
        types: Sequence::new(alloc),
        statics,
        instances,
        constructors,
        methods,
    };
    Ok(with_block(alloc, members, typed)?)
}

/// Types a member of the type and puts it behind the others.
fn put_member<'a>(
    alloc: Global,
    world: &'a World<'a>,
    member: &Member,
    members: Members,
) -> Result<Members, Miss>
    requires declared { IsDeclared (units_at world.now) }
    requires own { IsOfUnit (units_at world.now) world.now.own (source.type_of world.now.decl) }
    requires member { Contains world.now.decl.members member.now }
    ensures { Tells members_of (outcome_map (with_member (members_of members))
        (function.type_member (answers_at world.now) (units_at world.now) (source.type_of world.now.decl) (types_of members.types) (source.member_of member.now))) result }
{
    match member {
        Member::Field {
            at,
            mods: _,
            ty: _,
            name,
            init,
        } => put_field(alloc, world, *at, name, init, members),
        Member::Static { at: _, body } => put_block(alloc, world, body.as_slice(), members),
        Member::Method {
            at: _,
            mods,
            result,
            name,
            params,
            throws: _,
            body,
        } => {
            let info = method_info(alloc, world, *mods, result, name, params.as_slice())?;
            let made = method(alloc, world, info, params.as_slice(), body)?;
            Ok(with_method(members, made)?)
        }
        Member::Constructor {
            at,
            mods,
            name: _,
            params,
            throws: _,
            first,
            body,
        } => {
            let typed = constructor(
                alloc,
                world,
                *at,
                *mods,
                params.as_slice(),
                first,
                body.as_slice(),
            )?;
            Ok(with_constructor(members, typed)?)
        }
    }
}

fn each_gathered<'a>(alloc: Global, world: &'a World<'a>, each: &[Member]) -> Result<Members, Miss>
    requires declared { IsDeclared (units_at world.now) }
    requires own { IsOfUnit (units_at world.now) world.now.own (source.type_of world.now.decl) }
    requires each { each.now ≡ world.now.decl.members }
    ensures { Tells members_of (outcome_map (with_members no_members)
        (function.type_members (answers_at world.now) (units_at world.now) (source.type_of world.now.decl) [] (map source.member_of each.now))) result }
{
    let mut members = nothing_gathered(alloc);
    for member in each {
        members = put_member(alloc, world, member, members)?;
    }
    Ok(members)
}

/// Types the members of the type in text order.
pub fn gathered<'a>(alloc: Global, world: &'a World<'a>) -> Result<Members, Miss>
    requires declared { IsDeclared (units_at world.now) }
    requires own { IsOfUnit (units_at world.now) world.now.own (source.type_of world.now.decl) }
    ensures { Tells members_of (outcome_map (with_members no_members)
        (function.type_members (answers_at world.now) (units_at world.now) (source.type_of world.now.decl) [] (map source.member_of world.now.decl.members))) result }
{
    each_gathered(alloc, world, world.decl().members.as_slice())
}
