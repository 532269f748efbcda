//! Methods (JLS 8.4, 9.4).
#![tactic(auto, using(crate::proofs::Rules::member_rules))]

ghost use Rattle.std.specs.Prelude.{◌≡◌, [], IfOk};
ghost use Rattle.bcj_parser_trees.specs.Plain as source;
ghost use Rattle.bcj_parser_trees.specs.Trees as parsed;
ghost use Rattle.bcj_symbolic_trees.specs.Types.{types_of};
ghost use Rattle.bcj_symbolic_trees.specs.Trees.{no_stmts, stmts_from};
ghost use Rattle.bcj_symbolic_trees.specs.Units as symbolic;
ghost use Rattle.bcj_decl_rules.specs.World as decl;
ghost use Rattle.bcj_decl_rules.specs.Faults as faults;
ghost use Rattle.bcj_typing_rules.specs.Members as spec;
ghost use Rattle.bcj_typing_rules.specs.function.Members as function;
ghost use Rattle.bcj_typing_rules.specs.function.Statements.{run_all};
ghost use Rattle.bcj_decl_table.specs.Views.{method_of_info};
ghost use Rattle.bcj_typing_node.specs.Outcomes.{Tells};
ghost use Rattle.bcj_typing_node.specs.Typings.{pairs_of};
ghost use Rattle.bcj_typing_scope.specs.Scopes.{context_of};
ghost use Rattle.bcj_typing_scope.specs.Surroundings.{answers_at, units_at};
ghost use Rattle.bcj_typing_member.specs.Typed.{effects_of, made_of, method_of, trees_of};

use crate::body::{body_scope, run};
use crate::params::first_types;
use crate::typed::{Body, Made};
use bcj_decl_table::{MethodInfo, param_types, type_of};
use bcj_names::Name;
use bcj_parser_trees::{Access, Mods, Param, Stmt, TypeName};
use bcj_symbolic_trees::{MethodKind, Sequence, SymMethod, SymStmt, Types};
use bcj_typing_node::{Finals, Miss};
use bcj_typing_scope::{Scope, World};
use sqlite_items::Items;
use std::alloc::{AllocError, Global};

/// Whether a member is private (JLS 6.6.1).
pub fn is_private(mods: Mods) -> bool
    ensures { result ≡ decl.is_private mods }
{
    match mods.access {
        Access::Private => true,
        Access::Open | Access::Public | Access::Protected => false,
    }
}

/// What a method is; one of an interface is abstract (JLS 9.4).
fn kind_in(interface: bool, mods: Mods) -> MethodKind
    ensures { result ≡ decl.kind_in interface mods }
{
    if interface || mods.is_abstract {
        MethodKind::Abstract
    } else if mods.is_static {
        MethodKind::Static
    } else {
        MethodKind::Instance
    }
}

/// A method of the type, as its text declares it.
pub fn method_info(
    alloc: Global,
    world: &World<'_>,
    mods: Mods,
    outcome: &TypeName,
    name: &Name,
    params: &[Param],
) -> Result<MethodInfo, AllocError>
    ensures { IfOk result (λ m. method_of_info m ≡ decl.method_with world.now.decl.interface world.now.decl.name mods outcome.now name.now params.now) }
{
    Ok(MethodInfo {
        class: world.decl().name.copy(alloc)?,
        name: name.copy(alloc)?,
        params: param_types(alloc, params)?,
        result: type_of(alloc, outcome)?,
        kind: kind_in(world.decl().interface, mods),
        is_private: is_private(mods),
    })
}

fn is_static(info: &MethodInfo) -> bool
    ensures { result ≡ faults.is_static (method_of_info info.now) }
{
    match info.kind {
        MethodKind::Static => true,
        MethodKind::Instance => false,
        MethodKind::Abstract => false,
        MethodKind::Constructor => false,
    }
}

/// The record of a method with the types of its locals and its body.
fn record_of(info: MethodInfo, locals: Types, body: Items<SymStmt>) -> SymMethod
    ensures { symbolic.method_of result ≡ spec.method_record (method_of_info info) (types_of locals) (stmts_from (trees_of body)) }
{
    let MethodInfo {
        class: _,
        name,
        params,
        result,
        kind,
        is_private,
    } = info;
    SymMethod {
        name,
        params,
        result,
        kind,
        is_private,
        locals,
        body,
    }
}

/// A method without a body.
fn abstract_method(alloc: Global, info: MethodInfo, params: &[Param]) -> Result<Made, AllocError>
    ensures { IfOk result (λ m. made_of m ≡ record {
      method = spec.method_record (method_of_info info) (spec.first_types info.class (faults.is_static (method_of_info info)) (decl.param_types params.now)) no_stmts;
      steps = [];
    }) }
{
    let types = first_types(alloc, &info.class, is_static(&info), params)?;
    Ok(Made {
        method: record_of(info, types, Items::new(alloc)),
        steps: Sequence::new(alloc),
    })
}

fn made(info: MethodInfo, body: Body) -> Made
    ensures { made_of result ≡ record {
      method = spec.method_record (method_of_info info) (types_of body.types) (stmts_from (trees_of body.trees));
      steps = pairs_of body.steps;
    } }
{
    let Body {
        locals: _,
        types,
        trees,
        steps,
    } = body;
    Made {
        method: record_of(info, types, trees),
        steps,
    }
}

/// The scope of a method's body.
fn scope_of<'a>(
    alloc: Global,
    world: &'a World<'a>,
    info: &MethodInfo,
    params: &[Param],
) -> Result<Scope<'a>, AllocError>
    requires { info.now.class ≡ world.now.decl.name }
    ensures world { IfOk result (λ s. s.world.now ≡ world.entry.now) }
    ensures context { IfOk result (λ s. context_of s ≡ spec.method_context (units_at world.entry.now) (method_of_info info.now) params.now) }
    ensures types { IfOk result (λ s. types_of s.types ≡ spec.first_types info.now.class (faults.is_static (method_of_info info.now)) (decl.param_types params.now)) }
{
    let outcome = info.result.copy(alloc)?;
    body_scope(alloc, world, is_static(info), outcome, Finals::Not, params)
}

/// The body of a method.
fn body_of<'a>(
    alloc: Global,
    world: &'a World<'a>,
    info: &MethodInfo,
    params: &[Param],
    body: &[Stmt],
) -> Result<Body, Miss>
    requires { info.now.class ≡ world.now.decl.name }
    ensures { Tells effects_of (run_all (answers_at world.now) (spec.method_context (units_at world.now) (method_of_info info.now) params.now)
        (spec.first_types info.now.class (faults.is_static (method_of_info info.now)) (decl.param_types params.now)) (source.stmts_of body.now)) result }
{
    let scope = scope_of(alloc, world, info, params)?;
    run(alloc, scope, body)
}

/// A method with a body.
fn with_body<'a>(
    alloc: Global,
    world: &'a World<'a>,
    info: MethodInfo,
    params: &[Param],
    body: &[Stmt],
) -> Result<Made, Miss>
    requires { info.class ≡ world.now.decl.name }
    ensures { Tells method_of (function.type_method (answers_at world.now) (units_at world.now) (method_of_info info) params.now (parsed.with_body (source.stmts_of body.now))) result }
{
    let typed = body_of(alloc, world, &info, params, body)?;
    Ok(made(info, typed))
}

/// Types a method (JLS 8.4.7).
pub fn method<'a>(
    alloc: Global,
    world: &'a World<'a>,
    info: MethodInfo,
    params: &[Param],
    body: &Option<Items<Stmt>>,
) -> Result<Made, Miss>
    requires { info.class ≡ world.now.decl.name }
    ensures { Tells method_of (function.type_method (answers_at world.now) (units_at world.now) (method_of_info info) params.now (source.body_of body.now)) result }
{
    match body {
        None => Ok(abstract_method(alloc, info, params)?),
        Some(body) => with_body(alloc, world, info, params, body.as_slice()),
    }
}
