//! Constructors and their first calls (JLS 8.8.7, 8.8.9).
#![tactic(auto, using(crate::proofs::Rules::member_rules))]

ghost use Rattle.std.specs.Prelude.{◌≡◌, [], Some, false, true, IfOk, OnOk};
ghost use Rattle.std.specs.Option.{option_copied};
ghost use Rattle.bcj_parser_trees.specs.Plain as source;
ghost use Rattle.bcj_parser_trees.specs.Trees as parsed;
ghost use Rattle.bcj_symbolic_trees.specs.Types.{types_of};
ghost use Rattle.bcj_decl_rules.specs.World as decl;
ghost use Rattle.bcj_typing_rules.specs.Context.{superclass_at};
ghost use Rattle.bcj_typing_rules.specs.Members as spec;
ghost use Rattle.bcj_typing_rules.specs.function.Expressions.{and_then, result as found, type_exprs};
ghost use Rattle.bcj_typing_rules.specs.function.Statements.{run_all};
ghost use Rattle.bcj_typing_rules.specs.function.Members as function;
ghost use Rattle.bcj_typing_node.specs.declared.form.Finals.TheVariants as finals;
ghost use Rattle.bcj_typing_node.specs.Outcomes.{Tells};
ghost use Rattle.bcj_typing_node.specs.Typings.{typings_of};
ghost use Rattle.bcj_typing_scope.specs.Scopes.{answers_in, context_of};
ghost use Rattle.bcj_typing_scope.specs.Surroundings.{answers_at, units_at};
ghost use Rattle.bcj_typing_call.specs.Calls.{starting_of};
ghost use Rattle.bcj_typing_member.specs.Typed.{added_of, constructor_of, effects_of};

use crate::body::{body_scope, initialiser_scope, run};
use crate::method::is_private;
use crate::typed::{Added, Body, Constructor};
use bcj_decl_table::param_types;
use bcj_names::Name;
use bcj_parser_trees::{Expr, First, Mods, Param, Stmt};
use bcj_symbolic_trees::{Sequence, Ty, Types};
use bcj_typing_call::{Starting, constructor_call};
use bcj_typing_expression::arguments;
use bcj_typing_node::{Finals, Miss, Typings};
use bcj_typing_rules::Kind;
use bcj_typing_scope::{Scope, World};
use std::alloc::{AllocError, Global};

fn added(starting: Starting) -> Added
    ensures { added_of result ≡ starting_of starting }
{
    let Starting { trees, steps } = starting;
    Added { trees, steps }
}

/// The call of a constructor of a class.
fn named_call(
    alloc: Global,
    scope: &Scope<'_>,
    at: u32,
    class: &Name,
    args: Typings,
) -> Result<Added, Miss>
    ensures { Tells added_of (function.type_first (answers_in scope.now) (units_at scope.now.world.now) (context_of scope.now) at (typings_of args) (Some class.now)) result }
{
    let chosen = scope.constructor(alloc, class, args.as_slice())?;
    let starting = constructor_call(alloc, at, scope.class(), class, chosen, args)?;
    Ok(added(starting))
}

/// The call of a constructor of a class, where there is one.
fn first_call(
    alloc: Global,
    scope: &Scope<'_>,
    at: u32,
    class: Option<&Name>,
    args: Typings,
) -> Result<Added, Miss>
    ensures { Tells added_of (function.type_first (answers_in scope.now) (units_at scope.now.world.now) (context_of scope.now) at (typings_of args) (option_copied class.entry)) result }
{
    match class {
        None => Err(Miss::Untyped {
            at,
            kind: Kind::Method,
        }),
        Some(class) => named_call(alloc, scope, at, class, args),
    }
}

/// The call of the superclass's constructor without arguments, which stands first where no call does (JLS 8.8.7).
pub fn unwritten_call<'a>(alloc: Global, world: &'a World<'a>, at: u32) -> Result<Added, Miss>
    ensures { Tells added_of (function.type_first (answers_at world.now) (units_at world.now) (spec.constructor_context (units_at world.now) world.now.decl.name []) at []
        (superclass_at (spec.constructor_context (units_at world.now) world.now.decl.name []))) result }
{
    let scope = initialiser_scope(alloc, world, false, Sequence::new(alloc));
    first_call(alloc, &scope, at, scope.superclass(), Sequence::new(alloc))
}

/// The class whose constructor is called first.
fn called_class<'s>(scope: &'s Scope<'_>, to_super: bool) -> Option<&'s Name>
    ensures { option_copied result ≡ spec.called_class (context_of scope.entry.now) to_super }
{
    if to_super {
        scope.superclass()
    } else {
        Some(scope.class())
    }
}

/// The arguments of a first call, which have no `this` (JLS 8.8.7.1).
fn first_arguments(alloc: Global, scope: &mut Scope<'_>, args: &[Expr]) -> Result<Typings, Miss>
    requires this { scope.old.is_static ≡ false }
    requires finals { scope.old.finals ≡ finals.Instance }
    ensures typings { Tells typings_of (type_exprs (answers_in scope.old) (spec.before_this (context_of scope.old)) (source.exprs_of args.now)) result }
    ensures same { OnOk result (scope.new ≡ scope.old) }
{
    scope.is_static = true;
    scope.finals = Finals::Not;
    let typings = arguments(alloc, scope, args)?;
    scope.is_static = false;
    scope.finals = Finals::Instance;
    Ok(typings)
}

/// The scope of a constructor's body.
fn scope_of<'a>(
    alloc: Global,
    world: &'a World<'a>,
    params: &[Param],
) -> Result<Scope<'a>, AllocError>
    ensures world { IfOk result (λ s. s.world.now ≡ world.entry.now) }
    ensures this { IfOk result (λ s. s.is_static ≡ false) }
    ensures finals { IfOk result (λ s. s.finals ≡ finals.Instance) }
    ensures context { IfOk result (λ s. context_of s ≡ spec.constructor_context (units_at world.entry.now) world.entry.now.decl.name params.now) }
    ensures types { IfOk result (λ s. types_of s.types ≡ spec.first_types world.entry.now.decl.name false (decl.param_types params.now)) }
{
    body_scope(alloc, world, false, Ty::Void, Finals::Instance, params)
}

/// The statements behind a first call.
fn with_first(
    alloc: Global,
    scope: Scope<'_>,
    is_private: bool,
    params: Types,
    first: Added,
    to_super: bool,
    body: &[Stmt],
) -> Result<Constructor, Miss>
    ensures { Tells constructor_of (and_then (run_all (answers_in scope.entry) (context_of scope.entry) (types_of scope.entry.types) (source.stmts_of body.now))
        (λ b. found (function.typed_constructor is_private (types_of params) (added_of first) to_super b))) result }
{
    let typed = run(alloc, scope, body)?;
    Ok(Constructor {
        is_private,
        params,
        first,
        to_super,
        body: typed,
    })
}

/// A first call by its typed arguments, and the statements.
fn with_arguments(
    alloc: Global,
    scope: Scope<'_>,
    is_private: bool,
    params: Types,
    first: &First,
    args: Typings,
    body: &[Stmt],
) -> Result<Constructor, Miss>
    ensures { Tells constructor_of (and_then
        (function.type_first (answers_in scope.entry) (units_at scope.entry.world.now) (context_of scope.entry) first.now.at (typings_of args)
        (spec.called_class (context_of scope.entry) first.now.to_super))
        (λ x. and_then (run_all (answers_in scope.entry) (context_of scope.entry) (types_of scope.entry.types) (source.stmts_of body.now))
        (λ b. found (function.typed_constructor is_private (types_of params) x first.now.to_super b)))) result }
{
    let class = called_class(&scope, first.to_super);
    let added = first_call(alloc, &scope, first.at, class, args)?;
    with_first(
        alloc,
        scope,
        is_private,
        params,
        added,
        first.to_super,
        body,
    )
}

/// A constructor whose first call is written: its arguments, the call, and the statements.
fn with_call<'a>(
    alloc: Global,
    scope: Scope<'a>,
    is_private: bool,
    params: Types,
    first: &First,
    body: &[Stmt],
) -> Result<Constructor, Miss>
    requires this { scope.is_static ≡ false }
    requires finals { scope.finals ≡ finals.Instance }
    requires types { types_of scope.types ≡ spec.first_types scope.world.now.decl.name false (types_of params) }
    ensures { Tells constructor_of (function.type_constructor (answers_in scope.entry) (units_at scope.entry.world.now) (context_of scope.entry) (types_of params) is_private first.now.at
        (parsed.first_call first.now.at first.now.to_super (source.exprs_of first.now.args)) (source.stmts_of body.now)) result }
{
    let mut scope = scope;
    let args = first_arguments(alloc, &mut scope, first.args.as_slice())?;
    with_arguments(alloc, scope, is_private, params, first, args, body)
}

/// The statements of a constructor without a first call.
fn body_of<'a>(
    alloc: Global,
    world: &'a World<'a>,
    params: &[Param],
    body: &[Stmt],
) -> Result<Body, Miss>
    ensures { Tells effects_of (run_all (answers_at world.now) (spec.constructor_context (units_at world.now) world.now.decl.name params.now)
        (spec.first_types world.now.decl.name false (decl.param_types params.now)) (source.stmts_of body.now)) result }
{
    let scope = scope_of(alloc, world, params)?;
    run(alloc, scope, body)
}

/// The call that isn't written, which stands for the whole behind the statements.
fn with_unwritten<'a>(
    alloc: Global,
    world: &'a World<'a>,
    at: u32,
    is_private: bool,
    params: Types,
    body: Body,
) -> Result<Constructor, Miss>
    ensures { Tells constructor_of (and_then
        (function.type_first (answers_at world.now) (units_at world.now) (spec.constructor_context (units_at world.now) world.now.decl.name []) at []
        (superclass_at (spec.constructor_context (units_at world.now) world.now.decl.name [])))
        (λ first. found (function.typed_constructor is_private (types_of params) first true (effects_of body)))) result }
{
    let first = unwritten_call(alloc, world, at)?;
    Ok(Constructor {
        is_private,
        params,
        first,
        to_super: true,
        body,
    })
}

/// A constructor without a first call: the statements, and then the whole.
fn without_call<'a>(
    alloc: Global,
    world: &'a World<'a>,
    at: u32,
    is_private: bool,
    params: &[Param],
    body: &[Stmt],
) -> Result<Constructor, Miss>
    ensures { Tells constructor_of (function.type_constructor (answers_at world.now) (units_at world.now) (spec.constructor_context (units_at world.now) world.now.decl.name params.now)
        (decl.param_types params.now) is_private at parsed.no_first (source.stmts_of body.now)) result }
{
    let types = param_types(alloc, params)?;
    let typed = body_of(alloc, world, params, body)?;
    with_unwritten(alloc, world, at, is_private, types, typed)
}

/// A constructor with a first call.
fn written<'a>(
    alloc: Global,
    world: &'a World<'a>,
    is_private: bool,
    params: &[Param],
    first: &First,
    body: &[Stmt],
) -> Result<Constructor, Miss>
    ensures { Tells constructor_of (function.type_constructor (answers_at world.now) (units_at world.now) (spec.constructor_context (units_at world.now) world.now.decl.name params.now)
        (decl.param_types params.now) is_private first.now.at (parsed.first_call first.now.at first.now.to_super (source.exprs_of first.now.args)) (source.stmts_of body.now)) result }
{
    let scope = scope_of(alloc, world, params)?;
    let types = param_types(alloc, params)?;
    with_call(alloc, scope, is_private, types, first, body)
}

/// Types a constructor (JLS 8.8.7).
pub fn constructor<'a>(
    alloc: Global,
    world: &'a World<'a>,
    at: u32,
    mods: Mods,
    params: &[Param],
    first: &Option<First>,
    body: &[Stmt],
) -> Result<Constructor, Miss>
    ensures { Tells constructor_of (function.type_constructor (answers_at world.now) (units_at world.now) (spec.constructor_context (units_at world.now) world.now.decl.name params.now)
        (decl.param_types params.now) (decl.is_private mods) at (source.first_of_constructor first.now) (source.stmts_of body.now)) result }
{
    match first {
        None => without_call(alloc, world, at, is_private(mods), params, body),
        Some(first) => written(alloc, world, is_private(mods), params, first, body),
    }
}
