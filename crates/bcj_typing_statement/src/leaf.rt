//! Statements that hold no others.
#![tactic(auto, using(bcj_symbolic_trees::proofs::PlainLemmas::tree_rules))]

ghost use Rattle.std.specs.Prelude.{◌≡◌, Some, true, IfOk, if◌then◌else◌};
ghost use Rattle.bcj_parser_trees.specs.Trees as source;
ghost use Rattle.bcj_parser_trees.specs.Plain.{expr_of, option_of};
ghost use Rattle.bcj_symbolic_trees.specs.Types.{ty_of, arg_of, types_of};
ghost use Rattle.bcj_typing_rules.specs.Statements.{throwable, returns_value};
ghost use Rattle.bcj_typing_rules.specs.function.Expressions.{fits};
ghost use Rattle.bcj_typing_rules.specs.function.Statements as spec;
ghost use Rattle.bcj_typing_node.specs.Outcomes.{Tells};
ghost use Rattle.bcj_typing_scope.specs.Scopes.{answers_in, context_of};
ghost use Rattle.bcj_typing_effect.specs.Tests.{test_in};
ghost use Rattle.bcj_typing_statement.specs.Told.{TellsEffect};

use bcj_parser_trees::Expr;
use bcj_symbolic_trees::{Arg, Name, THROWABLE, Ty};
use bcj_typing_effect::{
    Acted, break_loop, continue_loop, empty, evaluated, return_nothing, return_value, throw,
};
use bcj_typing_expression::expression;
use bcj_typing_node::{Miss, Typing};
use bcj_typing_scope::Scope;
use std::alloc::{AllocError, Global};

/// The class of all that can be thrown (JLS 11.1.1).
pub fn throwable(alloc: Global) -> Result<Ty, AllocError>
    ensures { IfOk result (λ t. ty_of t ≡ throwable) }
{
    Ok(Ty::Class(Name::from_str(alloc, THROWABLE)?))
}

/// An expression as a statement (JLS 14.8).
pub fn evaluation(alloc: Global, scope: &Scope<'_>, at: u32, value: &Expr) -> Result<Acted, Miss>
    ensures { TellsEffect (spec.run (answers_in scope.now) (context_of scope.now) (types_of scope.now.types) (source.evaluate at (expr_of value.now))) result scope.now }
{
    let value = expression(alloc, scope, value)?;
    evaluated(alloc, value)
}

/// Whether a value goes to a result of this type.
fn goes_to(scope: &Scope<'_>, from: &Arg, to: &Ty) -> bool
    ensures { result ≡ (if returns_value (Some (ty_of to.now)) then fits (answers_in scope.now) (arg_of from.now) (ty_of to.now) else true) }
{
    match to {
        Ty::Void => true,
        Ty::Int | Ty::Bool | Ty::Class(_) | Ty::Array(_) => scope.fits(from, to),
    }
}

/// Whether a value goes to the result, where there is one.
fn fits_result(scope: &Scope<'_>, from: &Arg) -> bool
    ensures { result ≡ spec.fits_result (answers_in scope.now) (arg_of from.now) (context_of scope.now).result }
{
    match &scope.result {
        None => true,
        Some(to) => goes_to(scope, from, to),
    }
}

/// A `return` of a value.
fn returned_value(alloc: Global, scope: &Scope<'_>, at: u32, value: &Expr) -> Result<Acted, Miss>
    ensures { TellsEffect (spec.run (answers_in scope.now) (context_of scope.now) (types_of scope.now.types) (source.return_with at (source.present (expr_of value.now)))) result scope.now }
{
    let value = expression(alloc, scope, value)?;
    let fits = fits_result(scope, &value.ty);
    return_value(alloc, at, &scope.result, fits, value)
}

/// A `return` (JLS 14.17).
pub fn returned(
    alloc: Global,
    scope: &Scope<'_>,
    at: u32,
    value: &Option<Expr>,
) -> Result<Acted, Miss>
    ensures { TellsEffect (spec.run (answers_in scope.now) (context_of scope.now) (types_of scope.now.types) (source.return_with at (option_of value.now))) result scope.now }
{
    match value {
        None => return_nothing(alloc, at, &scope.result),
        Some(value) => returned_value(alloc, scope, at, value),
    }
}

/// A `throw` (JLS 14.18).
pub fn thrown(alloc: Global, scope: &Scope<'_>, at: u32, value: &Expr) -> Result<Acted, Miss>
    ensures { TellsEffect (spec.run (answers_in scope.now) (context_of scope.now) (types_of scope.now.types) (source.throw at (expr_of value.now))) result scope.now }
{
    let value = expression(alloc, scope, value)?;
    let to = throwable(alloc)?;
    let fits = scope.fits(&value.ty, &to);
    throw(alloc, at, &to, fits, value)
}

/// An empty statement (JLS 14.6).
pub fn nothing(alloc: Global, scope: &Scope<'_>, at: u32) -> Result<Acted, Miss>
    ensures { TellsEffect (spec.run (answers_in scope.now) (context_of scope.now) (types_of scope.now.types) (source.empty at)) result scope.now }
{
    empty(alloc)
}

/// A `break` (JLS 14.15).
pub fn breaking(alloc: Global, scope: &Scope<'_>, at: u32) -> Result<Acted, Miss>
    ensures { TellsEffect (spec.run (answers_in scope.now) (context_of scope.now) (types_of scope.now.types) (source.break_loop at)) result scope.now }
{
    break_loop(alloc, at, scope.in_loop)
}

/// A `continue` (JLS 14.16).
pub fn continuing(alloc: Global, scope: &Scope<'_>, at: u32) -> Result<Acted, Miss>
    ensures { TellsEffect (spec.run (answers_in scope.now) (context_of scope.now) (types_of scope.now.types) (source.continue_loop at)) result scope.now }
{
    continue_loop(alloc, at, scope.in_loop)
}

/// The condition of a `for`, where one is written (JLS 14.14.1).
pub fn condition(
    alloc: Global,
    scope: &Scope<'_>,
    cond: &Option<Expr>,
) -> Result<Option<Typing>, Miss>
    ensures { Tells test_in (spec.test_of (answers_in scope.now) (context_of scope.now) (option_of cond.now)) result }
{
    match cond {
        None => Ok(None),
        Some(cond) => {
            let test = expression(alloc, scope, cond)?;
            Ok(Some(test))
        }
    }
}
