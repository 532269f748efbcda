//! The walk over statements.
#![tactic(auto, using(bcj_parser_trees::proofs::PlainLemmas::tree_rules))]

ghost use Rattle.std.specs.Prelude.{OnOk};
ghost use Rattle.bcj_parser_trees.specs.Trees as source;
ghost use Rattle.bcj_parser_trees.specs.Plain.{expr_of, stmt_of, stmts_of, else_of, catch_of, catches_of};
ghost use Rattle.bcj_symbolic_trees.specs.Types.{types_of};
ghost use Rattle.bcj_typing_rules.specs.Context.{in_a_loop};
ghost use Rattle.bcj_typing_rules.specs.function.Statements as spec;
ghost use Rattle.bcj_typing_node.specs.Outcomes.{Tells};
ghost use Rattle.bcj_typing_scope.specs.Scopes.{answers_in, context_of};
ghost use Rattle.bcj_typing_effect.specs.Catches.{handling_of};
ghost use Rattle.bcj_typing_statement.specs.Scoped.{Keeps, Stays};
ghost use Rattle.bcj_typing_statement.specs.Told.{TellsEffect, TellsEffects, TellsEnd};
ghost use Rattle.bcj_typing_statement.specs.Catches.{TellsCaught, behind_at, caught_one};

use crate::asks::lacking;
use crate::leaf::{
    breaking, condition, continuing, evaluation, nothing, returned, throwable, thrown,
};
use crate::local::{declared, enter, leave};
use bcj_parser_trees::{Catch, Expr, Stmt};
use bcj_symbolic_trees::Ty;
use bcj_typing_effect::{
    Acted, Acting, Handled, block, caught, do_loop, empty, followed, for_loop, if_else, no_catches,
    no_statements, try_catch, while_loop,
};
use bcj_typing_expression::{arguments, expression};
use bcj_typing_node::Miss;
use bcj_typing_scope::Scope;
use sqlite_items::Boxed;
use std::alloc::Global;

/// Statements one behind the other. A local that one of them declares is in scope from there on; behind an `Ok` all of them still
/// are, and behind an `Err` nothing is said of the scope's locals and types, nor of whether it stands in a loop.
pub fn statements(alloc: Global, scope: &mut Scope<'_>, body: &[Stmt]) -> Result<Acting, Miss>
    ensures told { TellsEffects (spec.run_all (answers_in scope.old) (context_of scope.old) (types_of scope.old.types) (stmts_of body.now)) result scope.new }
    ensures keeps { OnOk result (Keeps scope.old scope.new) }
{
    sequence(body, alloc, scope)
}

#[cycle(statement)]
fn sequence(body: &[Stmt], alloc: Global, scope: &mut Scope<'_>) -> Result<Acting, Miss>
    ensures told { TellsEffects (spec.run_all (answers_in scope.old) (context_of scope.old) (types_of scope.old.types) (stmts_of body.now)) result scope.new }
    ensures keeps { OnOk result (Keeps scope.old scope.new) }
{
    let mut all = no_statements(alloc);
    for one in body {
        let next = statement(one, alloc, scope)?;
        all = followed(all, next)?;
    }
    Ok(all)
}

/// A block (JLS 14.2).
#[cycle(statement)]
fn enclosed(body: &[Stmt], alloc: Global, scope: &mut Scope<'_>, at: u32) -> Result<Acted, Miss>
    ensures told { TellsEffect (spec.run (answers_in scope.old) (context_of scope.old) (types_of scope.old.types) (source.block at (stmts_of body.now))) result scope.new }
    ensures keeps { OnOk result (Keeps scope.old scope.new) }
{
    let outer = scope.locals.len();
    let all = sequence(body, alloc, scope)?;
    leave(alloc, scope, outer);
    block(alloc, all)
}

/// A statement that is a part of another, behind which its locals have left the scope.
#[cycle(statement)]
fn part(one: &Stmt, alloc: Global, scope: &mut Scope<'_>) -> Result<Acted, Miss>
    ensures told { TellsEnd (spec.run (answers_in scope.old) (context_of scope.old) (types_of scope.old.types) (stmt_of one.now)) result scope.new }
    ensures stays { OnOk result (Stays scope.old scope.new) }
{
    let outer = scope.locals.len();
    let all = statement(one, alloc, scope)?;
    leave(alloc, scope, outer);
    Ok(all)
}

/// The body of a loop.
#[cycle(statement)]
fn turn(one: &Stmt, alloc: Global, scope: &mut Scope<'_>) -> Result<Acted, Miss>
    ensures told { TellsEnd (spec.run (answers_in scope.old) (in_a_loop (context_of scope.old)) (types_of scope.old.types) (stmt_of one.now)) result scope.new }
    ensures stays { OnOk result (Stays scope.old scope.new) }
{
    let in_loop = scope.in_loop;
    scope.in_loop = true;
    let body = part(one, alloc, scope)?;
    scope.in_loop = in_loop;
    Ok(body)
}

/// What an `else` does, where there is one.
#[cycle(statement)]
fn otherwise(
    second: &Option<Boxed<Stmt>>,
    alloc: Global,
    scope: &mut Scope<'_>,
) -> Result<Acted, Miss>
    ensures told { TellsEnd (spec.run_else (answers_in scope.old) (context_of scope.old) (types_of scope.old.types) (else_of second.now)) result scope.new }
    ensures stays { OnOk result (Stays scope.old scope.new) }
{
    match second {
        None => empty(alloc),
        Some(second) => part(second.get(), alloc, scope),
    }
}

/// A `while` (JLS 14.12).
#[cycle(statement)]
fn tested_first(
    body: &Stmt,
    alloc: Global,
    scope: &mut Scope<'_>,
    at: u32,
    cond: &Expr,
) -> Result<Acted, Miss>
    ensures told { TellsEffect (spec.run (answers_in scope.old) (context_of scope.old) (types_of scope.old.types) (source.while_loop at (expr_of cond.now) (stmt_of body.now))) result scope.new }
    ensures keeps { OnOk result (Keeps scope.old scope.new) }
{
    let test = expression(alloc, scope, cond)?;
    let body = turn(body, alloc, scope)?;
    while_loop(alloc, at, test, body)
}

/// A `do` (JLS 14.13).
#[cycle(statement)]
fn tested_last(
    body: &Stmt,
    alloc: Global,
    scope: &mut Scope<'_>,
    at: u32,
    cond: &Expr,
) -> Result<Acted, Miss>
    ensures told { TellsEffect (spec.run (answers_in scope.old) (context_of scope.old) (types_of scope.old.types) (source.do_loop at (stmt_of body.now) (expr_of cond.now))) result scope.new }
    ensures keeps { OnOk result (Keeps scope.old scope.new) }
{
    let body = turn(body, alloc, scope)?;
    let test = expression(alloc, scope, cond)?;
    do_loop(alloc, at, body, test)
}

/// A catch behind others (JLS 14.20).
#[cycle(statement)]
fn handler(
    one: &Catch,
    alloc: Global,
    scope: &mut Scope<'_>,
    before: Handled,
) -> Result<Handled, Miss>
    ensures told { Tells (behind_at scope.new) (caught_one (answers_in scope.old) (context_of scope.old) (types_of scope.old.types) (handling_of before) (catch_of one.now)) result }
    ensures stays { OnOk result (Stays scope.old scope.new) }
{
    let outer = scope.locals.len();
    let to = throwable(alloc)?;
    let missing = lacking(alloc, scope, one, &to)?;
    let class = Ty::Class(one.class.copy(alloc)?);
    let number = enter(alloc, scope, &one.name, &class)?;
    scope.types.push(class)?;
    let body = sequence(one.body.as_slice(), alloc, scope)?;
    leave(alloc, scope, outer);
    let all = caught(alloc, before, &one.class, number, &to, missing, body)?;
    Ok(all)
}

#[cycle(statement)]
fn handlers(catches: &[Catch], alloc: Global, scope: &mut Scope<'_>) -> Result<Handled, Miss>
    ensures told { TellsCaught (spec.run_catches (answers_in scope.old) (context_of scope.old) (types_of scope.old.types) (catches_of catches.now)) result scope.new }
    ensures stays { OnOk result (Stays scope.old scope.new) }
{
    let mut all = no_catches(alloc);
    for one in catches {
        all = handler(one, alloc, scope, all)?;
    }
    Ok(all)
}

/// A statement. The locals that begin a `for` are in scope to its end (JLS 14.14.1).
#[cycle(statement)]
fn statement(one: &Stmt, alloc: Global, scope: &mut Scope<'_>) -> Result<Acted, Miss>
    ensures told { TellsEffect (spec.run (answers_in scope.old) (context_of scope.old) (types_of scope.old.types) (stmt_of one.now)) result scope.new }
    ensures keeps { OnOk result (Keeps scope.old scope.new) }
{
    match one {
        Stmt::Local { at, ty, name, init } => declared(alloc, scope, *at, ty, name, init),
        Stmt::Block { at, body } => enclosed(body.as_slice(), alloc, scope, *at),
        Stmt::Empty { at } => nothing(alloc, scope, *at),
        Stmt::Eval { at, value } => evaluation(alloc, scope, *at, value),
        Stmt::If {
            at,
            cond,
            first,
            second,
        } => {
            let test = expression(alloc, scope, cond)?;
            let first = part(first.get(), alloc, scope)?;
            let second = otherwise(second, alloc, scope)?;
            if_else(alloc, *at, test, first, second)
        }
        Stmt::While { at, cond, body } => tested_first(body.get(), alloc, scope, *at, cond),
        Stmt::Do { at, body, cond } => tested_last(body.get(), alloc, scope, *at, cond),
        Stmt::For {
            at,
            init,
            cond,
            update,
            body,
        } => {
            let outer = scope.locals.len();
            let init = sequence(init.as_slice(), alloc, scope)?;
            let cond = condition(alloc, scope, cond)?;
            let update = arguments(alloc, scope, update.as_slice())?;
            let body = turn(body.get(), alloc, scope)?;
            leave(alloc, scope, outer);
            for_loop(alloc, *at, init, cond, update, body)
        }
        Stmt::Return { at, value } => returned(alloc, scope, *at, value),
        Stmt::Throw { at, value } => thrown(alloc, scope, *at, value),
        Stmt::Break { at } => breaking(alloc, scope, *at),
        Stmt::Continue { at } => continuing(alloc, scope, *at),
        Stmt::Try { at, body, catches } => {
            let begin = scope.locals.len();
            let tried = sequence(body.as_slice(), alloc, scope)?;
            leave(alloc, scope, begin);
            let handled = handlers(catches.as_slice(), alloc, scope)?;
            try_catch(alloc, *at, tried, handled)
        }
    }
}
