//! The first node of statements that the language that runs lacks.
#![tactic(auto, using(bcj_parser_trees::proofs::PlainLemmas::tree_rules))]

ghost use Rattle.std.specs.Prelude.{◌≡◌, true};
ghost use Rattle.bcj_parser_trees.specs.Plain.{option_of, stmt_of, stmts_of, else_of, catch_of, catches_of};
ghost use Rattle.bcj_cli_unit.specs.function.Outcomes.{Finds, Walks};
ghost use Rattle.bcj_cli_unit.specs.Lacking as spec;

use crate::expression::{check, expression, expressions, lack, optional};
use crate::kind::{is_block, is_choice, is_evaluation, is_int, is_present_sum, is_test};
use crate::scope::Scope;
use crate::stop::UnitStop;
use bcj_names::Name;
use bcj_parser_trees::{Catch, Expr, Stmt, TypeName};
use sqlite_items::Boxed;
use std::alloc::Global;

/// How deep blocks may nest.
const MAX_BLOCKS: usize = 64;

/// Whether `int x = e` may stand here.
fn may_declare(scope: &Scope<'_>, ty: &TypeName, name: &Name, init: &Option<Expr>) -> bool
    ensures { result ≡ spec.may_declare scope.now ty.now name.now (option_of init.now) }
{
    is_int(ty)
        && is_present_sum(init)
        && !scope.knows(name)
        && name.as_str() != "System"
        && scope.has_room()
}

/// The statements of a body: they stand in no scope but their own.
pub fn body(alloc: Global, all: &[Stmt]) -> Result<(), UnitStop>
    ensures { Finds (spec.body_lacks (stmts_of all.now)) result }
{
    let mut scope = Scope::new(alloc);
    statements(all, MAX_BLOCKS, &mut scope)
}

#[cycle(statement)]
fn statements<'a>(all: &'a [Stmt], room: usize, scope: &mut Scope<'a>) -> Result<(), UnitStop>
    ensures { Walks (spec.all_lacks room scope.old (stmts_of all.entry.now)) (spec.behind_all scope.old (stmts_of all.entry.now)) result scope.new }
{
    for one in all {
        statement(one, false, room, scope)?;
    }
    Ok(())
}

/// Statements whose own locals leave the scope behind them.
#[cycle(statement)]
fn enclosed<'a>(all: &'a [Stmt], room: usize, scope: &mut Scope<'a>) -> Result<(), UnitStop>
    ensures { Walks (spec.all_lacks room scope.old (stmts_of all.entry.now)) (spec.leave scope.old (spec.behind_all scope.old (stmts_of all.entry.now))) result scope.new }
{
    let outer = scope.len();
    statements(all, room, scope)?;
    scope.leave(outer);
    Ok(())
}

/// The second branch of an `if` at `at`, which has the right form where `holds`.
#[cycle(statement)]
fn otherwise<'a>(
    second: &'a Option<Boxed<Stmt>>,
    room: usize,
    scope: &mut Scope<'a>,
    holds: bool,
    at: u32,
) -> Result<(), UnitStop>
    ensures { Walks (spec.first_of (spec.else_lacks room scope.old (else_of second.entry.now)) (spec.unless holds at)) (spec.else_behind scope.old (else_of second.entry.now)) result scope.new }
{
    match second {
        None => check(holds, at),
        Some(s) => {
            statement(s.get(), true, room, scope)?;
            check(holds, at)
        }
    }
}

#[cycle(statement)]
fn handler<'a>(handler: &'a Catch, room: usize, scope: &mut Scope<'a>) -> Result<(), UnitStop>
    ensures { Walks (spec.catch_lacks room scope.old (catch_of handler.entry.now)) (spec.catch_behind scope.old (catch_of handler.entry.now)) result scope.new }
{
    enclosed(handler.body.as_slice(), room, scope)
}

#[cycle(statement)]
fn handlers<'a>(all: &'a [Catch], room: usize, scope: &mut Scope<'a>) -> Result<(), UnitStop>
    ensures { Finds (spec.catches_lack room scope.old (catches_of all.entry.now)) result }
{
    for one in all {
        handler(one, room, scope)?;
    }
    Ok(())
}

/// Walks over a statement, in which blocks may nest `room` deep; `is_body` says that it is a body of another one.
#[cycle(statement)]
fn statement<'a>(
    one: &'a Stmt,
    is_body: bool,
    room: usize,
    scope: &mut Scope<'a>,
) -> Result<(), UnitStop>
    ensures { Walks (spec.lacks is_body room scope.old (stmt_of one.entry.now)) (spec.behind scope.old (stmt_of one.entry.now)) result scope.new }
{
    match one {
        Stmt::Local { at, ty, name, init } => {
            optional(init, scope)?;
            check(may_declare(scope, ty, name, init), *at)?;
            Ok(scope.declare(name)?)
        }
        Stmt::Block { at, body } => {
            enclosed(body.as_slice(), room.saturating_sub(1), scope)?;
            check(is_body && 0 < room, *at)
        }
        Stmt::Eval { at, value } => {
            expression(value, scope)?;
            check(is_evaluation(value), *at)
        }
        Stmt::If {
            at,
            cond,
            first,
            second,
        } => {
            expression(cond, scope)?;
            statement(first.get(), true, room, scope)?;
            let holds = is_choice(cond, first.get(), second);
            otherwise(second, room, scope, holds, *at)
        }
        Stmt::While { at, cond, body } => {
            expression(cond, scope)?;
            statement(body.get(), true, room, scope)?;
            check(is_test(cond) && is_block(body.get()), *at)
        }
        Stmt::Do { at, body, cond } => {
            statement(body.get(), true, room, scope)?;
            expression(cond, scope)?;
            lack(*at)
        }
        Stmt::For {
            at,
            init,
            cond,
            update,
            body,
        } => {
            statements(init.as_slice(), room, scope)?;
            optional(cond, scope)?;
            expressions(update.as_slice(), scope)?;
            statement(body.get(), true, room, scope)?;
            lack(*at)
        }
        Stmt::Try { at, body, catches } => {
            enclosed(body.as_slice(), room, scope)?;
            handlers(catches.as_slice(), room, scope)?;
            lack(*at)
        }
        Stmt::Return { at, value } => {
            optional(value, scope)?;
            lack(*at)
        }
        Stmt::Throw { at, value } => {
            expression(value, scope)?;
            lack(*at)
        }
        Stmt::Empty { at } | Stmt::Break { at } | Stmt::Continue { at } => lack(*at),
    }
}
