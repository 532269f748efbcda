//! The first node of an expression that the language that runs lacks.
#![tactic(auto, using(bcj_parser_trees::proofs::PlainLemmas::tree_rules))]

ghost use Rattle.std.specs.Prelude.{◌≡◌, false};
ghost use Rattle.bcj_parser_trees.specs.Plain.{expr_of, exprs_of, option_of};
ghost use Rattle.bcj_cli_unit.specs.function.Outcomes.{Finds};
ghost use Rattle.bcj_cli_unit.specs.Lacking as spec;
ghost use Rattle.bcj_cli_unit.specs.Limits.{max_parentheses};

use crate::kind::{assigns, is_out, is_print, is_sum, joins};
use crate::scope::Scope;
use crate::stop::UnitStop;
use bcj_parser_trees::Expr;

/// How deep parentheses may nest.
const MAX_PARENTHESES: usize = 64;

/// The largest value of an `int`.
pub const MAX_INT: u128 = 0x7fff_ffff;

/// Whether a node is in order.
pub fn check(holds: bool, at: u32) -> Result<(), UnitStop>
    ensures { Finds (spec.unless holds at) result }
{
    if holds {
        Ok(())
    } else {
        Err(UnitStop::NotBuilt { at })
    }
}

/// A node that the language lacks.
pub fn lack(at: u32) -> Result<(), UnitStop>
    ensures { Finds (spec.unless false at) result }
{
    Err(UnitStop::NotBuilt { at })
}

/// Walks over an expression, in which parentheses may nest `room` deep.
#[cycle(expression)]
fn expression_within(e: &Expr, room: usize, scope: &Scope<'_>) -> Result<(), UnitStop>
    ensures { Finds (spec.lacking scope.now.names room (expr_of e.now)) result }
{
    match e {
        Expr::Int { at, value, .. } => check(*value <= MAX_INT, *at),
        Expr::Name { at, name } => check(scope.knows(name), *at),
        Expr::Paren { at, part } => {
            expression_within(part.get(), room.saturating_sub(1), scope)?;
            check(0 < room && is_sum(part.get()), *at)
        }
        Expr::Binary {
            at,
            op,
            left,
            right,
        } => {
            expression_within(left.get(), room, scope)?;
            expression_within(right.get(), room, scope)?;
            check(joins(*op, left.get(), right.get()), *at)
        }
        Expr::DotCall {
            at,
            target,
            name,
            args,
        } => {
            if !is_out(target.get()) {
                expression_within(target.get(), room, scope)?;
            }
            expressions_within(args.as_slice(), room, scope)?;
            check(is_print(target.get(), name, args.as_slice()), *at)
        }
        Expr::Assign {
            at,
            op,
            place,
            value,
        } => {
            expression_within(place.get(), room, scope)?;
            expression_within(value.get(), room, scope)?;
            check(assigns(op, place.get(), value.get()), *at)
        }
        Expr::Bool { at, .. }
        | Expr::Null { at }
        | Expr::This { at }
        | Expr::SuperField { at, .. } => lack(*at),
        Expr::Dot {
            at,
            target: part,
            ..
        }
        | Expr::NewArray {
            at,
            length: part,
            ..
        }
        | Expr::Unary { at, part, .. }
        | Expr::Step {
            at,
            place: part,
            ..
        }
        | Expr::Cast { at, part, .. }
        | Expr::InstanceOf { at, part, .. } => {
            expression_within(part.get(), room, scope)?;
            lack(*at)
        }
        Expr::Call { at, args, .. }
        | Expr::SuperCall { at, args, .. }
        | Expr::New { at, args, .. } => {
            expressions_within(args.as_slice(), room, scope)?;
            lack(*at)
        }
        Expr::Elem { at, array, index } => {
            expression_within(array.get(), room, scope)?;
            expression_within(index.get(), room, scope)?;
            lack(*at)
        }
        Expr::Cond {
            at,
            test,
            first,
            second,
        } => {
            expression_within(test.get(), room, scope)?;
            expression_within(first.get(), room, scope)?;
            expression_within(second.get(), room, scope)?;
            lack(*at)
        }
    }
}

#[cycle(expression)]
fn expressions_within(all: &[Expr], room: usize, scope: &Scope<'_>) -> Result<(), UnitStop>
    ensures { Finds (spec.all_lacking scope.now.names room (exprs_of all.now)) result }
{
    for e in all {
        expression_within(e, room, scope)?;
    }
    Ok(())
}

pub fn expression(e: &Expr, scope: &Scope<'_>) -> Result<(), UnitStop>
    ensures { Finds (spec.lacking_in scope.now.names (expr_of e.now)) result }
{
    expression_within(e, MAX_PARENTHESES, scope)
}

pub fn expressions(all: &[Expr], scope: &Scope<'_>) -> Result<(), UnitStop>
    ensures { Finds (spec.all_lacking scope.now.names max_parentheses (exprs_of all.now)) result }
{
    expressions_within(all, MAX_PARENTHESES, scope)
}

pub fn optional(e: &Option<Expr>, scope: &Scope<'_>) -> Result<(), UnitStop>
    ensures { Finds (spec.option_lacking scope.now.names (option_of e.now)) result }
{
    match e {
        None => Ok(()),
        Some(e) => expression(e, scope),
    }
}
