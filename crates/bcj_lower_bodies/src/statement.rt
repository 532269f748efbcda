//! The lines and ranges of statements. A statement has its labels from `k` on; each call gives the first label behind them.
#![tactic(auto, using(crate::proofs::Rules::code_rules))]

ghost use Rattle.std.specs.Prelude.{◌≡◌, ◌+◌, ◌++◌, true, false, OnOk, IfOk};
ghost use Rattle.bcj_symbolic_trees.specs.Trees.{loop, no_exprs};
ghost use Rattle.bcj_symbolic_trees.specs.Plain.{expr_of, exprs_of, option_of, stmt_of, stmts_of, catches_of};
ghost use Rattle.bcj_lower_rules.specs.Lines.{place, jump};
ghost use Rattle.bcj_lower_rules.specs.Words.{turn};
ghost use Rattle.bcj_lower_rules.specs.Nodes as spec;
ghost use Rattle.bcj_lower_rules.specs.Ranges as ranges;
ghost use Rattle.bcj_lower_rules.specs.Bodies.{no_loop};
ghost use Rattle.bcj_lower_words.specs.Views.{lines_of};
ghost use Rattle.bcj_lower_bodies.specs.Views.{context_of, around_of, ranges_of};

use crate::code::Code;
use crate::context::{Around, Context};
use crate::counting::{behind, label_count};
use crate::expression::{expression, expressions};
use crate::range::own_ranges;
use bcj_lower_words::Lines;
use bcj_symbolic_trees::{SymCatch, SymExpr, SymStmt};
use rv_steps::services;
use std::alloc::AllocError;

/// The first temporary.
const FIRST: u16 = 0;

/// The labels of an `if`.
const IF_LABELS: u32 = 2;

/// The labels of a loop.
const LOOP_LABELS: u32 = 3;

/// The labels of a `try` beside those of its catches.
const TRY_LABELS: u32 = 3;

/// The lines of the value of a return.
#[tactic(auto, using(crate::proofs::Rules::line_rules))]
fn returned<'a>(
    value: &'a Option<SymExpr>,
    k: u32,
    context: &Context<'a>,
    lines: &mut Lines<'a>,
) -> Result<u32, AllocError>
    ensures lines { OnOk result (lines_of lines.new ≡ lines_of lines.old ++ spec.option_lines (context_of context.now) k (option_of value.now)) }
    ensures labels { IfOk result (λ next. next ≡ k + spec.option_labels (option_of value.now)) }
{
    match value {
        None => Ok(k),
        Some(e) => expression(e, FIRST, k, context, lines),
    }
}

/// A loop begins at label `k`, with a turn.
fn begin_loop<'a>(k: u32, lines: &mut Lines<'a>) -> Result<(), AllocError>
    ensures { OnOk result (lines_of lines.new ≡ lines_of lines.old ++ (place k ++ turn)) }
{
    lines.place(k)?;
    lines.turn()
}

/// And ends: it goes back to `k`, and is left to here.
fn end_loop<'a>(k: u32, leave: u32, lines: &mut Lines<'a>) -> Result<(), AllocError>
    ensures { OnOk result (lines_of lines.new ≡ lines_of lines.old ++ (jump k ++ place leave)) }
{
    lines.jump(k)?;
    lines.place(leave)
}

/// The code of catches, at labels from `target` on; each goes to `end` behind its block.
#[cycle(statement)]
fn handlers<'a>(
    catches: &'a [SymCatch],
    end: u32,
    target: u32,
    k: u32,
    around: Around,
    context: &Context<'a>,
    code: &mut Code<'a>,
) -> Result<u32, AllocError>
    ensures lines { OnOk result (lines_of code.new.lines ≡ lines_of code.old.lines ++ spec.catches_lines (context_of context.now) (around_of around) end target k (catches_of catches.now)) }
    ensures ranges { OnOk result (ranges_of code.new.ranges.items ≡ ranges_of code.old.ranges.items ++ ranges.catches_ranges k (catches_of catches.now)) }
    ensures labels { IfOk result (λ next. next ≡ k + spec.catches_labels (catches_of catches.now)) }
{
    let mut at = target;
    let mut next = k;
    for handler in catches {
        code.lines.place(at)?;
        code.lines.set_local(context.frame, handler.local)?;
        next = statements(handler.body.as_slice(), next, around, context, code)?;
        code.lines.jump(end)?;
        at = behind(at, 1)?;
    }
    Ok(next)
}

/// The code of statements.
#[cycle(statement)]
pub fn statements<'a>(
    all: &'a [SymStmt],
    k: u32,
    around: Around,
    context: &Context<'a>,
    code: &mut Code<'a>,
) -> Result<u32, AllocError>
    ensures lines { OnOk result (lines_of code.new.lines ≡ lines_of code.old.lines ++ spec.stmts_lines (context_of context.now) (around_of around) k (stmts_of all.now)) }
    ensures ranges { OnOk result (ranges_of code.new.ranges.items ≡ ranges_of code.old.ranges.items ++ ranges.stmts_ranges k (stmts_of all.now)) }
    ensures labels { IfOk result (λ next. next ≡ k + spec.stmts_labels (stmts_of all.now)) }
{
    let mut next = k;
    for one in all {
        next = statement(one, next, around, context, code)?;
    }
    Ok(next)
}

/// The code of a loop that tests before its body.
#[cycle(statement)]
fn test_before<'a>(
    looped: &'a SymStmt,
    cond: &'a SymExpr,
    update: &'a [SymExpr],
    k: u32,
    context: &Context<'a>,
    code: &mut Code<'a>,
) -> Result<u32, AllocError>
    ensures lines { OnOk result (lines_of code.new.lines ≡ lines_of code.old.lines ++ spec.stmt_lines (context_of context.now) no_loop k (loop false (expr_of cond.now) (stmt_of looped.now) (exprs_of update.now))) }
    ensures ranges { OnOk result (ranges_of code.new.ranges.items ≡ ranges_of code.old.ranges.items ++ ranges.stmt_ranges k (loop false (expr_of cond.now) (stmt_of looped.now) (exprs_of update.now))) }
    ensures labels { IfOk result (λ next. next ≡ k + spec.stmt_labels (loop false (expr_of cond.now) (stmt_of looped.now) (exprs_of update.now))) }
{
    let leave = behind(k, 1)?;
    let again = behind(k, 2)?;
    begin_loop(k, &mut code.lines)?;
    let inner = behind(k, LOOP_LABELS)?;
    let next = expression(cond, FIRST, inner, context, &mut code.lines)?;
    code.lines.jump_if_zero(leave)?;
    let next = statement(looped, next, Around { leave, again }, context, code)?;
    code.lines.place(again)?;
    let next = expressions(update, FIRST, next, context, &mut code.lines)?;
    end_loop(k, leave, &mut code.lines)?;
    Ok(next)
}

/// The code of a loop that tests behind its body.
#[cycle(statement)]
fn test_behind<'a>(
    looped: &'a SymStmt,
    cond: &'a SymExpr,
    k: u32,
    context: &Context<'a>,
    code: &mut Code<'a>,
) -> Result<u32, AllocError>
    ensures lines { OnOk result (lines_of code.new.lines ≡ lines_of code.old.lines ++ spec.stmt_lines (context_of context.now) no_loop k (loop true (expr_of cond.now) (stmt_of looped.now) no_exprs)) }
    ensures ranges { OnOk result (ranges_of code.new.ranges.items ≡ ranges_of code.old.ranges.items ++ ranges.stmt_ranges k (loop true (expr_of cond.now) (stmt_of looped.now) no_exprs)) }
    ensures labels { IfOk result (λ next. next ≡ k + spec.stmt_labels (loop true (expr_of cond.now) (stmt_of looped.now) no_exprs)) }
{
    let leave = behind(k, 1)?;
    let again = behind(k, 2)?;
    begin_loop(k, &mut code.lines)?;
    let inner = behind(k, LOOP_LABELS)?;
    let next = statement(looped, inner, Around { leave, again }, context, code)?;
    code.lines.place(again)?;
    let next = expression(cond, FIRST, next, context, &mut code.lines)?;
    code.lines.jump_if_zero(leave)?;
    end_loop(k, leave, &mut code.lines)?;
    Ok(next)
}

/// The code of a statement.
#[cycle(statement)]
fn statement<'a>(
    one: &'a SymStmt,
    k: u32,
    around: Around,
    context: &Context<'a>,
    code: &mut Code<'a>,
) -> Result<u32, AllocError>
    ensures lines { OnOk result (lines_of code.new.lines ≡ lines_of code.old.lines ++ spec.stmt_lines (context_of context.now) (around_of around) k (stmt_of one.now)) }
    ensures ranges { OnOk result (ranges_of code.new.ranges.items ≡ ranges_of code.old.ranges.items ++ ranges.stmt_ranges k (stmt_of one.now)) }
    ensures labels { IfOk result (λ next. next ≡ k + spec.stmt_labels (stmt_of one.now)) }
{
    match one {
        SymStmt::Expr(e) => expression(e, FIRST, k, context, &mut code.lines),
        SymStmt::If(test, first, second) => {
            let end = behind(k, 1)?;
            let inner = behind(k, IF_LABELS)?;
            let next = expression(test, FIRST, inner, context, &mut code.lines)?;
            code.lines.jump_if_zero(k)?;
            let next = statement(first.get(), next, around, context, code)?;
            code.lines.jump(end)?;
            code.lines.place(k)?;
            let next = statement(second.get(), next, around, context, code)?;
            code.lines.place(end)?;
            Ok(next)
        }
        SymStmt::Loop {
            test_last,
            cond,
            body,
            update,
        } => {
            if *test_last {
                test_behind(body.get(), cond, k, context, code)
            } else {
                test_before(body.get(), cond, update.as_slice(), k, context, code)
            }
        }
        SymStmt::Break => {
            code.lines.jump(around.leave)?;
            Ok(k)
        }
        SymStmt::Continue => {
            code.lines.jump(around.again)?;
            Ok(k)
        }
        SymStmt::Return(value) => {
            let next = returned(value, k, context, &mut code.lines)?;
            code.lines.exit(context.frame)?;
            Ok(next)
        }
        SymStmt::Throw(e) => {
            let next = expression(e, FIRST, k, context, &mut code.lines)?;
            code.lines.service(services::THROW)?;
            Ok(next)
        }
        SymStmt::Try(tried, catches) => {
            let behind_body = behind(k, 1)?;
            let end = behind(k, 2)?;
            let target = behind(k, TRY_LABELS)?;
            let inner = behind(target, label_count(catches.len())?)?;
            code.lines.place(k)?;
            let next = statements(tried.as_slice(), inner, around, context, code)?;
            code.lines.place(behind_body)?;
            code.lines.jump(end)?;
            let next = handlers(catches.as_slice(), end, target, next, around, context, code)?;
            code.lines.place(end)?;
            own_ranges(catches.as_slice(), k, behind_body, target, &mut code.ranges)?;
            Ok(next)
        }
        SymStmt::Block(all) => statements(all.as_slice(), k, around, context, code),
    }
}
