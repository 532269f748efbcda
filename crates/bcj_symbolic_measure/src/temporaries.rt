//! How many temporaries of the frame code needs.
#![tactic(auto, using(crate::proofs::Rules::depth_rules))]

ghost use Rattle.std.specs.Prelude.{◌≡◌};
ghost use Rattle.bcj_symbolic_trees.specs.Types.{method_ref_of};
ghost use Rattle.bcj_symbolic_trees.specs.Trees.{loop};
ghost use Rattle.bcj_symbolic_trees.specs.Plain.{expr_of, exprs_of, place_of, option_of, stmt_of, stmts_of, catches_of};
ghost use Rattle.bcj_symbolic_measure.specs.Depths as spec;
ghost use Rattle.bcj_symbolic_measure.specs.Totals.{capped};

use crate::scheme::is_object;
use crate::totals::larger;
use bcj_symbolic_trees::{MethodRef, SymCatch, SymExpr, SymStmt, UpdatePlace};

/// A part whose value is saved, and what stands behind it.
// Where LLVM 22 turns a recursion into a loop, it keeps the range that it found for a `max`, though the loop's value leaves
// that range, and then drops the `max`. A call that isn't inlined it leaves alone.
#[inline(never)]
#[tactic(auto, unfolding(crate::specs::Depths::saved, crate::specs::Totals::capped))]
fn saved(part: u64, behind: u64) -> u64
    ensures { result ≡ capped (spec.saved part behind) }
{
    part.max(behind.saturating_add(1))
}

/// A part that stands behind so many saved ones.
#[tactic(auto, unfolding(crate::specs::Depths::behind, crate::specs::Totals::capped))]
fn behind(count: usize, part: u64) -> u64
    ensures { result ≡ capped (spec.behind count part) }
{
    part.saturating_add(count as u64)
}

#[cycle(depth)]
fn arguments(args: &[SymExpr]) -> u64
    ensures { result ≡ capped (spec.args_depth (exprs_of args.now)) }
{
    let mut most = 0;
    for (before, argument) in args.iter().enumerate() {
        let kept = saved(expression(argument), 0);
        let reached = behind(before, kept);
        most = larger(most, reached);
    }
    most
}

#[cycle(depth)]
fn expressions(all: &[SymExpr]) -> u64
    ensures { result ≡ capped (spec.exprs_depth (exprs_of all.now)) }
{
    let mut most = 0;
    for e in all {
        most = larger(most, expression(e));
    }
    most
}

#[cycle(depth)]
fn made(args: &[SymExpr], method: &MethodRef) -> u64
    ensures { result ≡ capped (spec.new_depth (method_ref_of method.now) (spec.args_depth (exprs_of args.now))) }
{
    if is_object(&method.class) {
        return 0;
    }
    saved(0, arguments(args))
}

/// An update of a place, with what stands behind its read.
#[cycle(depth)]
fn place(updated: &UpdatePlace, behind: u64) -> u64
    ensures { result ≡ capped (spec.place_depth (place_of updated.now) behind) }
{
    match updated {
        UpdatePlace::Local(_) => behind,
        UpdatePlace::Static(_) => behind,
        UpdatePlace::Field(target, _) => saved(expression(target.get()), behind),
        UpdatePlace::Elem(array, index) => saved(
            expression(array.get()),
            saved(expression(index.get()), behind),
        ),
    }
}

/// The temporaries of an expression.
#[cycle(depth)]
fn expression(e: &SymExpr) -> u64
    ensures { result ≡ capped (spec.expr_depth (expr_of e.now)) }
{
    match e {
        SymExpr::Int(_)
        | SymExpr::Bool(_)
        | SymExpr::Null
        | SymExpr::Local(_)
        | SymExpr::GetStatic(_) => 0,
        SymExpr::SetLocal(_, part)
        | SymExpr::Length(part)
        | SymExpr::Unary(_, part)
        | SymExpr::Widen(_, part) => expression(part.get()),
        SymExpr::SetStatic(_, part)
        | SymExpr::GetField(part, _)
        | SymExpr::NewArray(_, part)
        | SymExpr::Cast(_, part)
        | SymExpr::InstanceOf(part, _) => saved(expression(part.get()), 0),
        SymExpr::SetField(target, _, value) => saved(
            expression(target.get()),
            saved(expression(value.get()), 0),
        ),
        SymExpr::GetElem(first, second) | SymExpr::Binary(_, first, second) => {
            saved(expression(first.get()), expression(second.get()))
        }
        SymExpr::SetElem(array, index, value) => {
            let stored = saved(expression(value.get()), 0);
            saved(
                expression(array.get()),
                saved(expression(index.get()), stored),
            )
        }
        SymExpr::Update {
            place: updated,
            op: _,
            value,
            post: _,
        } => place(updated, saved(0, expression(value.get()))),
        SymExpr::And(first, second) | SymExpr::Or(first, second) => {
            larger(expression(first.get()), expression(second.get()))
        }
        SymExpr::Cond(test, first, second) => larger(
            expression(test.get()),
            larger(expression(first.get()), expression(second.get())),
        ),
        SymExpr::New(method, args) => made(args.as_slice(), method),
        SymExpr::CallStatic(_, args) => arguments(args.as_slice()),
        SymExpr::CallVirtual(target, _, args) | SymExpr::CallInterface(target, _, args) => {
            saved(expression(target.get()), arguments(args.as_slice()))
        }
        SymExpr::CallSpecial(_, args) => saved(0, arguments(args.as_slice())),
        SymExpr::Then {
            first,
            null_test: _,
            second,
        } => larger(expression(first.get()), expression(second.get())),
        SymExpr::Print(_, args) => expressions(args.as_slice()),
    }
}

fn returned(value: &Option<SymExpr>) -> u64
    ensures { result ≡ capped (spec.option_depth (option_of value.now)) }
{
    match value {
        None => 0,
        Some(e) => expression(e),
    }
}

#[cycle(statement)]
fn handlers(catches: &[SymCatch]) -> u64
    ensures { result ≡ capped (spec.catches_depth (catches_of catches.now)) }
{
    let mut most = 0;
    for handler in catches {
        most = larger(most, statements(handler.body.as_slice()));
    }
    most
}

/// The temporaries of statements.
#[cycle(statement)]
pub fn statements(all: &[SymStmt]) -> u64
    ensures { result ≡ capped (spec.stmts_depth (stmts_of all.now)) }
{
    let mut most = 0;
    for one in all {
        most = larger(most, statement(one));
    }
    most
}

#[cycle(statement)]
fn repeated(looped: &SymStmt, test_last: bool, cond: &SymExpr, update: &[SymExpr]) -> u64
    ensures { result ≡ capped (spec.stmt_depth (loop test_last (expr_of cond.now) (stmt_of looped.now) (exprs_of update.now))) }
{
    if test_last {
        return larger(statement(looped), expression(cond));
    }
    larger(
        expression(cond),
        larger(statement(looped), expressions(update)),
    )
}

#[cycle(statement)]
fn statement(one: &SymStmt) -> u64
    ensures { result ≡ capped (spec.stmt_depth (stmt_of one.now)) }
{
    match one {
        SymStmt::Expr(e) | SymStmt::Throw(e) => expression(e),
        SymStmt::If(test, first, second) => larger(
            expression(test),
            larger(statement(first.get()), statement(second.get())),
        ),
        SymStmt::Loop {
            test_last,
            cond,
            body,
            update,
        } => repeated(body.get(), *test_last, cond, update.as_slice()),
        SymStmt::Break | SymStmt::Continue => 0,
        SymStmt::Return(value) => returned(value),
        SymStmt::Try(tried, catches) => {
            larger(statements(tried.as_slice()), handlers(catches.as_slice()))
        }
        SymStmt::Block(all) => statements(all.as_slice()),
    }
}
