//! A walk over statements.
#![tactic(auto, using(crate::proofs::Rulesets::walk_rules))]

ghost use Rattle.std.specs.Prelude.{◌≡◌};
ghost use Rattle.bcj_symbolic_trees.specs.Plain.{expr_of, exprs_of, option_of, stmt_of, stmts_of, catch_of, catches_of};
ghost use Rattle.bcj_symbolic_check.specs.Judgements as judgements;
ghost use Rattle.bcj_symbolic_check.specs.Statements as spec;
ghost use Rattle.bcj_symbolic_check.specs.function.Views.{known_of, frame_of};
ghost use Rattle.bcj_symbolic_check.specs.function.Walks.{noted};

use crate::expression::expression;
use crate::kind::{Kind, bool_part};
use crate::spelling::is_identifier;
use crate::surroundings::Body;
use crate::walk::Walk;
use bcj_symbolic_trees::{Name, SymCatch, SymExpr, SymStmt};

fn expressions<'a>(all: &'a [SymExpr], body: &Body<'a>, walk: &mut Walk)
    ensures { walk.new ≡ noted walk.old (spec.exprs_marks (frame_of body.now) (exprs_of all.now)) }
{
    for e in all {
        expression(e, body, walk);
    }
}

#[tactic(auto, using(crate::proofs::Rulesets::length_rules))]
fn are_none<'a>(all: &'a [SymExpr]) -> bool
    ensures { result ≡ spec.are_none (exprs_of all.now) }
{
    all.is_empty()
}

/// Walks over the value of a return, and says whether the body returns it.
fn returned<'a>(value: &'a Option<SymExpr>, body: &Body<'a>, walk: &mut Walk) -> bool
    ensures marks { walk.new ≡ noted walk.old (spec.option_marks (frame_of body.now) (option_of value.now)) }
    ensures holds { result ≡ spec.returns (frame_of body.now) (option_of value.now) }
{
    match value {
        None => body.returns_nothing(),
        Some(e) => {
            let value = expression(e, body, walk);
            body.returns_value(value)
        }
    }
}

#[tactic(auto, unfolding(crate::specs::Statements::loop_holds))]
fn loop_holds<'a>(test_last: bool, test: Option<Kind<'a>>, nothing_behind: bool) -> bool
    ensures { result ≡ spec.loop_holds test_last (known_of test.entry) nothing_behind }
{
    bool_part(test) && (!test_last || nothing_behind)
}

#[tactic(auto, unfolding(crate::specs::Statements::catch_holds))]
fn catch_holds<'a>(class: &'a Name, number: u32, body: &Body<'a>) -> bool
    ensures { result ≡ spec.catch_holds (frame_of body.now) class.now number }
{
    let thrown = Some(Kind::Class(class));
    let local = body.local(number);
    is_identifier(class)
        && body.is_thrown(thrown)
        && !body.is_this(number)
        && local.is_some()
        && body.steps(thrown, local)
}

fn catches_hold<'a>(catches: &'a [SymCatch], body: &Body<'a>) -> bool
    ensures { result ≡ spec.catches_hold (frame_of body.now) (catches_of catches.now) }
{
    for handler in catches {
        if !catch_holds(&handler.class, handler.local, body) {
            return false;
        }
    }
    true
}

#[cycle(statement)]
fn handlers<'a>(catches: &'a [SymCatch], body: &Body<'a>, looped: bool, walk: &mut Walk)
    ensures { walk.new ≡ noted walk.old (spec.catches_marks (frame_of body.now) looped (catches_of catches.now)) }
{
    for handler in catches {
        statements(handler.body.as_slice(), body, looped, walk);
    }
}

/// Walks over statements; `looped` says that they stand in a loop.
#[cycle(statement)]
pub fn statements<'a>(all: &'a [SymStmt], body: &Body<'a>, looped: bool, walk: &mut Walk)
    ensures { walk.new ≡ noted walk.old (spec.stmts_marks (frame_of body.now) looped (stmts_of all.now)) }
{
    for one in all {
        statement(one, body, looped, walk);
    }
}

#[cycle(statement)]
fn statement<'a>(one: &'a SymStmt, body: &Body<'a>, looped: bool, walk: &mut Walk)
    ensures { walk.new ≡ noted walk.old (spec.stmt_marks (frame_of body.now) looped (stmt_of one.now)) }
{
    let before = walk.enter();
    match one {
        SymStmt::Expr(e) => {
            expression(e, body, walk);
            walk.settle(before, true);
        }
        SymStmt::If(test, first, second) => {
            let test = expression(test, body, walk);
            statement(first.get(), body, looped, walk);
            statement(second.get(), body, looped, walk);
            walk.settle(before, bool_part(test));
        }
        SymStmt::Loop {
            test_last,
            cond,
            body: repeated,
            update,
        } => {
            let test = expression(cond, body, walk);
            statement(repeated.get(), body, true, walk);
            expressions(update.as_slice(), body, walk);
            walk.settle(
                before,
                loop_holds(*test_last, test, are_none(update.as_slice())),
            );
        }
        SymStmt::Break => walk.settle(before, looped),
        SymStmt::Continue => walk.settle(before, looped),
        SymStmt::Return(value) => {
            let holds = returned(value, body, walk);
            walk.settle(before, holds);
        }
        SymStmt::Throw(e) => {
            let thrown = expression(e, body, walk);
            walk.settle(before, body.is_thrown(thrown));
        }
        SymStmt::Try(tried, catches) => {
            statements(tried.as_slice(), body, looped, walk);
            handlers(catches.as_slice(), body, looped, walk);
            walk.settle(before, catches_hold(catches.as_slice(), body));
        }
        SymStmt::Block(all) => {
            statements(all.as_slice(), body, looped, walk);
            walk.settle(before, true);
        }
    }
}
