//! The code of statements, counted.
#![tactic(auto, using(crate::proofs::Rules::code_rules))]

ghost use Rattle.std.specs.Prelude.{◌≡◌, [], ◌∷◌, ◌++◌, OnOk};
ghost use Rattle.bcj_symbolic_trees.specs.Trees.{loop};
ghost use Rattle.bcj_symbolic_trees.specs.Plain.{expr_of, exprs_of, option_of, stmt_of, stmts_of, catches_of};
ghost use Rattle.bcj_symbolic_check.specs.function.Views.{frame_of};
ghost use Rattle.bcj_symbolic_measure.specs.Scheme as spec;
ghost use Rattle.bcj_symbolic_measure.specs.function.Counts.{counts_of, noted};

use crate::expression::{expression, expressions, part};
use crate::scheme::{EXIT, FAR_BRANCH, JUMP, SERVICE, STORE, TURN};
use crate::tally::Tally;
use bcj_symbolic_check::Body;
use bcj_symbolic_trees::{SymCatch, SymExpr, SymStmt};
use std::alloc::AllocError;

/// Counts the value of a return.
fn returned<'a>(
    value: &'a Option<SymExpr>,
    body: &Body<'a>,
    tally: &mut Tally<'a>,
) -> Result<(), AllocError>
    ensures { OnOk result (counts_of tally.new ≡ noted (counts_of tally.old) (spec.option_pieces (frame_of body.now) (option_of value.now))) }
{
    match value {
        None => Ok(()),
        Some(e) => expression(e, body, tally),
    }
}

#[cycle(statement)]
fn handlers<'a>(
    catches: &'a [SymCatch],
    body: &Body<'a>,
    tally: &mut Tally<'a>,
) -> Result<(), AllocError>
    ensures { OnOk result (counts_of tally.new ≡ noted (counts_of tally.old) (spec.catches_pieces (frame_of body.now) (catches_of catches.now))) }
{
    for handler in catches {
        tally.handled(handler.class.as_str());
        tally.plain(STORE);
        statements(handler.body.as_slice(), body, tally)?;
        tally.plain(JUMP);
    }
    Ok(())
}

/// Counts the code of statements.
#[cycle(statement)]
pub fn statements<'a>(
    all: &'a [SymStmt],
    body: &Body<'a>,
    tally: &mut Tally<'a>,
) -> Result<(), AllocError>
    ensures { OnOk result (counts_of tally.new ≡ noted (counts_of tally.old) (spec.stmts_pieces (frame_of body.now) (stmts_of all.now))) }
{
    for one in all {
        statement(one, body, tally)?;
    }
    Ok(())
}

#[cycle(statement)]
fn repeated<'a>(
    looped: &'a SymStmt,
    test_last: bool,
    cond: &'a SymExpr,
    update: &'a [SymExpr],
    body: &Body<'a>,
    tally: &mut Tally<'a>,
) -> Result<(), AllocError>
    ensures { OnOk result (counts_of tally.new ≡ noted (counts_of tally.old) (spec.stmt_pieces (frame_of body.now) (loop test_last (expr_of cond.now) (stmt_of looped.now) (exprs_of update.now)))) }
{
    tally.plain(TURN);
    if test_last {
        statement(looped, body, tally)?;
        return part(cond, FAR_BRANCH + JUMP, body, tally);
    }
    part(cond, FAR_BRANCH, body, tally)?;
    statement(looped, body, tally)?;
    expressions(update, body, tally)?;
    tally.plain(JUMP);
    Ok(())
}

#[cycle(statement)]
fn statement<'a>(one: &'a SymStmt, body: &Body<'a>, tally: &mut Tally<'a>) -> Result<(), AllocError>
    ensures { OnOk result (counts_of tally.new ≡ noted (counts_of tally.old) (spec.stmt_pieces (frame_of body.now) (stmt_of one.now))) }
{
    match one {
        SymStmt::Expr(e) => expression(e, body, tally),
        SymStmt::If(test, first, second) => {
            part(test, FAR_BRANCH, body, tally)?;
            statement(first.get(), body, tally)?;
            tally.plain(JUMP);
            statement(second.get(), body, tally)
        }
        SymStmt::Loop {
            test_last,
            cond,
            body: looped,
            update,
        } => repeated(
            looped.get(),
            *test_last,
            cond,
            update.as_slice(),
            body,
            tally,
        ),
        SymStmt::Break | SymStmt::Continue => {
            tally.plain(JUMP);
            Ok(())
        }
        SymStmt::Return(value) => {
            returned(value, body, tally)?;
            tally.plain(EXIT);
            Ok(())
        }
        SymStmt::Throw(e) => part(e, SERVICE, body, tally),
        SymStmt::Try(tried, catches) => {
            statements(tried.as_slice(), body, tally)?;
            tally.plain(JUMP);
            handlers(catches.as_slice(), body, tally)
        }
        SymStmt::Block(all) => statements(all.as_slice(), body, tally),
    }
}
