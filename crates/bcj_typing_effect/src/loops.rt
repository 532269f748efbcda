//! Loops (JLS 14.12 to 14.14).
#![tactic(auto, using(bcj_symbolic_trees::proofs::PlainLemmas::tree_rules))]

ghost use Rattle.std.specs.Prelude.{true, false, [], ◌∷◌, ◌++◌, ◌≡◌, IfOk, map};
ghost use Rattle.bcj_symbolic_trees.specs.Trees as tree;
ghost use Rattle.bcj_symbolic_trees.specs.Types.{arg_of};
ghost use Rattle.bcj_symbolic_trees.specs.Plain.{expr_of, exprs_of, stmt_of};
ghost use Rattle.bcj_typing_rules.specs.declared.kind.Kind.TheVariants as kind;
ghost use Rattle.bcj_typing_rules.specs.Premises.{need};
ghost use Rattle.bcj_typing_rules.specs.Operators.{is_bool};
ghost use Rattle.bcj_typing_rules.specs.Premises.{earliest_missing};
ghost use Rattle.bcj_typing_rules.specs.Expressions as rules;
ghost use Rattle.bcj_typing_rules.specs.Statements as spec;
ghost use Rattle.bcj_typing_node.specs.Typings.{pairs_of, typings_of};
ghost use Rattle.bcj_typing_effect.specs.Acts.{Acts, Makes, trees_of};
ghost use Rattle.bcj_typing_effect.specs.Tests.{test_in};

use crate::act::{Acted, Acting};
use crate::parts::{append_two, is_bool, made};
use bcj_symbolic_trees::{Pairs, Sequence, SymExpr, SymStmt};
use bcj_typing_node::{Miss, Typing, Typings, append, unless};
use bcj_typing_rules::Kind;
use sqlite_items::{Boxed, Items};
use std::alloc::{AllocError, Global};

/// A loop, which tests first or last.
fn repeated(
    alloc: Global,
    test_last: bool,
    cond: Boxed<SymExpr>,
    body: Boxed<SymStmt>,
    update: Items<SymExpr>,
    steps: Pairs,
) -> Result<Acted, Miss>
    ensures { Makes (tree.loop test_last (expr_of cond) (stmt_of body) (exprs_of update)) (pairs_of steps) result }
{
    let cond = cond.into_inner();
    made(
        alloc,
        SymStmt::Loop {
            test_last,
            cond,
            body,
            update,
        },
        steps,
    )
}

/// A `while` (JLS 14.12).
pub fn while_loop(alloc: Global, at: u32, test: Typing, body: Acted) -> Result<Acted, Miss>
    ensures { Acts at (need kind.Condition (is_bool (arg_of test.ty)) ∷ [])
        (tree.loop false (expr_of test.tree) (stmt_of body.tree) tree.no_exprs)
        (pairs_of test.steps ++ pairs_of body.steps) result }
{
    match unless(Kind::Condition, is_bool(&test.ty)) {
        Some(kind) => Err(Miss::Untyped { at, kind }),
        None => {
            let Typing {
                tree: test,
                ty: _,
                steps,
                value: _,
            } = test;
            let steps = append(steps, body.steps)?;
            repeated(alloc, false, test, body.tree, Items::new(alloc), steps)
        }
    }
}

/// A `do` (JLS 14.13).
pub fn do_loop(alloc: Global, at: u32, body: Acted, test: Typing) -> Result<Acted, Miss>
    ensures { Acts at (need kind.Condition (is_bool (arg_of test.ty)) ∷ [])
        (tree.loop true (expr_of test.tree) (stmt_of body.tree) tree.no_exprs)
        (pairs_of body.steps ++ pairs_of test.steps) result }
{
    match unless(Kind::Condition, is_bool(&test.ty)) {
        Some(kind) => Err(Miss::Untyped { at, kind }),
        None => {
            let Typing {
                tree: test,
                ty: _,
                steps,
                value: _,
            } = test;
            let steps = append(body.steps, steps)?;
            repeated(alloc, true, test, body.tree, Items::new(alloc), steps)
        }
    }
}

/// The condition of a `for`, with what it lacks.
#[derive(Drop)]
struct Tested {
    missing: Option<Kind>,
    tree: Boxed<SymExpr>,
    steps: Pairs,
}

fn condition(alloc: Global, test: Option<Typing>) -> Result<Tested, AllocError>
    ensures missing { IfOk result (λ q. q.missing ≡ earliest_missing (test_in test).needs) }
    ensures tree { IfOk result (λ q. expr_of q.tree ≡ (test_in test).tree) }
    ensures steps { IfOk result (λ q. pairs_of q.steps ≡ (test_in test).steps) }
{
    match test {
        None => Ok(Tested {
            missing: None,
            tree: Boxed::new(alloc, SymExpr::Bool(true))?,
            steps: Sequence::new(alloc),
        }),
        Some(test) => {
            let missing = unless(Kind::Condition, is_bool(&test.ty));
            let Typing {
                tree,
                ty: _,
                steps,
                value: _,
            } = test;
            Ok(Tested {
                missing,
                tree,
                steps,
            })
        }
    }
}

/// What a `for` evaluates behind its body.
#[derive(Drop)]
struct Updated {
    trees: Items<SymExpr>,
    steps: Pairs,
}

fn also_updated(before: Updated, part: Typing) -> Result<Updated, AllocError>
    ensures trees { IfOk result (λ all. map expr_of all.trees ≡ map expr_of before.trees ++ expr_of part.tree ∷ []) }
    ensures steps { IfOk result (λ all. pairs_of all.steps ≡ pairs_of before.steps ++ pairs_of part.steps) }
{
    let Updated { mut trees, steps } = before;
    let steps = append(steps, part.steps)?;
    trees.push(part.tree.into_inner())?;
    Ok(Updated { trees, steps })
}

#[tactic(auto, using(crate::proofs::Lists::update_rules))]
fn updates(alloc: Global, parts: Typings) -> Result<Updated, AllocError>
    ensures trees { IfOk result (λ all. exprs_of all.trees ≡ rules.trees_in (typings_of parts)) }
    ensures steps { IfOk result (λ all. pairs_of all.steps ≡ rules.steps_in (typings_of parts)) }
{
    let mut all = Updated {
        trees: Items::new(alloc),
        steps: Sequence::new(alloc),
    };
    for part in parts.into_vec() {
        all = also_updated(all, part)?;
    }
    Ok(all)
}

/// The block of the statements that begin a `for` and of its loop.
#[tactic(auto, using(crate::proofs::Lists::block_rules))]
fn led(alloc: Global, first: Items<SymStmt>, turns: Acted) -> Result<Acted, Miss>
    ensures { Makes (spec.block_of (map stmt_of first ++ stmt_of turns.tree ∷ [])) (pairs_of turns.steps) result }
{
    let Acted { tree, steps } = turns;
    let mut all = first;
    all.push(tree.into_inner())?;
    made(alloc, SymStmt::Block(all), steps)
}

/// The statements that begin a `for`, where there are any, and its loop.
fn begun(alloc: Global, first: Items<SymStmt>, turns: Acted) -> Result<Acted, Miss>
    ensures { Makes (spec.for_tree (map stmt_of first) (stmt_of turns.tree)) (pairs_of turns.steps) result }
{
    if first.is_empty() {
        Ok(turns)
    } else {
        led(alloc, first, turns)
    }
}

/// A `for` (JLS 14.14.1): the statements that begin it, its condition where one is written, what it evaluates behind its body,
/// and its body.
pub fn for_loop(
    alloc: Global,
    at: u32,
    first: Acting,
    test: Option<Typing>,
    update: Typings,
    body: Acted,
) -> Result<Acted, Miss>
    ensures { Acts at (test_in test).needs
        (spec.for_tree (trees_of first) (tree.loop false (test_in test).tree (stmt_of body.tree) (rules.trees_in (typings_of update))))
        (pairs_of first.steps ++ ((test_in test).steps ++ (rules.steps_in (typings_of update) ++ pairs_of body.steps))) result }
{
    let Tested {
        missing,
        tree: test,
        steps: test_steps,
    } = condition(alloc, test)?;
    match missing {
        Some(kind) => Err(Miss::Untyped { at, kind }),
        None => {
            let Updated {
                trees: update,
                steps: update_steps,
            } = updates(alloc, update)?;
            let before = append(first.steps, test_steps)?;
            let steps = append_two(before, update_steps, body.steps)?;
            let turns = repeated(alloc, false, test, body.tree, update, steps)?;
            begun(alloc, first.trees, turns)
        }
    }
}
