//! Statements that choose one of two.
#![tactic(auto, using(bcj_symbolic_trees::proofs::PlainLemmas::tree_rules))]

ghost use Rattle.std.specs.Prelude.{[], ◌∷◌, ◌++◌};
ghost use Rattle.bcj_symbolic_trees.specs.Trees as tree;
ghost use Rattle.bcj_symbolic_trees.specs.Types.{arg_of};
ghost use Rattle.bcj_symbolic_trees.specs.Plain.{expr_of, stmt_of};
ghost use Rattle.bcj_typing_rules.specs.declared.kind.Kind.TheVariants as kind;
ghost use Rattle.bcj_typing_rules.specs.Premises.{need};
ghost use Rattle.bcj_typing_rules.specs.Operators.{is_bool};
ghost use Rattle.bcj_typing_node.specs.Typings.{pairs_of};
ghost use Rattle.bcj_typing_effect.specs.Acts.{Acts, Makes};

use crate::act::Acted;
use crate::parts::{append_two, is_bool, made};
use bcj_symbolic_trees::{Pairs, SymExpr, SymStmt};
use bcj_typing_node::{Miss, Typing, unless};
use bcj_typing_rules::Kind;
use sqlite_items::Boxed;
use std::alloc::Global;

fn chosen(
    alloc: Global,
    test: Boxed<SymExpr>,
    first: Boxed<SymStmt>,
    second: Boxed<SymStmt>,
    steps: Pairs,
) -> Result<Acted, Miss>
    ensures { Makes (tree.if_else (expr_of test) (stmt_of first) (stmt_of second)) (pairs_of steps) result }
{
    made(alloc, SymStmt::If(test.into_inner(), first, second), steps)
}

/// An `if` with its `else`, which may be empty (JLS 14.9).
pub fn if_else(
    alloc: Global,
    at: u32,
    test: Typing,
    first: Acted,
    second: Acted,
) -> Result<Acted, Miss>
    ensures { Acts at (need kind.Condition (is_bool (arg_of test.ty)) ∷ [])
        (tree.if_else (expr_of test.tree) (stmt_of first.tree) (stmt_of second.tree))
        (pairs_of test.steps ++ (pairs_of first.steps ++ pairs_of second.steps)) result }
{
    match unless(Kind::Condition, is_bool(&test.ty)) {
        Some(kind) => Err(Miss::Untyped { at, kind }),
        None => {
            let Typing {
                tree: test,
                ty: _,
                steps,
                value: _,
            } = test;
            let steps = append_two(steps, first.steps, second.steps)?;
            chosen(alloc, test, first.tree, second.tree, steps)
        }
    }
}
