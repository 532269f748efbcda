//! Statements without parts, and expressions that are statements.
#![tactic(auto, using(bcj_symbolic_trees::proofs::PlainLemmas::tree_rules))]

ghost use Rattle.std.specs.Prelude.{[], ◌∷◌};
ghost use Rattle.bcj_symbolic_trees.specs.Trees as tree;
ghost use Rattle.bcj_symbolic_trees.specs.Plain.{expr_of};
ghost use Rattle.bcj_typing_rules.specs.declared.kind.Kind.TheVariants as kind;
ghost use Rattle.bcj_typing_rules.specs.Premises.{need};
ghost use Rattle.bcj_typing_rules.specs.Statements as spec;
ghost use Rattle.bcj_typing_node.specs.Typings.{pairs_of};
ghost use Rattle.bcj_typing_effect.specs.Acts.{Acts, Makes};

use crate::act::Acted;
use crate::parts::made;
use bcj_symbolic_trees::{Sequence, SymStmt};
use bcj_typing_node::{Miss, Typing, unless};
use bcj_typing_rules::Kind;
use sqlite_items::Items;
use std::alloc::Global;

/// An empty statement, or a missing `else` (JLS 14.6, 14.9).
pub fn empty(alloc: Global) -> Result<Acted, Miss>
    ensures { Makes spec.empty_block [] result }
{
    let none = Items::new(alloc);
    let steps = Sequence::new(alloc);
    made(alloc, SymStmt::Block(none), steps)
}

/// An expression as a statement (JLS 14.8).
pub fn evaluated(alloc: Global, value: Typing) -> Result<Acted, Miss>
    ensures { Makes (tree.evaluate (expr_of value.tree)) (pairs_of value.steps) result }
{
    let Typing {
        tree,
        ty: _,
        steps,
        value: _,
    } = value;
    made(alloc, SymStmt::Expr(tree.into_inner()), steps)
}

/// `break` (JLS 14.15).
pub fn break_loop(alloc: Global, at: u32, in_loop: bool) -> Result<Acted, Miss>
    ensures { Acts at (need kind.Jump in_loop ∷ []) tree.break_loop [] result }
{
    match unless(Kind::Jump, in_loop) {
        Some(kind) => Err(Miss::Untyped { at, kind }),
        None => made(alloc, SymStmt::Break, Sequence::new(alloc)),
    }
}

/// `continue` (JLS 14.16).
pub fn continue_loop(alloc: Global, at: u32, in_loop: bool) -> Result<Acted, Miss>
    ensures { Acts at (need kind.Jump in_loop ∷ []) tree.continue_loop [] result }
{
    match unless(Kind::Jump, in_loop) {
        Some(kind) => Err(Miss::Untyped { at, kind }),
        None => made(alloc, SymStmt::Continue, Sequence::new(alloc)),
    }
}
