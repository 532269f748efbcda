//! Statements one behind the other.
#![tactic(auto, using(bcj_symbolic_trees::proofs::PlainLemmas::tree_rules))]

ghost use Rattle.std.specs.Prelude.{[], ◌∷◌, ◌++◌, ◌≡◌, IfOk};
ghost use Rattle.bcj_symbolic_trees.specs.Plain.{stmt_of};
ghost use Rattle.bcj_typing_rules.specs.Statements as spec;
ghost use Rattle.bcj_typing_node.specs.Typings.{pairs_of};
ghost use Rattle.bcj_typing_effect.specs.Acts.{Makes, trees_of};

use crate::act::{Acted, Acting};
use crate::parts::made;
use bcj_symbolic_trees::{Sequence, SymStmt};
use bcj_typing_node::{Miss, append};
use sqlite_items::Items;
use std::alloc::{AllocError, Global};

/// No statements, to which others are added.
pub fn no_statements(alloc: Global) -> Acting
    ensures trees { trees_of result ≡ [] }
    ensures steps { pairs_of result.steps ≡ [] }
{
    Acting {
        trees: Items::new(alloc),
        steps: Sequence::new(alloc),
    }
}

/// Statements, and another behind them.
pub fn followed(before: Acting, next: Acted) -> Result<Acting, AllocError>
    ensures trees { IfOk result (λ all. trees_of all ≡ trees_of before ++ stmt_of next.tree ∷ []) }
    ensures steps { IfOk result (λ all. pairs_of all.steps ≡ pairs_of before.steps ++ pairs_of next.steps) }
{
    let Acting { mut trees, steps } = before;
    let steps = append(steps, next.steps)?;
    trees.push(next.tree.into_inner())?;
    Ok(Acting { trees, steps })
}

/// A block (JLS 14.2).
pub fn block(alloc: Global, body: Acting) -> Result<Acted, Miss>
    ensures { Makes (spec.block_of (trees_of body)) (pairs_of body.steps) result }
{
    made(alloc, SymStmt::Block(body.trees), body.steps)
}
