//! Statements behind statements, with their steps.
#![tactic(auto, using(crate::proofs::Rules::member_rules))]

ghost use Rattle.std.specs.Prelude.{◌≡◌, ◌++◌, ◌∷◌, [], IfOk};
ghost use Rattle.bcj_symbolic_trees.specs.Trees as tree;
ghost use Rattle.bcj_symbolic_trees.specs.Plain.{stmt_of};
ghost use Rattle.bcj_typing_rules.specs.Members as spec;
ghost use Rattle.bcj_typing_rules.specs.Statements.{block_of};
ghost use Rattle.bcj_typing_rules.specs.function.Members.{both_added};
ghost use Rattle.bcj_typing_member.specs.Typed.{added_of, trees_of};

use crate::typed::Added;
use bcj_symbolic_trees::{Sequence, SymStmt};
use bcj_typing_node::append;
use sqlite_items::Items;
use std::alloc::{AllocError, Global};

/// No statements.
pub fn nothing(alloc: Global) -> Added
    ensures { added_of result ≡ spec.nothing_added }
{
    Added {
        trees: Items::new(alloc),
        steps: Sequence::new(alloc),
    }
}

/// Statements, and others behind them.
pub fn both(first: Added, second: Added) -> Result<Added, AllocError>
    ensures { IfOk result (λ a. added_of a ≡ both_added (added_of first) (added_of second)) }
{
    let Added { trees, steps } = first;
    let steps = append(steps, second.steps)?;
    let mut trees = trees;
    trees.append(second.trees)?;
    Ok(Added { trees, steps })
}

/// One statement.
pub fn one(alloc: Global, statement: SymStmt) -> Result<Items<SymStmt>, AllocError>
    ensures { IfOk result (λ ts. trees_of ts ≡ stmt_of statement ∷ []) }
{
    let mut trees = Items::new(alloc);
    trees.push(statement)?;
    Ok(trees)
}

/// Statements as one block.
pub fn block(alloc: Global, trees: Items<SymStmt>) -> Result<Items<SymStmt>, AllocError>
    ensures { IfOk result (λ ts. trees_of ts ≡ block_of (trees_of trees) ∷ []) }
{
    one(alloc, SymStmt::Block(trees))
}
