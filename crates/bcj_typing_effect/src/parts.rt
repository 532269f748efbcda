//! Steps behind one another, and trees in their places.

ghost use Rattle.std.specs.Prelude.{◌≡◌, ◌++◌, IfOk};
ghost use Rattle.bcj_symbolic_trees.specs.Types.{given, ty_of, arg_of};
ghost use Rattle.bcj_symbolic_trees.specs.Plain.{stmt_of};
ghost use Rattle.bcj_typing_node.specs.Typings.{pairs_of};
ghost use Rattle.bcj_typing_rules.specs.Operators.{is_bool};
ghost use Rattle.bcj_typing_effect.specs.Acts.{Makes};

use crate::act::Acted;
use bcj_symbolic_trees::{Arg, Pairs, SymStmt, Ty};
use bcj_typing_node::{Miss, append};
use sqlite_items::Boxed;
use std::alloc::{AllocError, Global};

#[tactic(auto, using(bcj_symbolic_trees::proofs::PlainLemmas::tree_rules))]
fn is_bool_type(ty: &Ty) -> bool
    ensures { result ≡ is_bool (given (ty_of ty.now)) }
{
    match ty {
        Ty::Bool => true,
        Ty::Int | Ty::Void | Ty::Class(_) | Ty::Array(_) => false,
    }
}

/// Whether it is the type of a condition (JLS 4.2.5).
pub fn is_bool(ty: &Arg) -> bool
    ensures { result ≡ is_bool (arg_of ty.now) }
{
    match ty {
        Arg::Given(ty) => is_bool_type(ty),
        Arg::Null => false,
    }
}

/// A statement with its steps.
pub fn made(alloc: Global, tree: SymStmt, steps: Pairs) -> Result<Acted, Miss>
    ensures { Makes (stmt_of tree) (pairs_of steps) result }
{
    match Boxed::new(alloc, tree) {
        Ok(tree) => Ok(Acted { tree, steps }),
        Err(_) => Err(Miss::NoMemory),
    }
}

/// Steps, and twice others behind them.
pub fn append_two(steps: Pairs, second: Pairs, third: Pairs) -> Result<Pairs, AllocError>
    ensures { IfOk result (λ all. pairs_of all ≡ pairs_of steps ++ (pairs_of second ++ pairs_of third)) }
{
    append(append(steps, second)?, third)
}
