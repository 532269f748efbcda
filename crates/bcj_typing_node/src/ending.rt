//! A node's value in place of its tree.

ghost use Rattle.std.specs.Prelude.{◌≡◌, IfOk};
ghost use Rattle.std.specs.Option.{option_map_or};
ghost use Rattle.bcj_symbolic_trees.specs.Types.{arg_of};
ghost use Rattle.bcj_symbolic_trees.specs.Plain.{expr_of};
ghost use Rattle.bcj_typing_rules.specs.Expressions as spec;
ghost use Rattle.bcj_typing_node.specs.Typings.{pairs_of, typing_of};

use crate::typing::Typing;
use bcj_decl_rules::Value;
use bcj_symbolic_trees::{Arg, Pairs, SymExpr};
use sqlite_items::Boxed;
use std::alloc::{AllocError, Global};

/// The literal of a value.
#[tactic(auto, using(bcj_symbolic_trees::proofs::PlainLemmas::tree_rules))]
pub fn value_tree(value: Value) -> SymExpr
    ensures { expr_of result ≡ spec.value_tree value }
{
    match value {
        Value::Int(number) => SymExpr::Int(number),
        Value::Bool(truth) => SymExpr::Bool(truth),
    }
}

/// A typed node: where it is a constant, its tree is that of its value (JLS 13.1, 15.28).
pub fn typed(
    alloc: Global,
    tree: Boxed<SymExpr>,
    ty: Arg,
    steps: Pairs,
    value: Option<Value>,
) -> Result<Typing, AllocError>
    ensures typing { IfOk result (λ t. typing_of t ≡ spec.valued value (spec.typing (expr_of tree) (arg_of ty) (pairs_of steps))) }
    ensures worth { IfOk result (λ t. t.value ≡ value) }
{
    let tree = match value {
        None => tree,
        Some(value) => Boxed::new(alloc, value_tree(value))?,
    };
    Ok(Typing {
        tree,
        ty,
        steps,
        value,
    })
}
