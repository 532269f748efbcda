//! Assignments of typed parts (JLS 15.26).

ghost use Rattle.bcj_parser_trees.specs.Trees as source;
ghost use Rattle.bcj_typing_scope.specs.Scopes.{answers_in, context_of};
ghost use Rattle.bcj_typing_expression.specs.Typed.{IsTyped, IsPlaced, Types};

use bcj_parser_trees::BinOp;
use bcj_typing_node::{Miss, Placing, Typing};
use bcj_typing_scope::Scope;
use std::alloc::Global;

/// A value assigned to a variable, by an operator where there is one.
pub fn assigned(
    alloc: Global,
    scope: &Scope<'_>,
    at: u32,
    op: Option<BinOp>,
    place: Placing,
    value: Typing,
) -> Result<Typing, Miss>
    ensures { (x e : source.PlainExpr) → IsPlaced (answers_in scope.now) (context_of scope.now) x place → IsTyped (answers_in scope.now) (context_of scope.now) e value → Types (answers_in scope.now) (context_of scope.now) (source.assign at op x e) result }
{
    match op {
        None => {
            let fits = scope.fits(&value.ty, &place.ty);
            bcj_typing_variable::assigned(alloc, at, place, value, fits)
        }
        Some(op) => bcj_typing_variable::compound(alloc, at, op, place, value),
    }
}
