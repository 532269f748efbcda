//! Arrays (JLS 10.1, 15.10.1).
#![tactic(auto, using(bcj_symbolic_trees::proofs::PlainLemmas::tree_rules))]

ghost use Rattle.std.specs.Prelude.{◌≡◌, IfOk};
ghost use Rattle.bcj_parser_trees.specs.Trees as source;
ghost use Rattle.bcj_symbolic_trees.specs.Types.{ty_of};
ghost use Rattle.bcj_decl_rules.specs.World.{base_type};
ghost use Rattle.bcj_typing_rules.specs.Expressions as spec;
ghost use Rattle.bcj_typing_scope.specs.Scopes.{answers_in, context_of};
ghost use Rattle.bcj_typing_expression.specs.Typed.{IsTyped, Types};

use bcj_parser_trees::Base;
use bcj_symbolic_trees::Ty;
use bcj_typing_node::{Miss, Typing};
use bcj_typing_scope::Scope;
use sqlite_items::Boxed;
use std::alloc::{AllocError, Global};

fn base_type(alloc: Global, base: &Base) -> Result<Ty, AllocError>
    ensures { IfOk result (λ t. ty_of t ≡ base_type base.now) }
{
    Ok(match base {
        Base::Int => Ty::Int,
        Base::Bool => Ty::Bool,
        Base::Void => Ty::Void,
        Base::Named(name) => Ty::Class(name.copy(alloc)?),
    })
}

/// The type of arrays with so many pairs of brackets.
fn array_of(alloc: Global, base: &Base, dims: u32) -> Result<Ty, AllocError>
    ensures { IfOk result (λ t. ty_of t ≡ spec.array_of base.now dims) }
{
    let mut ty = base_type(alloc, base)?;
    for _pair in 0..dims {
        ty = Ty::Array(Boxed::new(alloc, ty)?);
    }
    Ok(ty)
}

/// A new array of the length that is typed.
pub fn array_made(
    alloc: Global,
    scope: &Scope<'_>,
    at: u32,
    base: &Base,
    length: Typing,
    dims: u32,
) -> Result<Typing, Miss>
    ensures { (e : source.PlainExpr) → IsTyped (answers_in scope.now) (context_of scope.now) e length → Types (answers_in scope.now) (context_of scope.now) (source.new_array at base.now e dims) result }
{
    let ty = array_of(alloc, base, dims)?;
    let is_known = scope.is_known(base);
    bcj_typing_operator::new_array(alloc, at, ty, is_known, length)
}
