//! Statements that leave a body.
#![tactic(auto, using(bcj_symbolic_trees::proofs::PlainLemmas::tree_rules))]

ghost use Rattle.std.specs.Prelude.{[], ◌∷◌, ◌++◌, ◌≡◌, OnOk, Some, option_map};
ghost use Rattle.bcj_symbolic_trees.specs.Trees as tree;
ghost use Rattle.bcj_symbolic_trees.specs.Types.{ty_of, arg_of};
ghost use Rattle.bcj_symbolic_trees.specs.Plain.{expr_of};
ghost use Rattle.bcj_typing_rules.specs.declared.kind.Kind.TheVariants as kind;
ghost use Rattle.bcj_typing_rules.specs.Premises.{need};
ghost use Rattle.bcj_typing_rules.specs.Casting as casting;
ghost use Rattle.bcj_typing_rules.specs.Statements as spec;
ghost use Rattle.bcj_typing_node.specs.Typings.{pairs_of};
ghost use Rattle.bcj_typing_effect.specs.Acts.{Acts, Makes};

use crate::act::Acted;
use crate::parts::made;
use bcj_symbolic_trees::{Arg, Pairs, Sequence, SymExpr, SymStmt, Ty};
use bcj_typing_node::{Miss, Typing, earlier, push_uses, unless};
use bcj_typing_rules::Kind;
use sqlite_items::Boxed;
use std::alloc::{AllocError, Global};

fn is_void(ty: &Ty) -> bool
    ensures { result ≡ spec.returns_nothing (Some (ty_of ty.now)) }
{
    match ty {
        Ty::Void => true,
        Ty::Int | Ty::Bool | Ty::Class(_) | Ty::Array(_) => false,
    }
}

fn is_value(ty: &Ty) -> bool
    ensures { result ≡ spec.returns_value (Some (ty_of ty.now)) }
{
    match ty {
        Ty::Void => false,
        Ty::Int | Ty::Bool | Ty::Class(_) | Ty::Array(_) => true,
    }
}

/// Whether nothing may be returned: in a method with result `void` and in a constructor (JLS 14.17).
fn returns_nothing(result_ty: &Option<Ty>) -> bool
    ensures { result ≡ spec.returns_nothing (option_map ty_of result_ty.now) }
{
    match result_ty {
        Some(ty) => is_void(ty),
        None => false,
    }
}

/// Whether a value may be returned.
fn returns_value(result_ty: &Option<Ty>) -> bool
    ensures { result ≡ spec.returns_value (option_map ty_of result_ty.now) }
{
    match result_ty {
        Some(ty) => is_value(ty),
        None => false,
    }
}

/// Puts the step from a value's type to the result's behind others.
fn push_result(
    alloc: Global,
    from: &Arg,
    result_ty: &Option<Ty>,
    steps: &mut Pairs,
) -> Result<(), AllocError>
    ensures { OnOk result (pairs_of steps.new ≡ pairs_of steps.old ++ spec.result_steps (arg_of from.now) (option_map ty_of result_ty.now)) }
{
    match result_ty {
        None => Ok(()),
        Some(to) => push_uses(alloc, from, to, steps),
    }
}

/// A `return` of a value.
fn returned(alloc: Global, value: Boxed<SymExpr>, steps: Pairs) -> Result<Acted, Miss>
    ensures { Makes (tree.return_with (tree.present (expr_of value))) (pairs_of steps) result }
{
    made(alloc, SymStmt::Return(Some(value.into_inner())), steps)
}

/// A `return` without a value, where the body has this result.
pub fn return_nothing(alloc: Global, at: u32, result_ty: &Option<Ty>) -> Result<Acted, Miss>
    ensures { Acts at (need kind.Return (spec.returns_nothing (option_map ty_of result_ty.now)) ∷ []) (tree.return_with tree.absent) [] result }
{
    match unless(Kind::Return, returns_nothing(result_ty)) {
        Some(kind) => Err(Miss::Untyped { at, kind }),
        None => made(alloc, SymStmt::Return(None), Sequence::new(alloc)),
    }
}

/// A `return` of a value; `fits` says whether it goes to the result.
pub fn return_value(
    alloc: Global,
    at: u32,
    result_ty: &Option<Ty>,
    fits: bool,
    value: Typing,
) -> Result<Acted, Miss>
    ensures { Acts at (need kind.Assign fits ∷ need kind.Return (spec.returns_value (option_map ty_of result_ty.now)) ∷ [])
        (tree.return_with (tree.present (expr_of value.tree)))
        (pairs_of value.steps ++ spec.result_steps (arg_of value.ty) (option_map ty_of result_ty.now)) result }
{
    let missing = unless(Kind::Return, returns_value(result_ty));
    match earlier(Kind::Assign, fits, missing) {
        Some(kind) => Err(Miss::Untyped { at, kind }),
        None => {
            let Typing {
                tree,
                ty: from,
                mut steps,
                value: _,
            } = value;
            push_result(alloc, &from, result_ty, &mut steps)?;
            returned(alloc, tree, steps)
        }
    }
}

/// A `throw`.
fn thrown(alloc: Global, value: Boxed<SymExpr>, steps: Pairs) -> Result<Acted, Miss>
    ensures { Makes (tree.throw (expr_of value)) (pairs_of steps) result }
{
    made(alloc, SymStmt::Throw(value.into_inner()), steps)
}

/// A `throw` of a value (JLS 14.18), which is a step to `throwable`; `fits` says whether it is one.
pub fn throw(
    alloc: Global,
    at: u32,
    throwable: &Ty,
    fits: bool,
    value: Typing,
) -> Result<Acted, Miss>
    ensures { Acts at (need kind.Throwable fits ∷ []) (tree.throw (expr_of value.tree))
        (pairs_of value.steps ++ casting.uses (arg_of value.ty) (ty_of throwable.now)) result }
{
    match unless(Kind::Throwable, fits) {
        Some(kind) => Err(Miss::Untyped { at, kind }),
        None => {
            let Typing {
                tree,
                ty: from,
                mut steps,
                value: _,
            } = value;
            push_uses(alloc, &from, throwable, &mut steps)?;
            thrown(alloc, tree, steps)
        }
    }
}
