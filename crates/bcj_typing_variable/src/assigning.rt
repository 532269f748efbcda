//! Assignments (JLS 15.14, 15.15, 15.26).

ghost use Rattle.std.specs.Prelude.{◌≡◌, false, pos, [], ◌∷◌, ◌++◌, None, IfOk};
ghost use Rattle.bcj_symbolic_trees.specs.Trees as tree;
ghost use Rattle.bcj_symbolic_trees.specs.Types.{ty_of, given, arg_of};
ghost use Rattle.bcj_symbolic_trees.specs.Plain.{expr_of, place_of};
ghost use Rattle.bcj_typing_rules.specs.declared.kind.Kind.TheVariants as kind;
ghost use Rattle.bcj_typing_rules.specs.Premises.{need, earliest_missing};
ghost use Rattle.bcj_typing_rules.specs.Operators as operators;
ghost use Rattle.bcj_typing_rules.specs.Casting.{uses};
ghost use Rattle.bcj_typing_rules.specs.Expressions as spec;
ghost use Rattle.bcj_typing_node.specs.Outcomes.{Judges};
ghost use Rattle.bcj_typing_node.specs.Typings.{pairs_of, typing_of, placing_of};

use crate::operator::{compound_takes, is_int, node_operator, step_operator};
use crate::tree::{behind, set, update, update_by_one};
use bcj_parser_trees::BinOp;
use bcj_symbolic_trees::{Arg, BinaryOp};
use bcj_typing_node::{Miss, Placing, Typing, append, earlier, unless, uses};
use bcj_typing_rules::Kind;
use std::alloc::{AllocError, Global};

/// What a variable lacks for an assignment of any form: that it may be assigned here, and that it is open.
fn place_missing(is_assignable: bool, is_open: bool) -> Option<Kind>
    ensures { result ≡ earliest_missing (need kind.Final is_assignable ∷ need kind.Access is_open ∷ []) }
{
    earlier(Kind::Final, is_assignable, unless(Kind::Access, is_open))
}

fn assignment(alloc: Global, place: Placing, value: Typing) -> Result<Typing, AllocError>
    ensures typing { IfOk result (λ t. typing_of t ≡ spec.typing (spec.behind (placing_of place).first (spec.set_place (place_of place.place) (expr_of value.tree))) (given (ty_of place.ty)) (pairs_of place.steps ++ (pairs_of value.steps ++ uses (arg_of value.ty) (ty_of place.ty)))) }
    ensures worth { IfOk result (λ t. t.value ≡ None) }
{
    let Placing {
        first,
        place,
        ty,
        steps: before,
        ..
    } = place;
    let Typing {
        tree,
        ty: value_ty,
        steps,
        ..
    } = value;
    let tree = set(alloc, place, tree)?;
    let tree = behind(alloc, first, tree)?;
    let steps = append(steps, uses(alloc, &value_ty, &ty)?)?;
    Ok(Typing {
        tree,
        ty: Arg::Given(ty),
        steps: append(before, steps)?,
        value: None,
    })
}

/// A value assigned to a variable (JLS 15.26.1), which it fits. It uses the step to the variable's type.
pub fn assigned(
    alloc: Global,
    at: u32,
    place: Placing,
    value: Typing,
    fits: bool,
) -> Result<Typing, Miss>
    ensures { Judges at (need kind.Assign fits ∷ spec.place_needs (placing_of place)) None (spec.typing (spec.behind (placing_of place).first (spec.set_place (placing_of place).place (typing_of value).tree)) (given (placing_of place).type) ((placing_of place).steps ++ ((typing_of value).steps ++ uses (typing_of value).type (placing_of place).type))) result }
{
    let missing = earlier(
        Kind::Assign,
        fits,
        place_missing(place.is_assignable, place.is_open),
    );
    match missing {
        Some(kind) => Err(Miss::Untyped { at, kind }),
        None => Ok(assignment(alloc, place, value)?),
    }
}

/// An operator that has no node gives the value as it is.
fn unjoined(place: Placing, value: Typing) -> Result<Typing, AllocError>
    ensures typing { IfOk result (λ t. typing_of t ≡ spec.typing (expr_of value.tree) (given (ty_of place.ty)) (pairs_of place.steps ++ pairs_of value.steps)) }
    ensures worth { IfOk result (λ t. t.value ≡ None) }
{
    let Placing { ty, steps, .. } = place;
    let Typing {
        tree,
        steps: later,
        ..
    } = value;
    Ok(Typing {
        tree,
        ty: Arg::Given(ty),
        steps: append(steps, later)?,
        value: None,
    })
}

fn joined(alloc: Global, op: BinaryOp, place: Placing, value: Typing) -> Result<Typing, AllocError>
    ensures typing { IfOk result (λ t. typing_of t ≡ spec.typing (spec.update (placing_of place) op (expr_of value.tree) false) (given (ty_of place.ty)) (pairs_of place.steps ++ pairs_of value.steps)) }
    ensures worth { IfOk result (λ t. t.value ≡ None) }
{
    let Placing {
        first,
        place,
        ty,
        steps: before,
        ..
    } = place;
    let Typing { tree, steps, .. } = value;
    let tree = update(alloc, place, op, tree, false)?;
    let tree = behind(alloc, first, tree)?;
    Ok(Typing {
        tree,
        ty: Arg::Given(ty),
        steps: append(before, steps)?,
        value: None,
    })
}

fn compounded(
    alloc: Global,
    op: Option<BinaryOp>,
    place: Placing,
    value: Typing,
) -> Result<Typing, AllocError>
    ensures typing { IfOk result (λ t. typing_of t ≡ spec.typing (spec.compound_tree op (placing_of place) (expr_of value.tree)) (given (ty_of place.ty)) (pairs_of place.steps ++ pairs_of value.steps)) }
    ensures worth { IfOk result (λ t. t.value ≡ None) }
{
    match op {
        None => unjoined(place, value),
        Some(op) => joined(alloc, op, place, value),
    }
}

/// A variable and a value joined by an operator, put into the variable (JLS 15.26.2).
pub fn compound(
    alloc: Global,
    at: u32,
    op: BinOp,
    place: Placing,
    value: Typing,
) -> Result<Typing, Miss>
    ensures { Judges at (need kind.Operand (operators.compound_takes op (placing_of place).type (typing_of value).type) ∷ spec.place_needs (placing_of place)) None (spec.typing (spec.compound_tree (operators.node_operator op) (placing_of place) (typing_of value).tree) (given (placing_of place).type) ((placing_of place).steps ++ (typing_of value).steps)) result }
{
    let missing = earlier(
        Kind::Operand,
        compound_takes(op, &place.ty, &value.ty),
        place_missing(place.is_assignable, place.is_open),
    );
    match missing {
        Some(kind) => Err(Miss::Untyped { at, kind }),
        None => Ok(compounded(alloc, node_operator(op), place, value)?),
    }
}

fn stepped(alloc: Global, op: BinaryOp, post: bool, place: Placing) -> Result<Typing, AllocError>
    ensures typing { IfOk result (λ t. typing_of t ≡ spec.typing (spec.update (placing_of place) op (tree.int_value (pos 1)) post) (given (ty_of place.ty)) (pairs_of place.steps)) }
    ensures worth { IfOk result (λ t. t.value ≡ None) }
{
    let Placing {
        first,
        place,
        ty,
        steps,
        ..
    } = place;
    let tree = update_by_one(alloc, place, op, post)?;
    let tree = behind(alloc, first, tree)?;
    Ok(Typing {
        tree,
        ty: Arg::Given(ty),
        steps,
        value: None,
    })
}

/// `++` and `--`, of a variable that is an int (JLS 15.14.2, 15.15.1). Behind the variable it gives the old value.
pub fn step(alloc: Global, at: u32, plus: bool, post: bool, place: Placing) -> Result<Typing, Miss>
    ensures { Judges at (need kind.Operand (operators.is_int (given (placing_of place).type)) ∷ spec.place_needs (placing_of place)) None (spec.typing (spec.update (placing_of place) (spec.step_operator plus) (tree.int_value (pos 1)) post) (given (placing_of place).type) (placing_of place).steps) result }
{
    let missing = earlier(
        Kind::Operand,
        is_int(&place.ty),
        place_missing(place.is_assignable, place.is_open),
    );
    match missing {
        Some(kind) => Err(Miss::Untyped { at, kind }),
        None => Ok(stepped(alloc, step_operator(plus), post, place)?),
    }
}
