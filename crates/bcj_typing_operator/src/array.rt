//! Nodes of arrays.
#![tactic(auto, using(bcj_symbolic_trees::proofs::PlainLemmas::tree_rules))]

ghost use Rattle.std.specs.Prelude.{◌&&◌, [], ◌∷◌, ◌++◌};
ghost use Rattle.std.specs.Option.{is_some};
ghost use Rattle.bcj_symbolic_trees.specs.Trees as tree;
ghost use Rattle.bcj_symbolic_trees.specs.Types.{int_type, given, ty_of, arg_of};
ghost use Rattle.bcj_symbolic_trees.specs.Plain.{expr_of};
ghost use Rattle.bcj_typing_rules.specs.Premises.{need};
ghost use Rattle.bcj_typing_rules.specs.Operators as operators;
ghost use Rattle.bcj_typing_rules.specs.Expressions as rules;
ghost use Rattle.bcj_typing_rules.specs.Expressions.{typing};
ghost use Rattle.bcj_typing_node.specs.Typings.{pairs_of};
ghost use Rattle.bcj_typing_node.specs.Outcomes.{Judges};
ghost use Rattle.bcj_typing_operator.specs.Nodes.{Gives, Makes};

use crate::operand::{element_or_void, is_array, is_int};
use bcj_symbolic_trees::{Arg, SymExpr, Ty};
use bcj_typing_node::{Miss, Typing, append, earlier, typed, unless};
use bcj_typing_rules::Kind;
use sqlite_items::Boxed;
use std::alloc::{AllocError, Global};

fn element_node(alloc: Global, array: Typing, index: Typing) -> Result<Typing, AllocError>
    ensures { Makes None (typing (tree.get_element (expr_of array.tree) (expr_of index.tree)) (given (rules.element_or_void (arg_of array.ty))) (pairs_of array.steps ++ pairs_of index.steps)) result }
{
    let steps = append(array.steps, index.steps)?;
    let tree = Boxed::new(alloc, SymExpr::GetElem(array.tree, index.tree))?;
    let ty = element_or_void(array.ty);
    typed(alloc, tree, Arg::Given(ty), steps, None)
}

/// An element of an array (JLS 15.13).
pub fn element(alloc: Global, at: u32, array: Typing, index: Typing) -> Result<Typing, Miss>
    ensures { Judges at (need Kind.Operand (is_some (rules.element_type (arg_of array.ty)) && operators.is_int (arg_of index.ty)) ∷ []) None (typing (tree.get_element (expr_of array.tree) (expr_of index.tree)) (given (rules.element_or_void (arg_of array.ty))) (pairs_of array.steps ++ pairs_of index.steps)) result }
{
    let takes = is_array(&array.ty) && is_int(&index.ty);
    match unless(Kind::Operand, takes) {
        Some(kind) => Err(Miss::Untyped { at, kind }),
        None => Ok(element_node(alloc, array, index)?),
    }
}

fn array_node(alloc: Global, ty: Ty, length: Typing) -> Result<Typing, AllocError>
    ensures { Makes None (typing (tree.new_array (ty_of ty) (expr_of length.tree)) (given (ty_of ty)) (pairs_of length.steps)) result }
{
    let Typing {
        tree,
        ty: _,
        steps,
        value: _,
    } = length;
    let whole = ty.copy(alloc)?;
    let tree = Boxed::new(alloc, SymExpr::NewArray(whole, tree))?;
    typed(alloc, tree, Arg::Given(ty), steps, None)
}

/// A new array of a type, whose names are known or not (JLS 15.10.1).
pub fn new_array(
    alloc: Global,
    at: u32,
    ty: Ty,
    is_known: bool,
    length: Typing,
) -> Result<Typing, Miss>
    ensures { Judges at (need Kind.Name is_known ∷ need Kind.Operand (operators.is_int (arg_of length.ty)) ∷ []) None (typing (tree.new_array (ty_of ty) (expr_of length.tree)) (given (ty_of ty)) (pairs_of length.steps)) result }
{
    let takes = unless(Kind::Operand, is_int(&length.ty));
    match earlier(Kind::Name, is_known, takes) {
        Some(kind) => Err(Miss::Untyped { at, kind }),
        None => Ok(array_node(alloc, ty, length)?),
    }
}

/// The length of an array (JLS 10.7).
pub fn array_length(alloc: Global, target: Typing) -> Result<Typing, Miss>
    ensures { Gives None (typing (tree.array_length (expr_of target.tree)) (given int_type) (pairs_of target.steps)) result }
{
    let tree = Boxed::new(alloc, SymExpr::Length(target.tree))?;
    Ok(typed(alloc, tree, Arg::Given(Ty::Int), target.steps, None)?)
}
