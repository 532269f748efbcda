//! Nodes of one part.
#![tactic(auto, using(bcj_symbolic_trees::proofs::PlainLemmas::tree_rules))]

ghost use Rattle.std.specs.Prelude.{◌≡◌, ◌&&◌, [], ◌∷◌, ◌++◌, IfOk};
ghost use Rattle.std.specs.Option.{option_and_then};
ghost use Rattle.bcj_symbolic_trees.specs.Trees as tree;
ghost use Rattle.bcj_symbolic_trees.specs.Types.{bool_type, given, ty_of, arg_of};
ghost use Rattle.bcj_symbolic_trees.specs.Plain.{expr_of};
ghost use Rattle.bcj_decl_rules.specs.Constants as constants;
ghost use Rattle.bcj_decl_rules.specs.Subtypes as subtypes;
ghost use Rattle.bcj_typing_rules.specs.Premises.{need};
ghost use Rattle.bcj_typing_rules.specs.Operators as operators;
ghost use Rattle.bcj_typing_rules.specs.Expressions as rules;
ghost use Rattle.bcj_typing_rules.specs.Expressions.{typing};
ghost use Rattle.bcj_typing_node.specs.Forms.{cast_form_of};
ghost use Rattle.bcj_typing_node.specs.Typings.{pairs_of};
ghost use Rattle.bcj_typing_node.specs.Outcomes.{Judges};
ghost use Rattle.bcj_typing_operator.specs.Nodes.{Makes};

use crate::operand::{is_object, is_reference};
use crate::operator::{unary_gives, unary_takes, unary_tree};
use bcj_decl_rules::Value;
use bcj_decl_values::{of_type, unary_value};
use bcj_parser_trees::UnaryOp;
use bcj_symbolic_trees::{Arg, Pairs, SymExpr, Ty};
use bcj_typing_node::{CastForm, Miss, Typing, earlier, push_uses, typed, unless};
use bcj_typing_rules::Kind;
use sqlite_items::Boxed;
use std::alloc::{AllocError, Global};

fn unary_worth(op: UnaryOp, value: Option<Value>) -> Option<Value>
    ensures { result ≡ option_and_then (constants.unary_value op) value }
{
    match value {
        None => None,
        Some(value) => unary_value(op, value),
    }
}

fn unary_node(alloc: Global, op: UnaryOp, part: Typing) -> Result<Typing, AllocError>
    ensures { Makes (option_and_then (constants.unary_value op) part.value) (typing (operators.unary_tree op (expr_of part.tree)) (given (operators.unary_gives op)) (pairs_of part.steps)) result }
{
    let Typing {
        tree,
        ty: _,
        steps,
        value,
    } = part;
    let tree = unary_tree(alloc, op, tree)?;
    let ty = Arg::Given(unary_gives(op));
    typed(alloc, tree, ty, steps, unary_worth(op, value))
}

/// An operator before its operand (JLS 15.15.3 to 15.15.6).
pub fn unary(alloc: Global, at: u32, op: UnaryOp, part: Typing) -> Result<Typing, Miss>
    ensures { Judges at (need Kind.Operand (operators.unary_takes op (arg_of part.ty)) ∷ []) (option_and_then (constants.unary_value op) part.value) (typing (operators.unary_tree op (expr_of part.tree)) (given (operators.unary_gives op)) (pairs_of part.steps)) result }
{
    match unless(Kind::Operand, unary_takes(op, &part.ty)) {
        Some(kind) => Err(Miss::Untyped { at, kind }),
        None => Ok(unary_node(alloc, op, part)?),
    }
}

fn cast_worth(ty: &Ty, value: Option<Value>) -> Option<Value>
    ensures { result ≡ option_and_then (constants.of_type (ty_of ty.now)) value }
{
    match value {
        None => None,
        Some(value) => of_type(ty, value),
    }
}

fn is_cast(form: CastForm) -> bool
    ensures { result ≡ rules.is_cast (cast_form_of form) }
{
    match form {
        CastForm::Same | CastForm::Supertype | CastForm::Other => true,
        CastForm::Not => false,
    }
}

fn cast_tree(
    alloc: Global,
    form: CastForm,
    ty: &Ty,
    part: Boxed<SymExpr>,
) -> Result<Boxed<SymExpr>, AllocError>
    ensures { IfOk result (λ tree. expr_of tree ≡ rules.cast_tree (cast_form_of form) (ty_of ty.now) (expr_of part)) }
{
    match form {
        CastForm::Same | CastForm::Not => Ok(part),
        CastForm::Supertype => {
            let ty = ty.copy(alloc)?;
            Boxed::new(alloc, SymExpr::Widen(ty, part))
        }
        CastForm::Other => {
            let ty = ty.copy(alloc)?;
            Boxed::new(alloc, SymExpr::Cast(ty, part))
        }
    }
}

/// The steps of the part, and that of the cast behind them.
fn cast_steps(
    alloc: Global,
    form: CastForm,
    from: &Arg,
    to: &Ty,
    mut steps: Pairs,
) -> Result<Pairs, AllocError>
    ensures { IfOk result (λ all. pairs_of all ≡ pairs_of steps ++ rules.cast_steps (cast_form_of form) (arg_of from.now) (ty_of to.now)) }
{
    match form {
        CastForm::Supertype => push_uses(alloc, from, to, &mut steps)?,
        CastForm::Same | CastForm::Other | CastForm::Not => {}
    }
    Ok(steps)
}

fn cast_node(alloc: Global, ty: Ty, form: CastForm, part: Typing) -> Result<Typing, AllocError>
    ensures { Makes (option_and_then (constants.of_type (ty_of ty)) part.value) (typing (rules.cast_tree (cast_form_of form) (ty_of ty) (expr_of part.tree)) (given (ty_of ty)) (pairs_of part.steps ++ rules.cast_steps (cast_form_of form) (arg_of part.ty) (ty_of ty))) result }
{
    let Typing {
        tree,
        ty: from,
        steps,
        value,
    } = part;
    let steps = cast_steps(alloc, form, &from, &ty, steps)?;
    let tree = cast_tree(alloc, form, &ty, tree)?;
    let value = cast_worth(&ty, value);
    typed(alloc, tree, Arg::Given(ty), steps, value)
}

/// A cast to a type, whose names are known or not (JLS 15.16).
pub fn cast(
    alloc: Global,
    at: u32,
    ty: Ty,
    is_known: bool,
    form: CastForm,
    part: Typing,
) -> Result<Typing, Miss>
    ensures { Judges at (need Kind.Name is_known ∷ need Kind.Cast (rules.is_cast (cast_form_of form)) ∷ []) (option_and_then (constants.of_type (ty_of ty)) part.value) (typing (rules.cast_tree (cast_form_of form) (ty_of ty) (expr_of part.tree)) (given (ty_of ty)) (pairs_of part.steps ++ rules.cast_steps (cast_form_of form) (arg_of part.ty) (ty_of ty))) result }
{
    let missing = earlier(Kind::Name, is_known, unless(Kind::Cast, is_cast(form)));
    match missing {
        Some(kind) => Err(Miss::Untyped { at, kind }),
        None => Ok(cast_node(alloc, ty, form, part)?),
    }
}

fn instance_node(alloc: Global, part: Typing, ty: Ty) -> Result<Typing, AllocError>
    ensures { Makes None (typing (tree.instance_of (expr_of part.tree) (ty_of ty)) (given bool_type) (pairs_of part.steps)) result }
{
    let Typing {
        tree,
        ty: _,
        steps,
        value: _,
    } = part;
    let tree = Boxed::new(alloc, SymExpr::InstanceOf(tree, ty))?;
    typed(alloc, tree, Arg::Given(Ty::Bool), steps, None)
}

/// A test against a type, whose names are known or not and whose values the operand goes together with or not (JLS 15.20.2).
pub fn instance_of(
    alloc: Global,
    at: u32,
    part: Typing,
    ty: Ty,
    is_known: bool,
    together: bool,
) -> Result<Typing, Miss>
    ensures { Judges at (need Kind.Name is_known ∷ need Kind.Operand (operators.is_object (arg_of part.ty) && subtypes.is_reference (ty_of ty)) ∷ need Kind.Cast together ∷ []) None (typing (tree.instance_of (expr_of part.tree) (ty_of ty)) (given bool_type) (pairs_of part.steps)) result }
{
    let takes = is_object(&part.ty) && is_reference(&ty);
    let others = earlier(Kind::Operand, takes, unless(Kind::Cast, together));
    match earlier(Kind::Name, is_known, others) {
        Some(kind) => Err(Miss::Untyped { at, kind }),
        None => Ok(instance_node(alloc, part, ty)?),
    }
}
