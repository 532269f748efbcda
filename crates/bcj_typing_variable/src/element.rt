//! Elements and lengths of arrays that are assigned.

ghost use Rattle.std.specs.Prelude.{◌≡◌, ◌&&◌, [], ◌∷◌, IfOk};
ghost use Rattle.std.specs.Option.{is_some};
ghost use Rattle.bcj_symbolic_trees.specs.Types.{ty_of, given, arg_of};
ghost use Rattle.bcj_typing_rules.specs.declared.kind.Kind.TheVariants as kind;
ghost use Rattle.bcj_typing_rules.specs.Premises.{need};
ghost use Rattle.bcj_typing_rules.specs.Operators as operators;
ghost use Rattle.bcj_typing_rules.specs.Expressions as spec;
ghost use Rattle.bcj_typing_node.specs.Outcomes.{Places};
ghost use Rattle.bcj_typing_node.specs.Typings.{typing_of, placing_of};
ghost use Rattle.bcj_typing_variable.specs.Fields as fields;

use crate::operator::is_int_value;
use bcj_symbolic_trees::{Arg, Sequence, Ty, UpdatePlace};
use bcj_typing_node::{Miss, Placing, Typing, append, unless};
use bcj_typing_rules::Kind;
use std::alloc::{AllocError, Global};

/// Whether a type is that of an array.
#[tactic(auto, using(bcj_symbolic_trees::proofs::PlainLemmas::tree_rules))]
fn is_array_type(ty: &Ty) -> bool
    ensures { result ≡ is_some (spec.element_type (given (ty_of ty.now))) }
{
    match ty {
        Ty::Array(_) => true,
        Ty::Int | Ty::Bool | Ty::Void | Ty::Class(_) => false,
    }
}

/// Whether a value is an array.
fn is_array(value: &Arg) -> bool
    ensures { result ≡ is_some (spec.element_type (arg_of value.now)) }
{
    match value {
        Arg::Given(ty) => is_array_type(ty),
        Arg::Null => false,
    }
}

/// The component type of an array type (JLS 10.1), and `void` of any other.
#[tactic(auto, using(bcj_symbolic_trees::proofs::PlainLemmas::tree_rules))]
fn component_type(alloc: Global, array: &Ty) -> Result<Ty, AllocError>
    ensures { IfOk result (λ t. ty_of t ≡ spec.element_or_void (given (ty_of array.now))) }
{
    match array {
        Ty::Array(component) => component.get().copy(alloc),
        Ty::Int | Ty::Bool | Ty::Void | Ty::Class(_) => Ok(Ty::Void),
    }
}

/// The type of an array's elements, and `void` of what is no array.
#[tactic(auto, using(bcj_symbolic_trees::proofs::PlainLemmas::tree_rules))]
fn element_type(alloc: Global, array: &Arg) -> Result<Ty, AllocError>
    ensures { IfOk result (λ t. ty_of t ≡ spec.element_or_void (arg_of array.now)) }
{
    match array {
        Arg::Given(ty) => component_type(alloc, ty),
        Arg::Null => Ok(Ty::Void),
    }
}

#[tactic(auto, using(bcj_symbolic_trees::proofs::PlainLemmas::tree_rules))]
fn element_placing(alloc: Global, array: Typing, index: Typing) -> Result<Placing, AllocError>
    ensures { IfOk result (λ p. placing_of p ≡ fields.element_placing (typing_of array) (typing_of index)) }
{
    let ty = element_type(alloc, &array.ty)?;
    let Typing {
        tree: array,
        steps: before,
        ..
    } = array;
    let Typing {
        tree: index,
        steps,
        ..
    } = index;
    let steps = append(before, steps)?;
    Ok(Placing {
        first: None,
        place: UpdatePlace::Elem(array, index),
        ty,
        steps,
        is_assignable: true,
        is_open: true,
    })
}

/// An element of an array (JLS 15.13), at an index that is an int.
pub fn element_place(alloc: Global, at: u32, array: Typing, index: Typing) -> Result<Placing, Miss>
    ensures { Places at (need kind.Operand (is_some (spec.element_type (arg_of array.ty)) && operators.is_int (arg_of index.ty)) ∷ []) (fields.element_placing (typing_of array) (typing_of index)) result }
{
    let is_met = is_array(&array.ty) && is_int_value(&index.ty);
    match unless(Kind::Operand, is_met) {
        Some(kind) => Err(Miss::Untyped { at, kind }),
        None => Ok(element_placing(alloc, array, index)?),
    }
}

/// The length of an array, which is final (JLS 10.7).
#[tactic(auto, using(bcj_symbolic_trees::proofs::PlainLemmas::tree_rules))]
pub fn length_place(alloc: Global) -> Placing
    ensures { placing_of result ≡ fields.length_placing }
{
    Placing {
        first: None,
        place: UpdatePlace::Local(0),
        ty: Ty::Int,
        steps: Sequence::new(alloc),
        is_assignable: false,
        is_open: true,
    }
}
