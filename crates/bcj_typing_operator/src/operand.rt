//! Tests of operands' types.
#![tactic(auto, using(bcj_symbolic_trees::proofs::PlainLemmas::tree_rules))]

ghost use Rattle.std.specs.Prelude.{◌≡◌};
ghost use Rattle.std.specs.Option.{is_some, option_map};
ghost use Rattle.bcj_symbolic_trees.specs.Types.{given, ty_of, arg_of};
ghost use Rattle.bcj_decl_rules.specs.Subtypes as subtypes;
ghost use Rattle.bcj_typing_rules.specs.Operators as operators;
ghost use Rattle.bcj_typing_rules.specs.Expressions as rules;

use bcj_symbolic_trees::{Arg, Ty};

fn is_int_type(ty: &Ty) -> bool
    ensures { result ≡ operators.is_int (given (ty_of ty.now)) }
{
    match ty {
        Ty::Int => true,
        Ty::Bool | Ty::Void | Ty::Class(_) | Ty::Array(_) => false,
    }
}

/// A number.
pub fn is_int(ty: &Arg) -> bool
    ensures { result ≡ operators.is_int (arg_of ty.now) }
{
    match ty {
        Arg::Given(ty) => is_int_type(ty),
        Arg::Null => false,
    }
}

fn is_bool_type(ty: &Ty) -> bool
    ensures { result ≡ operators.is_bool (given (ty_of ty.now)) }
{
    match ty {
        Ty::Bool => true,
        Ty::Int | Ty::Void | Ty::Class(_) | Ty::Array(_) => false,
    }
}

/// A truth value.
pub fn is_bool(ty: &Arg) -> bool
    ensures { result ≡ operators.is_bool (arg_of ty.now) }
{
    match ty {
        Arg::Given(ty) => is_bool_type(ty),
        Arg::Null => false,
    }
}

/// A class or an array.
pub fn is_reference(ty: &Ty) -> bool
    ensures { result ≡ subtypes.is_reference (ty_of ty.now) }
{
    match ty {
        Ty::Class(_) | Ty::Array(_) => true,
        Ty::Int | Ty::Bool | Ty::Void => false,
    }
}

/// A class, an array or null.
pub fn is_object(ty: &Arg) -> bool
    ensures { result ≡ operators.is_object (arg_of ty.now) }
{
    match ty {
        Arg::Given(ty) => is_reference(ty),
        Arg::Null => true,
    }
}

fn is_array_type(ty: &Ty) -> bool
    ensures { result ≡ is_some (rules.element_type (given (ty_of ty.now))) }
{
    match ty {
        Ty::Array(_) => true,
        Ty::Int | Ty::Bool | Ty::Void | Ty::Class(_) => false,
    }
}

/// An array, which has elements.
pub fn is_array(ty: &Arg) -> bool
    ensures { result ≡ is_some (rules.element_type (arg_of ty.now)) }
{
    match ty {
        Arg::Given(ty) => is_array_type(ty),
        Arg::Null => false,
    }
}

/// The type of the elements of an array of a type.
fn component(ty: Ty) -> Ty
    ensures { ty_of result ≡ rules.element_or_void (given (ty_of ty)) }
{
    match ty {
        Ty::Array(component) => component.into_inner(),
        Ty::Int | Ty::Bool | Ty::Void | Ty::Class(_) => Ty::Void,
    }
}

/// The type of the elements of an array; `void` for all else.
pub fn element_or_void(ty: Arg) -> Ty
    ensures { ty_of result ≡ rules.element_or_void (arg_of ty) }
{
    match ty {
        Arg::Given(ty) => component(ty),
        Arg::Null => Ty::Void,
    }
}

/// The type, where there is one.
pub fn type_or_void(ty: Option<Ty>) -> Ty
    ensures { ty_of result ≡ operators.type_or_void (option_map ty_of ty) }
{
    match ty {
        None => Ty::Void,
        Some(ty) => ty,
    }
}
