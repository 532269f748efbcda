//! What a name behind a value is looked up in.
#![tactic(auto, using(bcj_symbolic_trees::proofs::PlainLemmas::tree_rules))]

ghost use Rattle.std.specs.Prelude.{◌≡◌, IfOk};
ghost use Rattle.std.specs.Str.{bytes_eq};
ghost use Rattle.bcj_symbolic_trees.specs.Types.{given, ty_of, arg_of};
ghost use Rattle.bcj_typing_rules.specs.Expressions as spec;
ghost use Rattle.bcj_typing_expression.specs.Members.{member_form};

use bcj_names::Name;
use bcj_symbolic_trees::{Arg, Ty};
use std::alloc::{AllocError, Global};

/// The name of the one member of arrays (JLS 10.7).
const LENGTH: &str = "length";

/// A class or interface, the one member of an array, or nothing.
#[derive(Drop)]
pub enum Member {
    Length,
    OfClass(Name),
    Nothing,
}

fn is_length(name: &Name) -> bool
    ensures { result ≡ bytes_eq name.now spec.length_name }
{
    name.as_str() == LENGTH
}

fn member_of_type(alloc: Global, ty: &Ty, name: &Name) -> Result<Member, AllocError>
    ensures { IfOk result (λ m. member_form m ≡ spec.member_of (given (ty_of ty.now)) name.now) }
{
    match ty {
        Ty::Class(class) => Ok(Member::OfClass(class.copy(alloc)?)),
        Ty::Array(_) => {
            if is_length(name) {
                Ok(Member::Length)
            } else {
                Ok(Member::Nothing)
            }
        }
        Ty::Int | Ty::Bool | Ty::Void => Ok(Member::Nothing),
    }
}

/// What the name is looked up in behind a value of the type (JLS 10.7, 15.11).
pub fn member_of(alloc: Global, ty: &Arg, name: &Name) -> Result<Member, AllocError>
    ensures { IfOk result (λ m. member_form m ≡ spec.member_of (arg_of ty.now) name.now) }
{
    match ty {
        Arg::Given(ty) => member_of_type(alloc, ty, name),
        Arg::Null => Ok(Member::Nothing),
    }
}

fn class_of_type(alloc: Global, ty: &Ty) -> Result<Option<Name>, AllocError>
    ensures { IfOk result (λ class. class ≡ spec.class_of_value (given (ty_of ty.now))) }
{
    match ty {
        Ty::Class(class) => Ok(Some(class.copy(alloc)?)),
        Ty::Array(_) | Ty::Int | Ty::Bool | Ty::Void => Ok(None),
    }
}

/// The class or interface whose methods a value of the type has (JLS 15.12.1).
pub fn class_of_value(alloc: Global, ty: &Arg) -> Result<Option<Name>, AllocError>
    ensures { IfOk result (λ class. class ≡ spec.class_of_value (arg_of ty.now)) }
{
    match ty {
        Arg::Given(ty) => class_of_type(alloc, ty),
        Arg::Null => Ok(None),
    }
}
