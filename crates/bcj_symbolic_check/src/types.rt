//! Types and references that are well formed.
#![tactic(auto, using(crate::proofs::Rulesets::walk_rules))]

ghost use Rattle.std.specs.Prelude.{◌≡◌, min, ◌^◌, ◌-◌};
ghost use Rattle.bcj_symbolic_trees.specs.Types.{ty_of, types_of, field_ref_of, method_ref_of};
ghost use Rattle.bcj_symbolic_check.specs.Steps as steps;
ghost use Rattle.bcj_symbolic_check.specs.Judgements as spec;

use crate::spelling::{is_constructor_name, is_identifier};
use bcj_symbolic_trees::{FieldRef, MethodRef, Ty};

/// The most dimensions of a type (JVMS 4.3.2).
const MAX_DIMENSIONS: u32 = 255;

/// The number of dimensions, which stands at the last value of its type.
fn dimensions(ty: &Ty) -> u32
    ensures { result ≡ min (steps.dimensions (ty_of ty.now)) (2 ^ 32 - 1) }
{
    match ty {
        Ty::Array(component) => dimensions(component.get()).saturating_add(1),
        Ty::Int | Ty::Bool | Ty::Void | Ty::Class(_) => 0,
    }
}

fn has_element(ty: &Ty) -> bool
    ensures { result ≡ steps.has_element (ty_of ty.now) }
{
    match ty {
        Ty::Int | Ty::Bool => true,
        Ty::Void => false,
        Ty::Class(name) => is_identifier(name),
        Ty::Array(component) => has_element(component.get()),
    }
}

pub fn is_void(ty: &Ty) -> bool
    ensures { result ≡ steps.is_void (ty_of ty.now) }
{
    match ty {
        Ty::Void => true,
        Ty::Int | Ty::Bool | Ty::Class(_) | Ty::Array(_) => false,
    }
}

pub fn is_array(ty: &Ty) -> bool
    ensures { result ≡ steps.is_array (ty_of ty.now) }
{
    match ty {
        Ty::Array(_) => true,
        Ty::Int | Ty::Bool | Ty::Void | Ty::Class(_) => false,
    }
}

/// Whether it is a class or an array.
pub fn is_reference(ty: &Ty) -> bool
    ensures { result ≡ steps.is_reference (ty_of ty.now) }
{
    match ty {
        Ty::Class(_) | Ty::Array(_) => true,
        Ty::Int | Ty::Bool | Ty::Void => false,
    }
}

/// Whether it is a type of values.
#[tactic(auto, using(crate::proofs::Rulesets::walk_rules, crate::proofs::Rulesets::type_rules), unfolding(crate::specs::Steps::is_value_type))]
pub fn is_value_type(ty: &Ty) -> bool
    ensures { result ≡ steps.is_value_type (ty_of ty.now) }
{
    has_element(ty) && dimensions(ty) <= MAX_DIMENSIONS
}

/// Whether it is a type of values, or `void`.
#[tactic(auto, unfolding(crate::specs::Steps::is_result_type))]
pub fn is_result_type(ty: &Ty) -> bool
    ensures { result ≡ steps.is_result_type (ty_of ty.now) }
{
    is_void(ty) || is_value_type(ty)
}

#[tactic(auto, unfolding(crate::specs::Judgements::are_value_types))]
pub fn are_value_types(types: &[Ty]) -> bool
    ensures { result ≡ spec.are_value_types (types_of types.now) }
{
    for ty in types {
        if !is_value_type(ty) {
            return false;
        }
    }
    true
}

#[tactic(auto, unfolding(crate::specs::Judgements::is_field_ref))]
pub fn is_field_ref(field: &FieldRef) -> bool
    ensures { result ≡ spec.is_field_ref (field_ref_of field.now) }
{
    is_identifier(&field.class) && is_identifier(&field.name) && is_value_type(&field.ty)
}

/// Whether it is the reference of a method that is no constructor.
#[tactic(auto, unfolding(crate::specs::Judgements::is_method_ref))]
pub fn is_method_ref(method: &MethodRef) -> bool
    ensures { result ≡ spec.is_method_ref (method_ref_of method.now) }
{
    is_identifier(&method.class)
        && is_identifier(&method.name)
        && are_value_types(method.params.as_slice())
        && is_result_type(&method.result)
}

#[tactic(auto, unfolding(crate::specs::Judgements::is_constructor_ref))]
pub fn is_constructor_ref(method: &MethodRef) -> bool
    ensures { result ≡ spec.is_constructor_ref (method_ref_of method.now) }
{
    is_identifier(&method.class)
        && is_constructor_name(&method.name)
        && are_value_types(method.params.as_slice())
        && is_void(&method.result)
}
