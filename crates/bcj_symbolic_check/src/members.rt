//! The conditions on the head and the members of a class.
#![tactic(auto, using(crate::proofs::Rulesets::walk_rules))]

ghost use Rattle.std.specs.Prelude.{◌≡◌, ◌∷◌, map};
ghost use Rattle.bcj_symbolic_trees.specs.Types.{ty_of, types_of, class_type};
ghost use Rattle.bcj_symbolic_trees.specs.Plain.{stmts_of};
ghost use Rattle.bcj_symbolic_trees.specs.Same.{same_type};
ghost use Rattle.bcj_symbolic_trees.specs.Units.{field_of, method_of, pair_of, class_of};
ghost use Rattle.bcj_symbolic_check.specs.Classes as spec;

use crate::rules::in_range;
use crate::spelling::{is_constructor_name, is_identifier, is_spelled};
use crate::types::{are_value_types, is_result_type, is_value_type, is_void};
use bcj_symbolic_trees::{
    ClassHead, MethodKind, Name, OBJECT, Pair, SymClass, SymField, SymMethod, SymStmt, Ty,
    same_types,
};

/// The most classes of a unit.
const MAX_TYPES: usize = 64;

#[tactic(auto, unfolding(crate::specs::Classes::has_right_superclass))]
fn has_right_superclass(head: &ClassHead) -> bool
    ensures { result ≡ spec.has_right_superclass head.now }
{
    if head.interface || is_spelled(&head.name, OBJECT) {
        !head.superclass.is_some()
    } else {
        head.superclass.is_some()
    }
}

#[tactic(auto, unfolding(crate::specs::Classes::superclass_named))]
fn superclass_named(superclass: &Option<Name>) -> bool
    ensures { result ≡ spec.superclass_named superclass.now }
{
    match superclass {
        None => true,
        Some(name) => is_identifier(name),
    }
}

#[tactic(auto, unfolding(crate::specs::Classes::are_identifiers))]
fn are_identifiers(names: &[Name]) -> bool
    ensures { result ≡ spec.are_identifiers names.now }
{
    for name in names {
        if !is_identifier(name) {
            return false;
        }
    }
    true
}

#[tactic(auto, unfolding(crate::specs::Classes::head_holds))]
fn head_holds(head: &ClassHead) -> bool
    ensures { result ≡ spec.head_holds head.now }
{
    is_identifier(&head.name)
        && superclass_named(&head.superclass)
        && are_identifiers(head.interfaces.as_slice())
        && has_right_superclass(head)
}

fn is_truth_value(value: i32) -> bool
    ensures { result ≡ spec.is_truth_value value }
{
    value == 0 || value == 1
}

#[tactic(auto, using(crate::proofs::Rulesets::walk_rules), unfolding(crate::specs::Classes::constant_fits))]
fn constant_fits(ty: &Ty, value: i32) -> bool
    ensures { result ≡ spec.constant_fits (ty_of ty.now) value }
{
    match ty {
        Ty::Int => in_range(value),
        Ty::Bool => is_truth_value(value),
        Ty::Void | Ty::Class(_) | Ty::Array(_) => false,
    }
}

#[tactic(auto, unfolding(crate::specs::Classes::constant_holds))]
fn constant_holds(ty: &Ty, is_static: bool, constant: Option<i32>) -> bool
    ensures { result ≡ spec.constant_holds (ty_of ty.now) is_static constant }
{
    match constant {
        None => true,
        Some(value) => is_static && constant_fits(ty, value),
    }
}

#[tactic(auto, unfolding(crate::specs::Classes::field_access_holds))]
fn field_access_holds(interface: bool, field: &SymField) -> bool
    ensures { result ≡ spec.field_access_holds interface (field_of field.now) }
{
    !(field.is_private && interface)
}

#[tactic(auto, unfolding(crate::specs::Classes::field_holds))]
fn field_holds(interface: bool, field: &SymField) -> bool
    ensures { result ≡ spec.field_holds interface (field_of field.now) }
{
    is_identifier(&field.name)
        && is_value_type(&field.ty)
        && (!interface || field.is_static)
        && field_access_holds(interface, field)
        && constant_holds(&field.ty, field.is_static, field.constant)
}

#[tactic(auto, unfolding(crate::specs::Classes::same_field))]
fn same_field(field: &SymField, other: &SymField) -> bool
    ensures { result ≡ spec.same_field (field_of field.now) (field_of other.now) }
{
    field.name.same(&other.name) && field.ty.same(&other.ty)
}

#[tactic(auto, unfolding(crate::specs::Classes::fields_hold))]
fn fields_hold(interface: bool, fields: &[SymField]) -> bool
    ensures { result ≡ spec.fields_hold interface (map field_of fields.now) }
{
    for field in fields {
        if !field_holds(interface, field) {
            return false;
        }
    }
    true
}

#[tactic(auto, unfolding(crate::specs::Classes::has_field))]
fn has_field(field: &SymField, others: &[SymField]) -> bool
    ensures { result ≡ spec.has_field (field_of field.now) (map field_of others.now) }
{
    for other in others {
        if same_field(field, other) {
            return true;
        }
    }
    false
}

#[tactic(auto, unfolding(crate::specs::Classes::fields_differ))]
fn fields_differ(fields: &[SymField]) -> bool
    ensures { result ≡ spec.fields_differ (map field_of fields.now) }
{
    let mut rest = fields;
    while let [field, others @ ..] = rest {
        if has_field(field, others) {
            return false;
        }
        rest = others;
    }
    true
}

fn is_constructor(kind: MethodKind) -> bool
    ensures { result ≡ spec.is_constructor kind }
{
    match kind {
        MethodKind::Constructor => true,
        MethodKind::Static | MethodKind::Instance | MethodKind::Abstract => false,
    }
}

fn is_abstract(kind: MethodKind) -> bool
    ensures { result ≡ spec.is_abstract kind }
{
    match kind {
        MethodKind::Abstract => true,
        MethodKind::Static | MethodKind::Instance | MethodKind::Constructor => false,
    }
}

/// Whether local 0 of such a method is `this`.
pub fn has_this(kind: MethodKind) -> bool
    ensures { result ≡ spec.has_this kind }
{
    match kind {
        MethodKind::Static => false,
        MethodKind::Instance | MethodKind::Abstract | MethodKind::Constructor => true,
    }
}

#[tactic(auto, unfolding(crate::specs::Classes::named_by_kind))]
fn named_by_kind(method: &SymMethod) -> bool
    ensures { result ≡ spec.named_by_kind (method_of method.now) }
{
    if is_constructor(method.kind) {
        is_constructor_name(&method.name) && is_void(&method.result)
    } else {
        is_identifier(&method.name) && is_result_type(&method.result)
    }
}

fn begins_with(first: &[Ty], types: &[Ty]) -> bool
    ensures { result ≡ spec.begins_with (types_of first.now) (types_of types.now) }
{
    let mut rest = types;
    for ty in first {
        match rest {
            [] => return false,
            [other, others @ ..] => {
                if !ty.same(other) {
                    return false;
                }
                rest = others;
            }
        }
    }
    true
}

fn is_class_type(ty: &Ty, class: &Name) -> bool
    ensures { result ≡ same_type (class_type class.now) (ty_of ty.now) }
{
    match ty {
        Ty::Class(name) => class.same(name),
        Ty::Int | Ty::Bool | Ty::Void | Ty::Array(_) => false,
    }
}

fn begins_with_this(class: &Name, params: &[Ty], locals: &[Ty]) -> bool
    ensures { result ≡ spec.begins_with (class_type class.now ∷ types_of params.now) (types_of locals.now) }
{
    match locals {
        [] => false,
        [this, others @ ..] => is_class_type(this, class) && begins_with(params, others),
    }
}

#[tactic(auto, unfolding(crate::specs::Classes::locals_hold))]
fn locals_hold(class: &Name, this: bool, params: &[Ty], locals: &[Ty]) -> bool
    ensures { result ≡ spec.locals_hold class.now this (types_of params.now) (types_of locals.now) }
{
    if this {
        begins_with_this(class, params, locals)
    } else {
        begins_with(params, locals)
    }
}

#[tactic(auto, unfolding(crate::specs::Classes::are_behind_first))]
fn are_behind_first(params: &[Ty], locals: &[Ty]) -> bool
    ensures { result ≡ spec.are_behind_first (types_of params.now) (types_of locals.now) }
{
    match locals {
        [] => false,
        [_this, others @ ..] => same_types(others, params),
    }
}

#[tactic(auto, using(crate::proofs::Rulesets::length_rules))]
fn is_empty(body: &[SymStmt]) -> bool
    ensures { result ≡ spec.is_empty (stmts_of body.now) }
{
    body.is_empty()
}

#[tactic(auto, unfolding(crate::specs::Classes::body_by_kind))]
fn body_by_kind(method: &SymMethod) -> bool
    ensures { result ≡ spec.body_by_kind (method_of method.now) }
{
    !is_abstract(method.kind)
        || is_empty(method.body.as_slice())
            && are_behind_first(method.params.as_slice(), method.locals.as_slice())
}

#[tactic(auto, unfolding(crate::specs::Classes::method_access_holds))]
fn method_access_holds(interface: bool, method: &SymMethod) -> bool
    ensures { result ≡ spec.method_access_holds interface (method_of method.now) }
{
    !(method.is_private && (interface || is_abstract(method.kind)))
}

#[tactic(auto, unfolding(crate::specs::Classes::method_holds))]
fn method_holds(interface: bool, class: &Name, method: &SymMethod) -> bool
    ensures { result ≡ spec.method_holds interface class.now (method_of method.now) }
{
    named_by_kind(method)
        && are_value_types(method.params.as_slice())
        && are_value_types(method.locals.as_slice())
        && locals_hold(
            class,
            has_this(method.kind),
            method.params.as_slice(),
            method.locals.as_slice(),
        )
        && body_by_kind(method)
        && (!interface || is_abstract(method.kind))
        && method_access_holds(interface, method)
}

#[tactic(auto, unfolding(crate::specs::Classes::methods_hold))]
fn methods_hold(interface: bool, class: &Name, methods: &[SymMethod]) -> bool
    ensures { result ≡ spec.methods_hold interface class.now (map method_of methods.now) }
{
    for method in methods {
        if !method_holds(interface, class, method) {
            return false;
        }
    }
    true
}

#[tactic(auto, unfolding(crate::specs::Classes::same_method))]
fn same_method(method: &SymMethod, other: &SymMethod) -> bool
    ensures { result ≡ spec.same_method (method_of method.now) (method_of other.now) }
{
    method.name.same(&other.name)
        && same_types(method.params.as_slice(), other.params.as_slice())
        && method.result.same(&other.result)
}

#[tactic(auto, unfolding(crate::specs::Classes::has_method))]
fn has_method(method: &SymMethod, others: &[SymMethod]) -> bool
    ensures { result ≡ spec.has_method (method_of method.now) (map method_of others.now) }
{
    for other in others {
        if same_method(method, other) {
            return true;
        }
    }
    false
}

#[tactic(auto, unfolding(crate::specs::Classes::methods_differ))]
fn methods_differ(methods: &[SymMethod]) -> bool
    ensures { result ≡ spec.methods_differ (map method_of methods.now) }
{
    let mut rest = methods;
    while let [method, others @ ..] = rest {
        if has_method(method, others) {
            return false;
        }
        rest = others;
    }
    true
}

#[tactic(auto, unfolding(crate::specs::Classes::has_constructor))]
fn has_constructor(methods: &[SymMethod]) -> bool
    ensures { result ≡ spec.has_constructor (map method_of methods.now) }
{
    for method in methods {
        if is_constructor(method.kind) {
            return true;
        }
    }
    false
}

#[tactic(auto, unfolding(crate::specs::Classes::constructors_first))]
fn constructors_first(methods: &[SymMethod]) -> bool
    ensures { result ≡ spec.constructors_first (map method_of methods.now) }
{
    let mut rest = methods;
    while let [method, others @ ..] = rest {
        if !is_constructor(method.kind) && has_constructor(others) {
            return false;
        }
        rest = others;
    }
    true
}

#[tactic(auto, unfolding(crate::specs::Classes::pair_holds))]
fn pair_holds(pair: &Pair) -> bool
    ensures { result ≡ spec.pair_holds (pair_of pair.now) }
{
    is_value_type(&pair.from) && is_value_type(&pair.to)
}

#[tactic(auto, unfolding(crate::specs::Classes::pairs_hold))]
fn pairs_hold(pairs: &[Pair]) -> bool
    ensures { result ≡ spec.pairs_hold (map pair_of pairs.now) }
{
    for pair in pairs {
        if !pair_holds(pair) {
            return false;
        }
    }
    true
}

#[tactic(auto, unfolding(crate::specs::Classes::has_class))]
fn has_class(name: &Name, classes: &[SymClass]) -> bool
    ensures { result ≡ spec.has_class name.now (map class_of classes.now) }
{
    for class in classes {
        if name.same(&class.head.name) {
            return true;
        }
    }
    false
}

#[tactic(auto, unfolding(crate::specs::Classes::members_hold))]
fn members_hold(class: &SymClass) -> bool
    ensures { result ≡ spec.members_hold (class_of class.now) }
{
    fields_hold(class.head.interface, class.fields.as_slice())
        && fields_differ(class.fields.as_slice())
        && are_value_types(class.init.locals.as_slice())
        && methods_hold(
            class.head.interface,
            &class.head.name,
            class.methods.as_slice(),
        )
        && methods_differ(class.methods.as_slice())
        && constructors_first(class.methods.as_slice())
        && pairs_hold(class.pairs.as_slice())
}

/// Whether a class meets the conditions on its head, members and types; `number` is its place in the unit, and `before` the
/// classes before it.
#[tactic(auto, unfolding(crate::specs::Classes::class_holds))]
pub fn class_holds(number: usize, before: &[SymClass], class: &SymClass) -> bool
    ensures { result ≡ spec.class_holds number (map class_of before.now) (class_of class.now) }
{
    number < MAX_TYPES
        && !has_class(&class.head.name, before)
        && head_holds(&class.head)
        && members_hold(class)
}
