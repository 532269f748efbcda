//! The rule of each expression, by the types of its parts.

ghost use Rattle.std.specs.Prelude.{◌≡◌, if◌then◌else◌};
ghost use Rattle.bcj_symbolic_trees.specs.Types.{ty_of, types_of, field_ref_of, method_ref_of};
ghost use Rattle.bcj_symbolic_check.specs.Judgements as spec;
ghost use Rattle.bcj_symbolic_check.specs.function.Views.{kind_of, known_of, frame_of};

use crate::kind::{Kind, array_part, bool_part, element_part, int_part, object_part, value_part};
use crate::spelling::is_spelled;
use crate::surroundings::Body;
use crate::types::{
    is_array, is_constructor_ref, is_field_ref, is_method_ref, is_reference, is_value_type,
};
use bcj_symbolic_trees::{BinaryOp, FieldRef, MethodRef, OBJECT, PRINT_STREAM, Ty, UnaryOp};

/// Whether a node has a rule, and the type that it gives.
#[derive(Clone, Copy)]
pub struct Judged<'a> {
    pub holds: bool,
    pub gives: Option<Kind<'a>>,
}

/// A node without a rule gives no type.
pub fn judgement<'a>(holds: bool, gives: Option<Kind<'a>>) -> Judged<'a>
    ensures holds { result.holds ≡ holds }
    ensures gives { known_of result.gives ≡ (if holds then known_of gives.entry else None) }
{
    Judged {
        holds,
        gives: if holds { gives } else { None },
    }
}

#[tactic(auto, unfolding(crate::specs::Judgements::in_group))]
fn in_group<'a>(references: bool, kind: Kind<'a>) -> bool
    ensures { result ≡ spec.in_group references (kind_of kind.entry) }
{
    kind.is_int() || kind.is_bool() || references && kind.is_object()
}

#[tactic(auto, unfolding(crate::specs::Judgements::same_group))]
fn same_group<'a>(references: bool, first: Kind<'a>, second: Kind<'a>) -> bool
    ensures { result ≡ spec.same_group references (kind_of first.entry) (kind_of second.entry) }
{
    first.is_int() && second.is_int()
        || first.is_bool() && second.is_bool()
        || references && first.is_object() && second.is_object()
}

#[tactic(auto, unfolding(crate::specs::Judgements::takes_groups))]
fn takes_groups<'a>(references: bool, first: Option<Kind<'a>>, second: Option<Kind<'a>>) -> bool
    ensures { result ≡ spec.takes_groups references (known_of first.entry) (known_of second.entry) }
{
    match first {
        None => match second {
            None => true,
            Some(second) => in_group(references, second),
        },
        Some(first) => match second {
            None => in_group(references, first),
            Some(second) => same_group(references, first, second),
        },
    }
}

/// Whether an operator takes these operands (JLS 15.17 to 15.22).
#[tactic(auto, unfolding(crate::specs::Judgements::takes))]
fn takes<'a>(op: BinaryOp, first: Option<Kind<'a>>, second: Option<Kind<'a>>) -> bool
    ensures { result ≡ spec.takes op (known_of first.entry) (known_of second.entry) }
{
    match op {
        BinaryOp::Or | BinaryOp::Xor | BinaryOp::And => takes_groups(false, first, second),
        BinaryOp::Eq | BinaryOp::Ne => takes_groups(true, first, second),
        BinaryOp::Lt
        | BinaryOp::Gt
        | BinaryOp::Le
        | BinaryOp::Ge
        | BinaryOp::Shl
        | BinaryOp::Shr
        | BinaryOp::Ushr
        | BinaryOp::Add
        | BinaryOp::Sub
        | BinaryOp::Mul
        | BinaryOp::Div
        | BinaryOp::Rem => int_part(first) && int_part(second),
    }
}

#[tactic(auto, unfolding(crate::specs::Judgements::is_comparison))]
fn is_comparison(op: BinaryOp) -> bool
    ensures { result ≡ spec.is_comparison op }
{
    match op {
        BinaryOp::Eq | BinaryOp::Ne | BinaryOp::Lt | BinaryOp::Gt | BinaryOp::Le | BinaryOp::Ge =>
            true,
        BinaryOp::Or
        | BinaryOp::Xor
        | BinaryOp::And
        | BinaryOp::Shl
        | BinaryOp::Shr
        | BinaryOp::Ushr
        | BinaryOp::Add
        | BinaryOp::Sub
        | BinaryOp::Mul
        | BinaryOp::Div
        | BinaryOp::Rem => false,
    }
}

#[tactic(auto, unfolding(crate::specs::Judgements::operator_gives))]
fn operator_gives<'a>(op: BinaryOp, first: Option<Kind<'a>>) -> Option<Kind<'a>>
    ensures { known_of result ≡ spec.operator_gives op (known_of first.entry) }
{
    match op {
        BinaryOp::Or | BinaryOp::Xor | BinaryOp::And => first,
        BinaryOp::Eq | BinaryOp::Ne | BinaryOp::Lt | BinaryOp::Gt | BinaryOp::Le | BinaryOp::Ge =>
            Some(Kind::Bool),
        BinaryOp::Shl
        | BinaryOp::Shr
        | BinaryOp::Ushr
        | BinaryOp::Add
        | BinaryOp::Sub
        | BinaryOp::Mul
        | BinaryOp::Div
        | BinaryOp::Rem => Some(Kind::Int),
    }
}

#[tactic(auto, unfolding(crate::specs::Judgements::unary_takes))]
fn unary_takes<'a>(op: UnaryOp, operand: Option<Kind<'a>>) -> bool
    ensures { result ≡ spec.unary_takes op (known_of operand.entry) }
{
    match op {
        UnaryOp::Not => bool_part(operand),
        UnaryOp::Minus | UnaryOp::Flip => int_part(operand),
    }
}

#[tactic(auto, unfolding(crate::specs::Judgements::unary_gives))]
fn unary_gives<'a>(op: UnaryOp) -> Option<Kind<'a>>
    ensures { known_of result ≡ spec.a_type (spec.unary_gives op) }
{
    match op {
        UnaryOp::Not => Some(Kind::Bool),
        UnaryOp::Minus | UnaryOp::Flip => Some(Kind::Int),
    }
}

/// Whether a list of types is empty.
#[tactic(auto, unfolding(crate::specs::Judgements::no_types))]
pub fn no_types(types: &[Ty]) -> bool
    ensures { result ≡ spec.no_types (types_of types.now) }
{
    match types {
        [] => true,
        [_, ..] => false,
    }
}

/// Whether a number is one of `int`, as each of its type is.
#[tactic(auto, using(crate::proofs::RangeLemmas::fits_in_range))]
pub fn in_range(number: i32) -> bool
    ensures { result ≡ spec.in_range number }
{
    true
}

#[tactic(auto, unfolding(crate::specs::Judgements::int_rule))]
pub fn int_rule<'a>(number: i32) -> Judged<'a>
    ensures holds { result.holds ≡ (spec.int_rule number).holds }
    ensures gives { known_of result.gives ≡ (spec.int_rule number).gives }
{
    let holds = in_range(number);
    judgement(holds, Some(Kind::Int))
}

#[tactic(auto, unfolding(crate::specs::Judgements::local_rule))]
pub fn local_rule<'a>(local: Option<Kind<'a>>) -> Judged<'a>
    ensures holds { result.holds ≡ (spec.local_rule (known_of local.entry)).holds }
    ensures gives { known_of result.gives ≡ (spec.local_rule (known_of local.entry)).gives }
{
    let holds = local.is_some();
    judgement(holds, local)
}

#[tactic(auto, unfolding(crate::specs::Judgements::local_store_rule))]
pub fn local_store_rule<'a>(
    body: &Body<'a>,
    hidden: bool,
    local: Option<Kind<'a>>,
    value: Option<Kind<'a>>,
) -> Judged<'a>
    ensures holds { result.holds ≡ (spec.local_store_rule (frame_of body.now).pairs hidden (known_of local.entry) (known_of value.entry)).holds }
    ensures gives { known_of result.gives ≡ (spec.local_store_rule (frame_of body.now).pairs hidden (known_of local.entry) (known_of value.entry)).gives }
{
    let holds = local.is_some() && !hidden && body.steps(value, local);
    judgement(holds, local)
}

#[tactic(auto, unfolding(crate::specs::Judgements::static_rule))]
pub fn static_rule<'a>(field: &'a FieldRef) -> Judged<'a>
    ensures holds { result.holds ≡ (spec.static_rule (field_ref_of field.entry.now)).holds }
    ensures gives { known_of result.gives ≡ (spec.static_rule (field_ref_of field.entry.now)).gives }
{
    let holds = is_field_ref(field);
    judgement(holds, Some(Kind::of(&field.ty)))
}

#[tactic(auto, unfolding(crate::specs::Judgements::static_store_rule))]
pub fn static_store_rule<'a>(
    body: &Body<'a>,
    field: &'a FieldRef,
    value: Option<Kind<'a>>,
) -> Judged<'a>
    ensures holds { result.holds ≡ (spec.static_store_rule (frame_of body.now).pairs (field_ref_of field.entry.now) (known_of value.entry)).holds }
    ensures gives { known_of result.gives ≡ (spec.static_store_rule (frame_of body.now).pairs (field_ref_of field.entry.now) (known_of value.entry)).gives }
{
    let holds = is_field_ref(field) && body.steps(value, Some(Kind::of(&field.ty)));
    judgement(holds, Some(Kind::of(&field.ty)))
}

#[tactic(auto, unfolding(crate::specs::Judgements::field_rule))]
pub fn field_rule<'a>(body: &Body<'a>, field: &'a FieldRef, target: Option<Kind<'a>>) -> Judged<'a>
    ensures holds { result.holds ≡ (spec.field_rule (frame_of body.now).pairs (field_ref_of field.entry.now) (known_of target.entry)).holds }
    ensures gives { known_of result.gives ≡ (spec.field_rule (frame_of body.now).pairs (field_ref_of field.entry.now) (known_of target.entry)).gives }
{
    let holds = is_field_ref(field) && body.steps(target, Some(Kind::Class(&field.class)));
    judgement(holds, Some(Kind::of(&field.ty)))
}

#[tactic(auto, unfolding(crate::specs::Judgements::field_store_rule))]
pub fn field_store_rule<'a>(
    body: &Body<'a>,
    field: &'a FieldRef,
    target: Option<Kind<'a>>,
    value: Option<Kind<'a>>,
) -> Judged<'a>
    ensures holds { result.holds ≡ (spec.field_store_rule (frame_of body.now).pairs (field_ref_of field.entry.now) (known_of target.entry) (known_of value.entry)).holds }
    ensures gives { known_of result.gives ≡ (spec.field_store_rule (frame_of body.now).pairs (field_ref_of field.entry.now) (known_of target.entry) (known_of value.entry)).gives }
{
    let holds = is_field_ref(field)
        && body.steps(target, Some(Kind::Class(&field.class)))
        && body.steps(value, Some(Kind::of(&field.ty)));
    judgement(holds, Some(Kind::of(&field.ty)))
}

#[tactic(auto, unfolding(crate::specs::Judgements::element_rule))]
pub fn element_rule<'a>(array: Option<Kind<'a>>, index: Option<Kind<'a>>) -> Judged<'a>
    ensures holds { result.holds ≡ (spec.element_rule (known_of array.entry) (known_of index.entry)).holds }
    ensures gives { known_of result.gives ≡ (spec.element_rule (known_of array.entry) (known_of index.entry)).gives }
{
    let holds = array_part(array) && int_part(index);
    judgement(holds, element_part(array))
}

#[tactic(auto, unfolding(crate::specs::Judgements::element_store_rule))]
pub fn element_store_rule<'a>(
    body: &Body<'a>,
    array: Option<Kind<'a>>,
    index: Option<Kind<'a>>,
    value: Option<Kind<'a>>,
) -> Judged<'a>
    ensures holds { result.holds ≡ (spec.element_store_rule (frame_of body.now).pairs (known_of array.entry) (known_of index.entry) (known_of value.entry)).holds }
    ensures gives { known_of result.gives ≡ (spec.element_store_rule (frame_of body.now).pairs (known_of array.entry) (known_of index.entry) (known_of value.entry)).gives }
{
    let holds = array_part(array)
        && int_part(index)
        && value_part(value)
        && body.steps(value, element_part(array));
    judgement(holds, element_part(array))
}

#[tactic(auto, unfolding(crate::specs::Judgements::length_rule))]
pub fn length_rule<'a>(array: Option<Kind<'a>>) -> Judged<'a>
    ensures holds { result.holds ≡ (spec.length_rule (known_of array.entry)).holds }
    ensures gives { known_of result.gives ≡ (spec.length_rule (known_of array.entry)).gives }
{
    let holds = array_part(array);
    judgement(holds, Some(Kind::Int))
}

#[tactic(auto, unfolding(crate::specs::Judgements::update_rule))]
pub fn update_rule<'a>(
    op: BinaryOp,
    holds: bool,
    place: Option<Kind<'a>>,
    value: Option<Kind<'a>>,
) -> Judged<'a>
    ensures holds { result.holds ≡ (spec.update_rule op holds (known_of place.entry) (known_of value.entry)).holds }
    ensures gives { known_of result.gives ≡ (spec.update_rule op holds (known_of place.entry) (known_of value.entry)).gives }
{
    let holds = holds && !is_comparison(op) && takes(op, place, value);
    judgement(holds, place)
}

#[tactic(auto, unfolding(crate::specs::Judgements::unary_rule))]
pub fn unary_rule<'a>(op: UnaryOp, operand: Option<Kind<'a>>) -> Judged<'a>
    ensures holds { result.holds ≡ (spec.unary_rule op (known_of operand.entry)).holds }
    ensures gives { known_of result.gives ≡ (spec.unary_rule op (known_of operand.entry)).gives }
{
    let holds = unary_takes(op, operand);
    judgement(holds, unary_gives(op))
}

#[tactic(auto, unfolding(crate::specs::Judgements::binary_rule))]
pub fn binary_rule<'a>(
    op: BinaryOp,
    first: Option<Kind<'a>>,
    second: Option<Kind<'a>>,
) -> Judged<'a>
    ensures holds { result.holds ≡ (spec.binary_rule op (known_of first.entry) (known_of second.entry)).holds }
    ensures gives { known_of result.gives ≡ (spec.binary_rule op (known_of first.entry) (known_of second.entry)).gives }
{
    let holds = takes(op, first, second);
    judgement(holds, operator_gives(op, first))
}

#[tactic(auto, unfolding(crate::specs::Judgements::logic_rule))]
pub fn logic_rule<'a>(first: Option<Kind<'a>>, second: Option<Kind<'a>>) -> Judged<'a>
    ensures holds { result.holds ≡ (spec.logic_rule (known_of first.entry) (known_of second.entry)).holds }
    ensures gives { known_of result.gives ≡ (spec.logic_rule (known_of first.entry) (known_of second.entry)).gives }
{
    let holds = bool_part(first) && bool_part(second);
    judgement(holds, Some(Kind::Bool))
}

#[tactic(auto, unfolding(crate::specs::Judgements::choice_rule))]
pub fn choice_rule<'a>(
    body: &Body<'a>,
    test: Option<Kind<'a>>,
    first: Option<Kind<'a>>,
    second: Option<Kind<'a>>,
) -> Judged<'a>
    ensures holds { result.holds ≡ (spec.choice_rule (frame_of body.now).pairs (known_of test.entry) (known_of first.entry) (known_of second.entry)).holds }
    ensures gives { known_of result.gives ≡ (spec.choice_rule (frame_of body.now).pairs (known_of test.entry) (known_of first.entry) (known_of second.entry)).gives }
{
    let holds = bool_part(test)
        && value_part(first)
        && value_part(second)
        && (body.steps(first, second) || body.steps(second, first));
    judgement(holds, body.joined(first, second))
}

#[tactic(auto, unfolding(crate::specs::Judgements::new_rule))]
pub fn new_rule<'a>(method: &'a MethodRef, fits: bool) -> Judged<'a>
    ensures holds { result.holds ≡ (spec.new_rule (method_ref_of method.entry.now) fits).holds }
    ensures gives { known_of result.gives ≡ (spec.new_rule (method_ref_of method.entry.now) fits).gives }
{
    let holds = is_constructor_ref(method)
        && (!is_spelled(&method.class, OBJECT) || no_types(method.params.as_slice()))
        && fits;
    judgement(holds, Some(Kind::Class(&method.class)))
}

#[tactic(auto, unfolding(crate::specs::Judgements::new_array_rule))]
pub fn new_array_rule<'a>(ty: &'a Ty, length: Option<Kind<'a>>) -> Judged<'a>
    ensures holds { result.holds ≡ (spec.new_array_rule (ty_of ty.entry.now) (known_of length.entry)).holds }
    ensures gives { known_of result.gives ≡ (spec.new_array_rule (ty_of ty.entry.now) (known_of length.entry)).gives }
{
    let holds = is_array(ty) && is_value_type(ty) && int_part(length);
    judgement(holds, Some(Kind::of(ty)))
}

#[tactic(auto, unfolding(crate::specs::Judgements::static_call_rule))]
pub fn static_call_rule<'a>(method: &'a MethodRef, fits: bool) -> Judged<'a>
    ensures holds { result.holds ≡ (spec.static_call_rule (method_ref_of method.entry.now) fits).holds }
    ensures gives { known_of result.gives ≡ (spec.static_call_rule (method_ref_of method.entry.now) fits).gives }
{
    let holds = is_method_ref(method) && fits;
    judgement(holds, Some(Kind::of(&method.result)))
}

#[tactic(auto, unfolding(crate::specs::Judgements::call_rule))]
pub fn call_rule<'a>(
    body: &Body<'a>,
    method: &'a MethodRef,
    target: Option<Kind<'a>>,
    fits: bool,
) -> Judged<'a>
    ensures holds { result.holds ≡ (spec.call_rule (frame_of body.now).pairs (method_ref_of method.entry.now) (known_of target.entry) fits).holds }
    ensures gives { known_of result.gives ≡ (spec.call_rule (frame_of body.now).pairs (method_ref_of method.entry.now) (known_of target.entry) fits).gives }
{
    let holds = is_method_ref(method)
        && body.steps(target, Some(Kind::Class(&method.class)))
        && fits;
    judgement(holds, Some(Kind::of(&method.result)))
}

#[tactic(auto, unfolding(crate::specs::Judgements::special_rule))]
pub fn special_rule<'a>(body: &Body<'a>, method: &'a MethodRef, fits: bool) -> Judged<'a>
    ensures holds { result.holds ≡ (spec.special_rule (frame_of body.now) (method_ref_of method.entry.now) fits).holds }
    ensures gives { known_of result.gives ≡ (spec.special_rule (frame_of body.now) (method_ref_of method.entry.now) fits).gives }
{
    let holds = (is_method_ref(method) || is_constructor_ref(method))
        && body.is_special(method)
        && fits;
    judgement(holds, Some(Kind::of(&method.result)))
}

#[tactic(auto, unfolding(crate::specs::Judgements::cast_rule))]
pub fn cast_rule<'a>(ty: &'a Ty, operand: Option<Kind<'a>>) -> Judged<'a>
    ensures holds { result.holds ≡ (spec.cast_rule (ty_of ty.entry.now) (known_of operand.entry)).holds }
    ensures gives { known_of result.gives ≡ (spec.cast_rule (ty_of ty.entry.now) (known_of operand.entry)).gives }
{
    let holds = is_reference(ty) && is_value_type(ty) && object_part(operand);
    judgement(holds, Some(Kind::of(ty)))
}

#[tactic(auto, unfolding(crate::specs::Judgements::widen_rule))]
pub fn widen_rule<'a>(body: &Body<'a>, ty: &'a Ty, operand: Option<Kind<'a>>) -> Judged<'a>
    ensures holds { result.holds ≡ (spec.widen_rule (frame_of body.now).pairs (ty_of ty.entry.now) (known_of operand.entry)).holds }
    ensures gives { known_of result.gives ≡ (spec.widen_rule (frame_of body.now).pairs (ty_of ty.entry.now) (known_of operand.entry)).gives }
{
    let holds = is_reference(ty) && is_value_type(ty) && body.steps(operand, Some(Kind::of(ty)));
    judgement(holds, Some(Kind::of(ty)))
}

#[tactic(auto, unfolding(crate::specs::Judgements::instance_rule))]
pub fn instance_rule<'a>(ty: &'a Ty, operand: Option<Kind<'a>>) -> Judged<'a>
    ensures holds { result.holds ≡ (spec.instance_rule (ty_of ty.entry.now) (known_of operand.entry)).holds }
    ensures gives { known_of result.gives ≡ (spec.instance_rule (ty_of ty.entry.now) (known_of operand.entry)).gives }
{
    let holds = is_reference(ty) && is_value_type(ty) && object_part(operand);
    judgement(holds, Some(Kind::Bool))
}

#[tactic(auto, unfolding(crate::specs::Judgements::then_rule))]
pub fn then_rule<'a>(
    null_test: bool,
    first: Option<Kind<'a>>,
    second: Option<Kind<'a>>,
) -> Judged<'a>
    ensures holds { result.holds ≡ (spec.then_rule null_test (known_of first.entry) (known_of second.entry)).holds }
    ensures gives { known_of result.gives ≡ (spec.then_rule null_test (known_of first.entry) (known_of second.entry)).gives }
{
    let holds = !null_test || object_part(first);
    judgement(holds, second)
}

#[tactic(auto, unfolding(crate::specs::Judgements::print_rule))]
pub fn print_rule<'a>(body: &Body<'a>, taken: bool) -> Judged<'a>
    ensures holds { result.holds ≡ (spec.print_rule (frame_of body.now) taken).holds }
    ensures gives { known_of result.gives ≡ (spec.print_rule (frame_of body.now) taken).gives }
{
    let holds = body.stands_in(PRINT_STREAM) && taken;
    judgement(holds, Some(Kind::Void))
}
