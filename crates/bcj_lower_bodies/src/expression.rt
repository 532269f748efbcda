//! The lines of expressions. A node keeps values in temporaries from `d` on and has its labels from `k` on; each call gives the first
//! label behind them.
#![tactic(auto, using(crate::proofs::Rules::line_rules))]

ghost use Rattle.std.specs.Prelude.{◌≡◌, ◌+◌, ◌++◌, OnOk, IfOk};
ghost use Rattle.bcj_symbolic_trees.specs.Trees.{new_object};
ghost use Rattle.bcj_symbolic_trees.specs.Types.{method_ref_of};
ghost use Rattle.bcj_symbolic_trees.specs.Plain.{expr_of, exprs_of, place_of};
ghost use Rattle.bcj_lower_rules.specs.Lines.{jump_if_zero};
ghost use Rattle.bcj_lower_rules.specs.Words.{save};
ghost use Rattle.bcj_lower_rules.specs.Nodes as spec;
ghost use Rattle.bcj_lower_words.specs.Views.{lines_of};
ghost use Rattle.bcj_lower_bodies.specs.Views.{context_of};

use crate::array::{array_length, element_value, new_array, store_element};
use crate::call::{call_interface, call_special, call_static, call_virtual, construct};
use crate::cast::{cast_to, test_for};
use crate::context::Context;
use crate::counting::{behind, further};
use crate::object::{field_value, new_object, static_value, store_field, store_static};
use crate::place::{place_saves, write_place};
use bcj_lower_words::{Lines, deeper, print_service};
use bcj_symbolic_measure::is_object;
use bcj_symbolic_trees::{MethodRef, SymExpr, UpdatePlace};
use std::alloc::AllocError;

/// The local that holds `this`.
const THIS: u32 = 0;

/// The lines of arguments, each saved.
#[cycle(code)]
fn arguments<'a>(
    args: &'a [SymExpr],
    d: u16,
    k: u32,
    context: &Context<'a>,
    lines: &mut Lines<'a>,
) -> Result<u32, AllocError>
    ensures lines { OnOk result (lines_of lines.new ≡ lines_of lines.old ++ spec.args_lines (context_of context.now) d k (exprs_of args.now)) }
    ensures labels { IfOk result (λ next. next ≡ k + spec.exprs_labels (exprs_of args.now)) }
{
    let mut free = d;
    let mut next = k;
    for argument in args {
        next = expression(argument, free, next, context, lines)?;
        lines.save(free)?;
        free = deeper(free)?;
    }
    Ok(next)
}

/// The lines of expressions, one behind the other.
#[cycle(code)]
pub fn expressions<'a>(
    all: &'a [SymExpr],
    d: u16,
    k: u32,
    context: &Context<'a>,
    lines: &mut Lines<'a>,
) -> Result<u32, AllocError>
    ensures lines { OnOk result (lines_of lines.new ≡ lines_of lines.old ++ spec.exprs_lines (context_of context.now) d k (exprs_of all.now)) }
    ensures labels { IfOk result (λ next. next ≡ k + spec.exprs_labels (exprs_of all.now)) }
{
    let mut next = k;
    for e in all {
        next = expression(e, d, next, context, lines)?;
    }
    Ok(next)
}

/// The lines of a new object, which but for Object has a constructor.
#[cycle(code)]
fn instance<'a>(
    args: &'a [SymExpr],
    method: &'a MethodRef,
    d: u16,
    k: u32,
    context: &Context<'a>,
    lines: &mut Lines<'a>,
) -> Result<u32, AllocError>
    ensures lines { OnOk result (lines_of lines.new ≡ lines_of lines.old ++ spec.expr_lines (context_of context.now) d k (new_object (method_ref_of method.now) (exprs_of args.now))) }
    ensures labels { IfOk result (λ next. next ≡ k + spec.expr_labels (new_object (method_ref_of method.now) (exprs_of args.now))) }
{
    new_object(&method.class, lines)?;
    if is_object(&method.class) {
        return Ok(k);
    }
    lines.save(d)?;
    let next = arguments(args, deeper(d)?, k, context, lines)?;
    construct(method, args.len(), d, next, lines)
}

/// The lines of a part that is kept in temporary `d`.
#[cycle(code)]
fn saved<'a>(
    e: &'a SymExpr,
    d: u16,
    k: u32,
    context: &Context<'a>,
    lines: &mut Lines<'a>,
) -> Result<u32, AllocError>
    ensures lines { OnOk result (lines_of lines.new ≡ lines_of lines.old ++ (spec.expr_lines (context_of context.now) d k (expr_of e.now) ++ save d)) }
    ensures labels { IfOk result (λ next. next ≡ k + spec.expr_labels (expr_of e.now)) }
{
    let next = expression(e, d, k, context, lines)?;
    lines.save(d)?;
    Ok(next)
}

/// The lines of a condition behind so many labels of its whole, from `k` on: where it is false, `k` comes next.
#[cycle(code)]
fn tested<'a>(
    e: &'a SymExpr,
    own: u32,
    d: u16,
    k: u32,
    context: &Context<'a>,
    lines: &mut Lines<'a>,
) -> Result<u32, AllocError>
    ensures lines { OnOk result (lines_of lines.new ≡ lines_of lines.old ++ (spec.expr_lines (context_of context.now) d (k + own) (expr_of e.now) ++ jump_if_zero k)) }
    ensures labels { IfOk result (λ next. next ≡ k + own + spec.expr_labels (expr_of e.now)) }
{
    let next = expression(e, d, behind(k, own)?, context, lines)?;
    lines.jump_if_zero(k)?;
    Ok(next)
}

/// The lines of what an update reads, up to its old value.
#[cycle(code)]
fn read_place<'a>(
    place: &'a UpdatePlace,
    d: u16,
    k: u32,
    context: &Context<'a>,
    lines: &mut Lines<'a>,
) -> Result<u32, AllocError>
    ensures lines { OnOk result (lines_of lines.new ≡ lines_of lines.old ++ spec.read_lines (context_of context.now) d k (place_of place.now)) }
    ensures labels { IfOk result (λ next. next ≡ k + spec.place_labels (place_of place.now)) }
{
    match place {
        UpdatePlace::Local(number) => {
            lines.get_local(context.frame, *number)?;
            Ok(k)
        }
        UpdatePlace::Static(field) => static_value(field, k, lines),
        UpdatePlace::Field(target, field) => {
            let next = expression(target.get(), d, k, context, lines)?;
            field_value(field, d, next, context, lines)
        }
        UpdatePlace::Elem(array, index) => {
            let next = saved(array.get(), d, k, context, lines)?;
            let next = saved(index.get(), deeper(d)?, next, context, lines)?;
            element_value(d, next, lines)
        }
    }
}

/// The lines of an expression.
#[cycle(code)]
pub fn expression<'a>(
    e: &'a SymExpr,
    d: u16,
    k: u32,
    context: &Context<'a>,
    lines: &mut Lines<'a>,
) -> Result<u32, AllocError>
    ensures lines { OnOk result (lines_of lines.new ≡ lines_of lines.old ++ spec.expr_lines (context_of context.now) d k (expr_of e.now)) }
    ensures labels { IfOk result (λ next. next ≡ k + spec.expr_labels (expr_of e.now)) }
{
    match e {
        SymExpr::Int(number) => {
            lines.number(*number)?;
            Ok(k)
        }
        SymExpr::Bool(value) => {
            lines.truth(*value)?;
            Ok(k)
        }
        SymExpr::Null => {
            lines.small_number(0)?;
            Ok(k)
        }
        SymExpr::Local(number) => {
            lines.get_local(context.frame, *number)?;
            Ok(k)
        }
        SymExpr::SetLocal(number, value) => {
            let next = expression(value.get(), d, k, context, lines)?;
            lines.set_local(context.frame, *number)?;
            Ok(next)
        }
        SymExpr::GetStatic(field) => static_value(field, k, lines),
        SymExpr::SetStatic(field, value) => {
            let next = saved(value.get(), d, k, context, lines)?;
            store_static(field, d, next, lines)
        }
        SymExpr::GetField(target, field) => {
            let next = expression(target.get(), d, k, context, lines)?;
            field_value(field, d, next, context, lines)
        }
        SymExpr::SetField(target, field, value) => {
            let next = saved(target.get(), d, k, context, lines)?;
            let next = saved(value.get(), deeper(d)?, next, context, lines)?;
            store_field(field, d, next, lines)
        }
        SymExpr::GetElem(array, index) => {
            let next = saved(array.get(), d, k, context, lines)?;
            let next = expression(index.get(), deeper(d)?, next, context, lines)?;
            element_value(d, next, lines)
        }
        SymExpr::SetElem(array, index, value) => {
            let next = saved(array.get(), d, k, context, lines)?;
            let next = saved(index.get(), deeper(d)?, next, context, lines)?;
            let next = saved(value.get(), further(d, 2)?, next, context, lines)?;
            store_element(array.get(), d, next, &context.body, lines)
        }
        SymExpr::Length(array) => {
            let next = expression(array.get(), d, k, context, lines)?;
            array_length(next, lines)
        }
        SymExpr::Update {
            place,
            op,
            value,
            post,
        } => {
            let next = read_place(place, d, k, context, lines)?;
            let old = further(d, place_saves(place))?;
            lines.save(old)?;
            let next = expression(value.get(), deeper(old)?, next, context, lines)?;
            lines.operate(*op, old)?;
            write_place(place, d, context, lines)?;
            lines.old_value(*post, old)?;
            Ok(next)
        }
        SymExpr::Unary(op, operand) => {
            let next = expression(operand.get(), d, k, context, lines)?;
            lines.unary_words(*op)?;
            Ok(next)
        }
        SymExpr::Binary(op, first, second) => {
            let next = saved(first.get(), d, k, context, lines)?;
            let next = expression(second.get(), deeper(d)?, next, context, lines)?;
            lines.operate(*op, d)?;
            Ok(next)
        }
        SymExpr::And(first, second) => {
            let next = tested(first.get(), 1, d, k, context, lines)?;
            let next = expression(second.get(), d, next, context, lines)?;
            lines.place(k)?;
            Ok(next)
        }
        SymExpr::Or(first, second) => {
            let next = expression(first.get(), d, behind(k, 1)?, context, lines)?;
            lines.jump_unless_zero(k)?;
            let next = expression(second.get(), d, next, context, lines)?;
            lines.place(k)?;
            Ok(next)
        }
        SymExpr::Cond(test, first, second) => {
            let end = behind(k, 1)?;
            let next = tested(test.get(), 2, d, k, context, lines)?;
            let next = expression(first.get(), d, next, context, lines)?;
            lines.jump(end)?;
            lines.place(k)?;
            let next = expression(second.get(), d, next, context, lines)?;
            lines.place(end)?;
            Ok(next)
        }
        SymExpr::New(method, args) => instance(args.as_slice(), method, d, k, context, lines),
        SymExpr::NewArray(ty, length) => {
            let next = saved(length.get(), d, k, context, lines)?;
            new_array(ty, d, next, lines)
        }
        SymExpr::CallStatic(method, args) => {
            let next = arguments(args.as_slice(), d, k, context, lines)?;
            call_static(method, args.len(), d, next, lines)
        }
        SymExpr::CallVirtual(target, method, args) => {
            let next = saved(target.get(), d, k, context, lines)?;
            let next = arguments(args.as_slice(), deeper(d)?, next, context, lines)?;
            call_virtual(method, args.len(), d, next, lines)
        }
        SymExpr::CallInterface(target, method, args) => {
            let next = saved(target.get(), d, k, context, lines)?;
            let next = arguments(args.as_slice(), deeper(d)?, next, context, lines)?;
            call_interface(method, args.len(), d, next, lines)
        }
        SymExpr::CallSpecial(method, args) => {
            lines.get_local(context.frame, THIS)?;
            lines.save(d)?;
            let next = arguments(args.as_slice(), deeper(d)?, k, context, lines)?;
            call_special(method, args.len(), d, next, lines)
        }
        SymExpr::Cast(ty, operand) => {
            let next = expression(operand.get(), d, behind(k, 1)?, context, lines)?;
            cast_to(ty, d, k, next, lines)
        }
        SymExpr::Widen(_, operand) => expression(operand.get(), d, k, context, lines),
        SymExpr::InstanceOf(operand, ty) => {
            let next = expression(operand.get(), d, behind(k, 1)?, context, lines)?;
            test_for(ty, d, k, next, lines)
        }
        SymExpr::Then {
            first,
            null_test,
            second,
        } => {
            let next = expression(first.get(), d, k, context, lines)?;
            lines.tested(*null_test)?;
            expression(second.get(), d, next, context, lines)
        }
        SymExpr::Print(kind, args) => {
            let next = expressions(args.as_slice(), d, k, context, lines)?;
            lines.service(print_service(*kind))?;
            Ok(next)
        }
    }
}
