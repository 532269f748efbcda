//! A walk over an expression.
#![tactic(auto, using(crate::proofs::Rulesets::walk_rules))]

ghost use Rattle.std.specs.Prelude.{◌≡◌, ◌&&◌};
ghost use Rattle.bcj_symbolic_trees.specs.Types.{types_of};
ghost use Rattle.bcj_symbolic_trees.specs.Plain.{expr_of, exprs_of, place_of, option_of};
ghost use Rattle.bcj_symbolic_check.specs.Judgements as spec;
ghost use Rattle.bcj_symbolic_check.specs.Statements.{expr_marks, exprs_marks, place_marks, option_marks, returns};
ghost use Rattle.bcj_symbolic_check.specs.function.Arguments as function;
ghost use Rattle.bcj_symbolic_check.specs.function.Views.{known_of, frame_of};
ghost use Rattle.bcj_symbolic_check.specs.function.Walks.{noted, settled};

use crate::kind::{Kind, bool_part, int_part};
use crate::rules::{
    Judged, binary_rule, call_rule, cast_rule, choice_rule, element_rule, element_store_rule,
    field_rule, field_store_rule, instance_rule, int_rule, judgement, length_rule, local_rule,
    local_store_rule, logic_rule, new_array_rule, new_rule, no_types, print_rule, special_rule,
    static_call_rule, static_rule, static_store_rule, then_rule, unary_rule, update_rule,
    widen_rule,
};
use crate::surroundings::Body;
use crate::walk::Walk;
use bcj_symbolic_trees::{PrintKind, SymExpr, Ty, UpdatePlace};

/// Whether a part steps to the first of these types, and the types behind that.
#[tactic(auto, using(crate::proofs::Rulesets::walk_rules), unfolding(crate::specs::function::Arguments::steps_to_first, crate::specs::function::Arguments::behind_first))]
fn first_argument<'a>(body: &Body<'a>, params: &'a [Ty], part: Option<Kind<'a>>) -> (bool, &'a [Ty])
    ensures fits { result.0 ≡ function.steps_to_first (frame_of body.now).pairs (types_of params.entry.now) (known_of part.entry) }
    ensures rest { types_of result.1.now ≡ function.behind_first (types_of params.entry.now) }
{
    match params {
        [] => (false, params),
        [first, rest @ ..] => (body.steps(part, Some(Kind::of(first))), rest),
    }
}

/// Says whether the node before which `before` stood has a rule, and gives its type where it has one.
fn close<'a>(walk: &mut Walk, before: Walk, judged: Judged<'a>) -> Option<Kind<'a>>
    ensures marks { walk.new ≡ settled before judged.entry.holds walk.old }
    ensures gives { known_of result ≡ known_of judged.entry.gives }
{
    walk.settle(before, judged.holds);
    judged.gives
}

fn both(first: bool, second: bool) -> bool
    ensures { result ≡ (first && second) }
{
    first && second
}

/// Walks over arguments, and says whether they fit the parameters.
#[cycle(expression)]
fn arguments<'a>(args: &'a [SymExpr], body: &Body<'a>, params: &'a [Ty], walk: &mut Walk) -> bool
    ensures marks { walk.new ≡ noted walk.old (exprs_marks (frame_of body.now) (exprs_of args.entry.now)) }
    ensures fit { result ≡ spec.arguments_step (frame_of body.now).pairs (spec.sorts (frame_of body.now) (exprs_of args.entry.now)) (types_of params.entry.now) }
{
    let mut rest = params;
    let mut fit = true;
    for argument in args {
        let kind = expression(argument, body, walk);
        let (fits, others) = first_argument(body, rest, kind);
        fit = both(fit, fits);
        rest = others;
    }
    both(fit, no_types(rest))
}

/// Walks over the arguments of a `Print`, and says whether it takes them.
#[cycle(expression)]
#[tactic(auto, using(crate::proofs::Rulesets::walk_rules, crate::proofs::Rulesets::length_rules))]
fn printed<'a>(args: &'a [SymExpr], kind: PrintKind, body: &Body<'a>, walk: &mut Walk) -> bool
    ensures marks { walk.new ≡ noted walk.old (exprs_marks (frame_of body.now) (exprs_of args.entry.now)) }
    ensures taken { result ≡ spec.print_takes kind (spec.sorts (frame_of body.now) (exprs_of args.entry.now)) }
{
    match args {
        [] => match kind {
            PrintKind::Line => true,
            PrintKind::Int | PrintKind::Bool | PrintKind::Byte => false,
        },
        [only] => {
            let part = expression(only, body, walk);
            match kind {
                PrintKind::Int | PrintKind::Byte => int_part(part),
                PrintKind::Bool => bool_part(part),
                PrintKind::Line => false,
            }
        }
        [_, _, ..] => {
            arguments(args, body, &[], walk);
            false
        }
    }
}

/// Walks over the parts of an update's place, and judges the place.
#[cycle(expression)]
fn place<'a>(updated: &'a UpdatePlace, body: &Body<'a>, walk: &mut Walk) -> Judged<'a>
    ensures marks { walk.new ≡ noted walk.old (place_marks (frame_of body.now) (place_of updated.entry.now)) }
    ensures holds { result.holds ≡ (spec.judge_place (frame_of body.now) (place_of updated.entry.now)).holds }
    ensures gives { known_of result.gives ≡ (spec.judge_place (frame_of body.now) (place_of updated.entry.now)).gives }
{
    match updated {
        UpdatePlace::Local(number) => local_rule(body.local(*number)),
        UpdatePlace::Static(field) => static_rule(field),
        UpdatePlace::Field(target, field) => {
            let target = expression(target.get(), body, walk);
            field_rule(body, field, target)
        }
        UpdatePlace::Elem(array, index) => {
            let array = expression(array.get(), body, walk);
            let index = expression(index.get(), body, walk);
            element_rule(array, index)
        }
    }
}

/// Walks over an expression, and gives its type where it has one.
#[cycle(expression)]
pub fn expression<'a>(e: &'a SymExpr, body: &Body<'a>, walk: &mut Walk) -> Option<Kind<'a>>
    ensures marks { walk.new ≡ noted walk.old (expr_marks (frame_of body.now) (expr_of e.entry.now)) }
    ensures gives { known_of result ≡ (spec.judge (frame_of body.now) (expr_of e.entry.now)).gives }
{
    let before = walk.enter();
    match e {
        SymExpr::Int(number) => close(walk, before, int_rule(*number)),
        SymExpr::Bool(_) => close(walk, before, judgement(true, Some(Kind::Bool))),
        SymExpr::Null => close(walk, before, judgement(true, Some(Kind::Null))),
        SymExpr::Local(number) => close(walk, before, local_rule(body.local(*number))),
        SymExpr::SetLocal(number, value) => {
            let value = expression(value.get(), body, walk);
            close(
                walk,
                before,
                local_store_rule(body, body.is_this(*number), body.local(*number), value),
            )
        }
        SymExpr::GetStatic(field) => close(walk, before, static_rule(field)),
        SymExpr::SetStatic(field, value) => {
            let value = expression(value.get(), body, walk);
            close(walk, before, static_store_rule(body, field, value))
        }
        SymExpr::GetField(target, field) => {
            let target = expression(target.get(), body, walk);
            close(walk, before, field_rule(body, field, target))
        }
        SymExpr::SetField(target, field, value) => {
            let target = expression(target.get(), body, walk);
            let value = expression(value.get(), body, walk);
            close(walk, before, field_store_rule(body, field, target, value))
        }
        SymExpr::GetElem(array, index) => {
            let array = expression(array.get(), body, walk);
            let index = expression(index.get(), body, walk);
            close(walk, before, element_rule(array, index))
        }
        SymExpr::SetElem(array, index, value) => {
            let array = expression(array.get(), body, walk);
            let index = expression(index.get(), body, walk);
            let value = expression(value.get(), body, walk);
            close(walk, before, element_store_rule(body, array, index, value))
        }
        SymExpr::Length(array) => {
            let array = expression(array.get(), body, walk);
            close(walk, before, length_rule(array))
        }
        SymExpr::Update {
            place: updated,
            op,
            value,
            post: _,
        } => {
            let updated = place(updated, body, walk);
            let value = expression(value.get(), body, walk);
            close(
                walk,
                before,
                update_rule(*op, updated.holds, updated.gives, value),
            )
        }
        SymExpr::Unary(op, operand) => {
            let operand = expression(operand.get(), body, walk);
            close(walk, before, unary_rule(*op, operand))
        }
        SymExpr::Binary(op, first, second) => {
            let first = expression(first.get(), body, walk);
            let second = expression(second.get(), body, walk);
            close(walk, before, binary_rule(*op, first, second))
        }
        SymExpr::And(first, second) => {
            let first = expression(first.get(), body, walk);
            let second = expression(second.get(), body, walk);
            close(walk, before, logic_rule(first, second))
        }
        SymExpr::Or(first, second) => {
            let first = expression(first.get(), body, walk);
            let second = expression(second.get(), body, walk);
            close(walk, before, logic_rule(first, second))
        }
        SymExpr::Cond(test, first, second) => {
            let test = expression(test.get(), body, walk);
            let first = expression(first.get(), body, walk);
            let second = expression(second.get(), body, walk);
            close(walk, before, choice_rule(body, test, first, second))
        }
        SymExpr::New(method, args) => {
            let fits = arguments(args.as_slice(), body, method.params.as_slice(), walk);
            close(walk, before, new_rule(method, fits))
        }
        SymExpr::NewArray(ty, length) => {
            let length = expression(length.get(), body, walk);
            close(walk, before, new_array_rule(ty, length))
        }
        SymExpr::CallStatic(method, args) => {
            let fits = arguments(args.as_slice(), body, method.params.as_slice(), walk);
            close(walk, before, static_call_rule(method, fits))
        }
        SymExpr::CallVirtual(target, method, args) => {
            let target = expression(target.get(), body, walk);
            let fits = arguments(args.as_slice(), body, method.params.as_slice(), walk);
            close(walk, before, call_rule(body, method, target, fits))
        }
        SymExpr::CallInterface(target, method, args) => {
            let target = expression(target.get(), body, walk);
            let fits = arguments(args.as_slice(), body, method.params.as_slice(), walk);
            close(walk, before, call_rule(body, method, target, fits))
        }
        SymExpr::CallSpecial(method, args) => {
            let fits = arguments(args.as_slice(), body, method.params.as_slice(), walk);
            close(walk, before, special_rule(body, method, fits))
        }
        SymExpr::Cast(ty, operand) => {
            let operand = expression(operand.get(), body, walk);
            close(walk, before, cast_rule(ty, operand))
        }
        SymExpr::Widen(ty, operand) => {
            let operand = expression(operand.get(), body, walk);
            close(walk, before, widen_rule(body, ty, operand))
        }
        SymExpr::InstanceOf(operand, ty) => {
            let operand = expression(operand.get(), body, walk);
            close(walk, before, instance_rule(ty, operand))
        }
        SymExpr::Then {
            first,
            null_test,
            second,
        } => {
            let first = expression(first.get(), body, walk);
            let second = expression(second.get(), body, walk);
            close(walk, before, then_rule(*null_test, first, second))
        }
        SymExpr::Print(kind, args) => {
            let taken = printed(args.as_slice(), *kind, body, walk);
            close(walk, before, print_rule(body, taken))
        }
    }
}

/// The type of an expression, where it has one. It takes no memory.
pub fn type_of<'a>(e: &'a SymExpr, body: &Body<'a>) -> Option<Kind<'a>>
    ensures { known_of result ≡ spec.sort (frame_of body.now) (expr_of e.now) }
{
    expression(e, body, &mut Walk::start())
}
