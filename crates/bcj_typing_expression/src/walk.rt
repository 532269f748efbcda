//! The walk over expressions: the parts in text order, and then the node (JLS 15).
#![tactic(auto, using(bcj_parser_trees::proofs::PlainLemmas::tree_rules))]

ghost use Rattle.std.specs.Prelude.{◌≡◌, IfOk};
ghost use Rattle.bcj_parser_trees.specs.Trees as source;
ghost use Rattle.bcj_parser_trees.specs.Plain.{expr_of, exprs_of};
ghost use Rattle.bcj_typing_rules.specs.function.Expressions.{value_here, type_expr, type_exprs};
ghost use Rattle.bcj_typing_node.specs.Outcomes.{Tells};
ghost use Rattle.bcj_typing_node.specs.Typings.{typing_of, typings_of};
ghost use Rattle.bcj_typing_scope.specs.Scopes.{answers_in, context_of};
ghost use Rattle.bcj_typing_expression.specs.Typed.{Types, TypesPlace};

use crate::arrays::array_made;
use crate::assigning::assigned;
use crate::calling::{
    called_by_name, called_of_super, called_of_type, called_of_value, object_made,
};
use crate::naming::{simple_name, simple_place};
use crate::operating::{cast_to, decided, operated, spells_least, tested};
use crate::placing::{place_of_type, place_of_value, super_place, way_behind};
use crate::reading::{field_of_type, field_of_value, super_field};
use bcj_names::Name;
use bcj_parser_trees::{Expr, UnaryOp};
use bcj_symbolic_trees::Sequence;
use bcj_typing_node::{Miss, Placing, Typing, Typings};
use bcj_typing_operator::{
    bool_literal, element, int_literal, least, null_literal, this_value, unary,
};
use bcj_typing_rules::Kind;
use bcj_typing_scope::Scope;
use bcj_typing_variable::{element_place, step};
use std::alloc::Global;

/// Types arguments, in their order (JLS 15.12.4.2).
#[cycle(expression)]
pub fn arguments(alloc: Global, scope: &Scope<'_>, args: &[Expr]) -> Result<Typings, Miss>
    ensures { Tells typings_of (type_exprs (answers_in scope.now) (context_of scope.now) (exprs_of args.now)) result }
{
    let mut typed = Sequence::new(alloc);
    for argument in args {
        let one = expression(alloc, scope, argument)?;
        typed.push(one)?;
    }
    Ok(typed)
}

/// Types a sign or another operator before an operand (JLS 15.15); the least int is one literal with its sign.
#[cycle(expression)]
fn signed(
    alloc: Global,
    scope: &Scope<'_>,
    at: u32,
    op: UnaryOp,
    part: &Expr,
) -> Result<Typing, Miss>
    ensures { Types (answers_in scope.now) (context_of scope.now) (source.unary at op (expr_of part.now)) result }
{
    if spells_least(op, part) {
        return least(alloc);
    }
    let part = expression(alloc, scope, part)?;
    unary(alloc, at, op, part)
}

/// Types a name behind the name of a type or a value (JLS 6.5.6.2, 15.11).
#[cycle(expression)]
fn dot(
    alloc: Global,
    scope: &Scope<'_>,
    at: u32,
    target: &Expr,
    name: &Name,
) -> Result<Typing, Miss>
    ensures { Types (answers_in scope.now) (context_of scope.now) (source.dot at (expr_of target.now) name.now) result }
{
    match scope.type_before_dot(target) {
        Some(class) => field_of_type(alloc, scope, at, class, name),
        None => {
            let value = expression(alloc, scope, target)?;
            field_of_value(alloc, scope, at, value, name)
        }
    }
}

/// Types a name behind the name of a type or a value, where it is assigned (JLS 15.26).
#[cycle(expression)]
fn dot_place(
    alloc: Global,
    scope: &Scope<'_>,
    at: u32,
    target: &Expr,
    name: &Name,
) -> Result<Placing, Miss>
    ensures { TypesPlace (answers_in scope.now) (context_of scope.now) (source.dot at (expr_of target.now) name.now) result }
{
    match scope.type_before_dot(target) {
        Some(class) => place_of_type(alloc, scope, at, class, name),
        None => {
            let value = expression(alloc, scope, target)?;
            place_of_value(alloc, scope, at, way_behind(target), value, name)
        }
    }
}

/// Types a variable that is assigned (JLS 15.26); the grammar has no other expression there.
#[cycle(expression)]
fn place(alloc: Global, scope: &Scope<'_>, e: &Expr) -> Result<Placing, Miss>
    ensures { TypesPlace (answers_in scope.now) (context_of scope.now) (expr_of e.now) result }
{
    match e {
        Expr::Name { at, name } => simple_place(alloc, scope, *at, name),
        Expr::Dot { at, target, name } => dot_place(alloc, scope, *at, target.get(), name),
        Expr::SuperField { at, name } => super_place(alloc, scope, *at, name),
        Expr::Elem { at, array, index } => {
            let array = expression(alloc, scope, array.get())?;
            let index = expression(alloc, scope, index.get())?;
            element_place(alloc, *at, array, index)
        }
        Expr::Int { at, .. }
        | Expr::Bool { at, .. }
        | Expr::Null { at, .. }
        | Expr::This { at, .. }
        | Expr::Paren { at, .. }
        | Expr::Call { at, .. }
        | Expr::DotCall { at, .. }
        | Expr::SuperCall { at, .. }
        | Expr::New { at, .. }
        | Expr::NewArray { at, .. }
        | Expr::Unary { at, .. }
        | Expr::Step { at, .. }
        | Expr::Cast { at, .. }
        | Expr::Binary { at, .. }
        | Expr::InstanceOf { at, .. }
        | Expr::Cond { at, .. }
        | Expr::Assign { at, .. } => Err(Miss::Untyped {
            at: *at,
            kind: Kind::Name,
        }),
    }
}

/// Types an expression in a scope, with its value where it is a constant expression (JLS 15). Refused at the first node that has no
/// rule, the earliest kind of what it lacks first, and for want of memory.
#[cycle(expression)]
pub fn expression(alloc: Global, scope: &Scope<'_>, e: &Expr) -> Result<Typing, Miss>
    ensures typing { Tells typing_of (type_expr (answers_in scope.now) (context_of scope.now) (expr_of e.now)) result }
    ensures worth { IfOk result (λ t. t.value ≡ value_here (answers_in scope.now) (context_of scope.now) (expr_of e.now)) }
{
    match e {
        Expr::Int { at, value, decimal } => int_literal(alloc, *at, *value, *decimal),
        Expr::Bool { at: _, value } => bool_literal(alloc, *value),
        Expr::Null { at: _ } => null_literal(alloc),
        Expr::This { at } => this_value(alloc, *at, scope.class(), scope.has_this()),
        Expr::Name { at, name } => simple_name(alloc, scope, *at, name),
        Expr::Paren { at: _, part } => expression(alloc, scope, part.get()),
        Expr::Dot { at, target, name } => dot(alloc, scope, *at, target.get(), name),
        Expr::SuperField { at, name } => super_field(alloc, scope, *at, name),
        Expr::Call { at, name, args } => {
            let typed = arguments(alloc, scope, args.as_slice())?;
            called_by_name(alloc, scope, *at, name, typed)
        }
        Expr::DotCall {
            at,
            target,
            name,
            args,
        } => {
            let target = target.get();
            let args = args.as_slice();
            match scope.type_before_dot(target) {
                Some(class) => {
                    let typed = arguments(alloc, scope, args)?;
                    called_of_type(alloc, scope, *at, class, name, typed)
                }
                None => {
                    let value = expression(alloc, scope, target)?;
                    let typed = arguments(alloc, scope, args)?;
                    called_of_value(alloc, scope, *at, value, name, typed)
                }
            }
        }
        Expr::SuperCall { at, name, args } => {
            let typed = arguments(alloc, scope, args.as_slice())?;
            called_of_super(alloc, scope, *at, name, typed)
        }
        Expr::New { at, name, args } => {
            let typed = arguments(alloc, scope, args.as_slice())?;
            object_made(alloc, scope, *at, name, typed)
        }
        Expr::NewArray {
            at,
            base,
            length,
            dims,
        } => {
            let length = expression(alloc, scope, length.get())?;
            array_made(alloc, scope, *at, base, length, *dims)
        }
        Expr::Elem { at, array, index } => {
            let array = expression(alloc, scope, array.get())?;
            let index = expression(alloc, scope, index.get())?;
            element(alloc, *at, array, index)
        }
        Expr::Unary { at, op, part } => signed(alloc, scope, *at, *op, part.get()),
        Expr::Step {
            at,
            plus,
            post,
            place: assigned,
        } => {
            let placed = place(alloc, scope, assigned.get())?;
            step(alloc, *at, *plus, *post, placed)
        }
        Expr::Cast { at, ty, part } => {
            let part = expression(alloc, scope, part.get())?;
            cast_to(alloc, scope, *at, ty, part)
        }
        Expr::Binary {
            at,
            op,
            left,
            right,
        } => {
            let left = expression(alloc, scope, left.get())?;
            let right = expression(alloc, scope, right.get())?;
            operated(alloc, scope, *at, *op, left, right)
        }
        Expr::InstanceOf { at, part, ty } => {
            let part = expression(alloc, scope, part.get())?;
            tested(alloc, scope, *at, part, ty)
        }
        Expr::Cond {
            at,
            test,
            first,
            second,
        } => {
            let test = expression(alloc, scope, test.get())?;
            let first = expression(alloc, scope, first.get())?;
            let second = expression(alloc, scope, second.get())?;
            decided(alloc, scope, *at, test, first, second)
        }
        Expr::Assign {
            at,
            op,
            place: target,
            value,
        } => {
            let placed = place(alloc, scope, target.get())?;
            let value = expression(alloc, scope, value.get())?;
            assigned(alloc, scope, *at, *op, placed, value)
        }
    }
}
