//! Fields whose values are taken (JLS 6.5.6.2, 15.11).

ghost use Rattle.std.specs.Prelude.{◌≡◌, None, Some};
ghost use Rattle.bcj_parser_trees.specs.Trees as source;
ghost use Rattle.bcj_symbolic_trees.specs.Types.{arg_of};
ghost use Rattle.bcj_typing_rules.specs.Context.{type_before_dot, superclass_at};
ghost use Rattle.bcj_typing_rules.specs.Expressions.{of_class, member_of};
ghost use Rattle.bcj_typing_scope.specs.Scopes.{answers_in, context_of};
ghost use Rattle.bcj_typing_expression.specs.Typed.{IsTyped, Types};

use crate::members::{Member, member_of};
use bcj_names::Name;
use bcj_typing_node::{Miss, Typing};
use bcj_typing_operator::array_length;
use bcj_typing_rules::Kind;
use bcj_typing_scope::Scope;
use std::alloc::Global;

/// A field behind the name of a type.
pub fn field_of_type(
    alloc: Global,
    scope: &Scope<'_>,
    at: u32,
    class: &Name,
    name: &Name,
) -> Result<Typing, Miss>
    ensures { (e : source.PlainExpr) → type_before_dot (context_of scope.now) e ≡ Some class.now → Types (answers_in scope.now) (context_of scope.now) (source.dot at e name.now) result }
{
    match scope.field(class, name) {
        None => Err(Miss::Untyped {
            at,
            kind: Kind::Name,
        }),
        Some(field) => {
            let is_open = scope.is_open(field);
            bcj_typing_variable::type_field(alloc, at, class, field, is_open)
        }
    }
}

/// A field behind a value of a class or interface.
fn field_of_class(
    alloc: Global,
    scope: &Scope<'_>,
    at: u32,
    target: Typing,
    class: &Name,
    name: &Name,
) -> Result<Typing, Miss>
    ensures { (e : source.PlainExpr) → type_before_dot (context_of scope.now) e ≡ None → IsTyped (answers_in scope.now) (context_of scope.now) e target → member_of (arg_of target.ty) name.now ≡ of_class class.now → Types (answers_in scope.now) (context_of scope.now) (source.dot at e name.now) result }
{
    match scope.field(class, name) {
        None => Err(Miss::Untyped {
            at,
            kind: Kind::Name,
        }),
        Some(field) => {
            let is_open = scope.is_open(field);
            bcj_typing_variable::behind_field(alloc, at, target, class, field, is_open)
        }
    }
}

/// A name behind a value.
pub fn field_of_value(
    alloc: Global,
    scope: &Scope<'_>,
    at: u32,
    target: Typing,
    name: &Name,
) -> Result<Typing, Miss>
    ensures { (e : source.PlainExpr) → type_before_dot (context_of scope.now) e ≡ None → IsTyped (answers_in scope.now) (context_of scope.now) e target → Types (answers_in scope.now) (context_of scope.now) (source.dot at e name.now) result }
{
    match member_of(alloc, &target.ty, name)? {
        Member::Length => array_length(alloc, target),
        Member::OfClass(class) => field_of_class(alloc, scope, at, target, &class, name),
        Member::Nothing => Err(Miss::Untyped {
            at,
            kind: Kind::Name,
        }),
    }
}

/// A field of the superclass.
fn field_of_superclass(
    alloc: Global,
    scope: &Scope<'_>,
    at: u32,
    class: &Name,
    name: &Name,
) -> Result<Typing, Miss>
    ensures { superclass_at (context_of scope.now) ≡ Some class.now → Types (answers_in scope.now) (context_of scope.now) (source.super_field at name.now) result }
{
    match scope.field(class, name) {
        None => Err(Miss::Untyped {
            at,
            kind: Kind::Name,
        }),
        Some(field) => {
            let is_open = scope.is_open(field);
            bcj_typing_variable::super_field(
                alloc,
                at,
                scope.class(),
                class,
                field,
                scope.has_this(),
                is_open,
            )
        }
    }
}

/// A field behind `super`, which an interface hasn't.
pub fn super_field(alloc: Global, scope: &Scope<'_>, at: u32, name: &Name) -> Result<Typing, Miss>
    ensures { Types (answers_in scope.now) (context_of scope.now) (source.super_field at name.now) result }
{
    match scope.superclass() {
        None => Err(Miss::Untyped {
            at,
            kind: Kind::Name,
        }),
        Some(class) => field_of_superclass(alloc, scope, at, class, name),
    }
}
