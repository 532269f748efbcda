//! Fields that are assigned (JLS 15.26).

ghost use Rattle.std.specs.Prelude.{◌≡◌, None, Some, if◌then◌else◌};
ghost use Rattle.bcj_parser_trees.specs.Trees as source;
ghost use Rattle.bcj_parser_trees.specs.Plain.{expr_of};
ghost use Rattle.bcj_symbolic_trees.specs.Types.{arg_of};
ghost use Rattle.bcj_typing_rules.specs.Context as context;
ghost use Rattle.bcj_typing_rules.specs.Context.{type_before_dot, superclass_at};
ghost use Rattle.bcj_typing_rules.specs.Expressions.{of_class, member_of};
ghost use Rattle.bcj_typing_node.specs.Forms.{way_of};
ghost use Rattle.bcj_typing_scope.specs.Scopes.{answers_in, context_of};
ghost use Rattle.bcj_typing_expression.specs.Typed.{IsTyped, TypesPlace};

use crate::members::{Member, member_of};
use bcj_names::Name;
use bcj_parser_trees::Expr;
use bcj_typing_node::{Miss, Placing, Typing, Way};
use bcj_typing_rules::Kind;
use bcj_typing_scope::Scope;
use bcj_typing_variable::length_place;
use std::alloc::Global;

/// How a field behind an expression is named.
#[tactic(auto, using(bcj_parser_trees::proofs::PlainLemmas::tree_rules))]
pub fn way_behind(target: &Expr) -> Way
    ensures { way_of result ≡ context.way_behind (expr_of target.now) }
{
    match target {
        Expr::This { .. } => Way::This,
        Expr::Int { .. }
        | Expr::Bool { .. }
        | Expr::Null { .. }
        | Expr::Name { .. }
        | Expr::Paren { .. }
        | Expr::Dot { .. }
        | Expr::SuperField { .. }
        | Expr::Call { .. }
        | Expr::DotCall { .. }
        | Expr::SuperCall { .. }
        | Expr::New { .. }
        | Expr::NewArray { .. }
        | Expr::Elem { .. }
        | Expr::Unary { .. }
        | Expr::Step { .. }
        | Expr::Cast { .. }
        | Expr::Binary { .. }
        | Expr::InstanceOf { .. }
        | Expr::Cond { .. }
        | Expr::Assign { .. } => Way::Other,
    }
}

/// A static field is none of the object's.
fn way_of_field(way: Way, is_static: bool) -> Way
    ensures { way_of result ≡ (if is_static then context.otherwise else way_of way) }
{
    if is_static { Way::Other } else { way }
}

/// A field behind the name of a type.
pub fn place_of_type(
    alloc: Global,
    scope: &Scope<'_>,
    at: u32,
    class: &Name,
    name: &Name,
) -> Result<Placing, Miss>
    ensures { (e : source.PlainExpr) → type_before_dot (context_of scope.now) e ≡ Some class.now → TypesPlace (answers_in scope.now) (context_of scope.now) (source.dot at e name.now) result }
{
    match scope.field(class, name) {
        None => Err(Miss::Untyped {
            at,
            kind: Kind::Name,
        }),
        Some(field) => {
            let is_assignable = scope.is_assignable(Way::Other, field);
            let is_open = scope.is_open(field);
            bcj_typing_variable::type_place(alloc, at, class, field, is_assignable, is_open)
        }
    }
}

/// A field behind a value of a class or interface.
fn place_of_class(
    alloc: Global,
    scope: &Scope<'_>,
    at: u32,
    way: Way,
    target: Typing,
    class: &Name,
    name: &Name,
) -> Result<Placing, Miss>
    ensures { (e : source.PlainExpr) → type_before_dot (context_of scope.now) e ≡ None → way_of way ≡ context.way_behind e → IsTyped (answers_in scope.now) (context_of scope.now) e target → member_of (arg_of target.ty) name.now ≡ of_class class.now → TypesPlace (answers_in scope.now) (context_of scope.now) (source.dot at e name.now) result }
{
    match scope.field(class, name) {
        None => Err(Miss::Untyped {
            at,
            kind: Kind::Name,
        }),
        Some(field) => {
            let way = way_of_field(way, field.is_static);
            let is_assignable = scope.is_assignable(way, field);
            let is_open = scope.is_open(field);
            bcj_typing_variable::behind_place(
                alloc,
                at,
                target,
                class,
                field,
                is_assignable,
                is_open,
            )
        }
    }
}

/// A name behind a value.
pub fn place_of_value(
    alloc: Global,
    scope: &Scope<'_>,
    at: u32,
    way: Way,
    target: Typing,
    name: &Name,
) -> Result<Placing, Miss>
    ensures { (e : source.PlainExpr) → type_before_dot (context_of scope.now) e ≡ None → way_of way ≡ context.way_behind e → IsTyped (answers_in scope.now) (context_of scope.now) e target → TypesPlace (answers_in scope.now) (context_of scope.now) (source.dot at e name.now) result }
{
    match member_of(alloc, &target.ty, name)? {
        Member::Length => Ok(length_place(alloc)),
        Member::OfClass(class) => place_of_class(alloc, scope, at, way, target, &class, name),
        Member::Nothing => Err(Miss::Untyped {
            at,
            kind: Kind::Name,
        }),
    }
}

/// A field of the superclass.
fn place_of_superclass(
    alloc: Global,
    scope: &Scope<'_>,
    at: u32,
    class: &Name,
    name: &Name,
) -> Result<Placing, Miss>
    ensures { superclass_at (context_of scope.now) ≡ Some class.now → TypesPlace (answers_in scope.now) (context_of scope.now) (source.super_field at name.now) result }
{
    match scope.field(class, name) {
        None => Err(Miss::Untyped {
            at,
            kind: Kind::Name,
        }),
        Some(field) => {
            let is_assignable = scope.is_assignable(Way::Other, field);
            let is_open = scope.is_open(field);
            bcj_typing_variable::super_place(
                alloc,
                at,
                scope.class(),
                class,
                field,
                scope.has_this(),
                is_assignable,
                is_open,
            )
        }
    }
}

/// A field behind `super`, which an interface hasn't.
pub fn super_place(alloc: Global, scope: &Scope<'_>, at: u32, name: &Name) -> Result<Placing, Miss>
    ensures { TypesPlace (answers_in scope.now) (context_of scope.now) (source.super_field at name.now) result }
{
    match scope.superclass() {
        None => Err(Miss::Untyped {
            at,
            kind: Kind::Name,
        }),
        Some(class) => place_of_superclass(alloc, scope, at, class, name),
    }
}
