//! Calls (JLS 15.9, 15.12).

ghost use Rattle.std.specs.Prelude.{◌≡◌, None, Some};
ghost use Rattle.bcj_parser_trees.specs.Trees as source;
ghost use Rattle.bcj_symbolic_trees.specs.Types.{arg_of};
ghost use Rattle.bcj_typing_rules.specs.Context.{type_before_dot, superclass_at};
ghost use Rattle.bcj_typing_rules.specs.Expressions as spec;
ghost use Rattle.bcj_typing_scope.specs.Scopes.{answers_in, context_of};
ghost use Rattle.bcj_typing_expression.specs.Typed.{IsTyped, AreTyped, Types};

use crate::members::class_of_value;
use bcj_names::Name;
use bcj_typing_node::{Miss, Typing, Typings};
use bcj_typing_rules::Kind;
use bcj_typing_scope::Scope;
use std::alloc::Global;

/// A call by a simple name.
pub fn called_by_name(
    alloc: Global,
    scope: &Scope<'_>,
    at: u32,
    name: &Name,
    args: Typings,
) -> Result<Typing, Miss>
    ensures { (es : source.PlainExprs) → AreTyped (answers_in scope.now) (context_of scope.now) es args → Types (answers_in scope.now) (context_of scope.now) (source.call at name.now es) result }
{
    let chosen = scope.choose(alloc, scope.class(), name, args.as_slice())?;
    bcj_typing_call::own_call(alloc, at, scope.class(), scope.has_this(), chosen, args)
}

/// A call behind the name of a type.
pub fn called_of_type(
    alloc: Global,
    scope: &Scope<'_>,
    at: u32,
    class: &Name,
    name: &Name,
    args: Typings,
) -> Result<Typing, Miss>
    ensures { (e : source.PlainExpr) (es : source.PlainExprs) → type_before_dot (context_of scope.now) e ≡ Some class.now → AreTyped (answers_in scope.now) (context_of scope.now) es args → Types (answers_in scope.now) (context_of scope.now) (source.dot_call at e name.now es) result }
{
    let chosen = scope.choose(alloc, class, name, args.as_slice())?;
    bcj_typing_call::type_call(alloc, at, class, chosen, args)
}

/// A call behind a value of a class or interface.
fn called_of_class(
    alloc: Global,
    scope: &Scope<'_>,
    at: u32,
    target: Typing,
    class: &Name,
    name: &Name,
    args: Typings,
) -> Result<Typing, Miss>
    ensures { (e : source.PlainExpr) (es : source.PlainExprs) → type_before_dot (context_of scope.now) e ≡ None → IsTyped (answers_in scope.now) (context_of scope.now) e target → AreTyped (answers_in scope.now) (context_of scope.now) es args → spec.class_of_value (arg_of target.ty) ≡ Some class.now → Types (answers_in scope.now) (context_of scope.now) (source.dot_call at e name.now es) result }
{
    let chosen = scope.choose(alloc, class, name, args.as_slice())?;
    let on_interface = scope.is_interface(class);
    bcj_typing_call::behind_call(alloc, at, class, on_interface, target, chosen, args)
}

/// A call behind a value.
pub fn called_of_value(
    alloc: Global,
    scope: &Scope<'_>,
    at: u32,
    target: Typing,
    name: &Name,
    args: Typings,
) -> Result<Typing, Miss>
    ensures { (e : source.PlainExpr) (es : source.PlainExprs) → type_before_dot (context_of scope.now) e ≡ None → IsTyped (answers_in scope.now) (context_of scope.now) e target → AreTyped (answers_in scope.now) (context_of scope.now) es args → Types (answers_in scope.now) (context_of scope.now) (source.dot_call at e name.now es) result }
{
    match class_of_value(alloc, &target.ty)? {
        None => Err(Miss::Untyped {
            at,
            kind: Kind::Method,
        }),
        Some(class) => called_of_class(alloc, scope, at, target, &class, name, args),
    }
}

/// A call of a method of the superclass.
fn called_of_superclass(
    alloc: Global,
    scope: &Scope<'_>,
    at: u32,
    class: &Name,
    name: &Name,
    args: Typings,
) -> Result<Typing, Miss>
    ensures { (es : source.PlainExprs) → superclass_at (context_of scope.now) ≡ Some class.now → AreTyped (answers_in scope.now) (context_of scope.now) es args → Types (answers_in scope.now) (context_of scope.now) (source.super_call at name.now es) result }
{
    let chosen = scope.choose(alloc, class, name, args.as_slice())?;
    bcj_typing_call::super_call(
        alloc,
        at,
        scope.class(),
        class,
        scope.has_this(),
        chosen,
        args,
    )
}

/// A call behind `super`, which an interface hasn't.
pub fn called_of_super(
    alloc: Global,
    scope: &Scope<'_>,
    at: u32,
    name: &Name,
    args: Typings,
) -> Result<Typing, Miss>
    ensures { (es : source.PlainExprs) → AreTyped (answers_in scope.now) (context_of scope.now) es args → Types (answers_in scope.now) (context_of scope.now) (source.super_call at name.now es) result }
{
    match scope.superclass() {
        None => Err(Miss::Untyped {
            at,
            kind: Kind::Method,
        }),
        Some(class) => called_of_superclass(alloc, scope, at, class, name, args),
    }
}

/// A new object.
pub fn object_made(
    alloc: Global,
    scope: &Scope<'_>,
    at: u32,
    class: &Name,
    args: Typings,
) -> Result<Typing, Miss>
    ensures { (es : source.PlainExprs) → AreTyped (answers_in scope.now) (context_of scope.now) es args → Types (answers_in scope.now) (context_of scope.now) (source.new_object at class.now es) result }
{
    let chosen = scope.constructor(alloc, class, args.as_slice())?;
    let is_there = scope.has_type(class);
    let is_abstract = scope.is_abstract_type(class);
    bcj_typing_call::new_object(alloc, at, class, is_there, is_abstract, chosen, args)
}
