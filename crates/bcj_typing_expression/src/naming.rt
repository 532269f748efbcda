//! Simple names (JLS 6.5.6.1).

ghost use Rattle.bcj_parser_trees.specs.Trees as source;
ghost use Rattle.bcj_typing_scope.specs.Scopes.{answers_in, context_of};
ghost use Rattle.bcj_typing_expression.specs.Typed.{Types, TypesPlace};

use bcj_names::Name;
use bcj_typing_node::{Meaning, Miss, Placing, Typing, Way};
use bcj_typing_rules::Kind;
use bcj_typing_scope::Scope;
use bcj_typing_variable::{local, local_place, own_field, own_place};
use std::alloc::Global;

/// A simple name whose value is taken.
pub fn simple_name(alloc: Global, scope: &Scope<'_>, at: u32, name: &Name) -> Result<Typing, Miss>
    ensures { Types (answers_in scope.now) (context_of scope.now) (source.simple_name at name.now) result }
{
    match scope.meaning(name) {
        Meaning::Local(variable) => local(alloc, variable),
        Meaning::Field(field) => own_field(alloc, at, scope.class(), scope.has_this(), field),
        Meaning::Nothing => Err(Miss::Untyped {
            at,
            kind: Kind::Name,
        }),
    }
}

/// A simple name that is assigned.
pub fn simple_place(alloc: Global, scope: &Scope<'_>, at: u32, name: &Name) -> Result<Placing, Miss>
    ensures { TypesPlace (answers_in scope.now) (context_of scope.now) (source.simple_name at name.now) result }
{
    match scope.meaning(name) {
        Meaning::Local(variable) => local_place(alloc, variable),
        Meaning::Field(field) => {
            let is_assignable = scope.is_assignable(Way::Name, field);
            own_place(
                alloc,
                at,
                scope.class(),
                scope.has_this(),
                field,
                is_assignable,
            )
        }
        Meaning::Nothing => Err(Miss::Untyped {
            at,
            kind: Kind::Name,
        }),
    }
}
