ghost use Rattle.std.specs.Prelude.{◌≡◌};
ghost use Rattle.std.specs.Option.{option_copied};
ghost use Rattle.bcj_decl_rules.specs.World.{has_type};
ghost use Rattle.bcj_typing_rules.specs.Context as spec;
ghost use Rattle.bcj_typing_rules.specs.Expressions.{array_name};
ghost use Rattle.bcj_typing_scope.specs.Scopes.{context_of};

use crate::world::World;
use bcj_names::Name;
use bcj_parser_trees::Base;
use bcj_symbolic_trees::{Ty, Types};
use bcj_typing_node::{Finals, Variables};

/// What a body knows where it is typed (JLS 6.3 to 6.5): its class, whether it has `this`, the type of its result, where it has one,
/// whether it stands in a loop, the blank final fields that it may assign, the locals in scope, and the types of all its locals so far
/// in text order.
#[derive(Drop)]
pub struct Scope<'a> {
    pub world: &'a World<'a>,
    pub is_static: bool,
    pub result: Option<Ty>,
    pub in_loop: bool,
    pub finals: Finals,
    pub locals: Variables,
    pub types: Types,
}

impl Scope<'_> {
    /// The name of the class or interface that holds the body. It takes no memory.
    pub fn class(&self) -> &Name
        ensures { result.now ≡ (context_of self.now).class }
    {
        &self.world.decl().name
    }

    /// Whether there is `this` (JLS 15.8.3). It takes no memory.
    pub fn has_this(&self) -> bool
        ensures { result ≡ spec.has_this (context_of self.now) }
    {
        !self.is_static
    }

    /// The superclass of the class (JLS 8.1.4). It takes no memory.
    pub fn superclass(&self) -> Option<&Name>
        ensures { option_copied result ≡ spec.superclass_at (context_of self.now) }
    {
        match self.world.head(self.class()) {
            None => None,
            Some(head) => head.superclass.as_ref(),
        }
    }

    /// Whether there is a type of the name. It takes no memory.
    pub fn has_type(&self, name: &Name) -> bool
        ensures { result ≡ has_type (spec.world_at (context_of self.now)) name.now }
    {
        self.world.head(name).is_some()
    }

    /// Whether the type that stands before any brackets is there. It takes no memory.
    pub fn is_known(&self, base: &Base) -> bool
        ensures { result ≡ spec.is_known (context_of self.now) (array_name base.now 0) }
    {
        match base {
            Base::Named(name) => self.has_type(name),
            Base::Int | Base::Bool | Base::Void => true,
        }
    }

    /// Whether the name is that of an interface (JLS 9). It takes no memory.
    pub fn is_interface(&self, name: &Name) -> bool
        ensures { result ≡ spec.is_interface (context_of self.now) name.now }
    {
        match self.world.head(name) {
            None => false,
            Some(head) => head.interface,
        }
    }

    /// Whether the name is that of a type without objects of its own (JLS 8.1.1.1). It takes no memory.
    pub fn is_abstract_type(&self, name: &Name) -> bool
        ensures { result ≡ spec.is_abstract_type (context_of self.now) name.now }
    {
        match self.world.head(name) {
            None => false,
            Some(head) => head.is_abstract,
        }
    }
}
