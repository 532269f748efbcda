//! Entries of a class's tables, and when two uses share one.
#![tactic(auto, using(crate::proofs::Rules::entry_rules))]

ghost use Rattle.std.specs.Prelude.{◌≡◌, ◌==◌, ◌++◌, [], ◌∷◌, fold};
ghost use Rattle.std.specs.Hash as fed;
ghost use Rattle.bcj_symbolic_trees.specs.Types.{ty_of, class_type, field_ref_of, method_ref_of};
ghost use Rattle.bcj_symbolic_trees.specs.Same.{same_type};
ghost use Rattle.bcj_symbolic_measure.specs.Entries as spec;
ghost use Rattle.bcj_symbolic_measure.specs.function.Counts.{target_of, entry_of};
ghost use Rattle.bcj_symbolic_measure.specs.function.Hashes.{type_writes, target_writes, entry_writes};
ghost use Rattle.bcj_symbolic_measure.specs.function.EntryTests.{entries_partial, entries_equivalence, entries_respect};

use bcj_symbolic_trees::{FieldRef, MethodRef, Name, Ty};
use std::hash::{Hash, Hasher};

/// The table of an entry, with what it says of its target there.
#[derive(Clone, Copy)]
pub enum Role {
    Row,
    New,
    FieldOffset,
    MethodOffset,
    FieldAddress,
    StaticMethod,
    SpecialMethod,
    InterfaceMethod,
}

/// What an entry names. A class stands for its type.
#[derive(Clone, Copy)]
pub enum Target<'a> {
    Type(&'a Ty),
    Class(&'a Name),
    Field(&'a FieldRef),
    Method(&'a MethodRef),
}

#[derive(Clone, Copy)]
pub struct Entry<'a> {
    pub role: Role,
    pub target: Target<'a>,
}

impl Role {
    fn number(self) -> u8
        ensures { result ≡ spec.role_number self }
    {
        match self {
            Role::Row => 0,
            Role::New => 1,
            Role::FieldOffset => 2,
            Role::MethodOffset => 3,
            Role::FieldAddress => 4,
            Role::StaticMethod => 5,
            Role::SpecialMethod => 6,
            Role::InterfaceMethod => 7,
        }
    }
}

fn is_class<'a>(ty: &'a Ty, class: &'a Name) -> bool
    ensures { result ≡ same_type (ty_of ty.now) (class_type class.now) }
{
    match ty {
        Ty::Class(name) => name.same(class),
        Ty::Int | Ty::Bool | Ty::Void | Ty::Array(_) => false,
    }
}

fn class_is<'a>(class: &'a Name, ty: &'a Ty) -> bool
    ensures { result ≡ same_type (class_type class.now) (ty_of ty.now) }
{
    match ty {
        Ty::Class(name) => class.same(name),
        Ty::Int | Ty::Bool | Ty::Void | Ty::Array(_) => false,
    }
}

fn same_target<'a>(target: Target<'a>, other: Target<'a>) -> bool
    ensures { result ≡ spec.same_target (target_of target.entry) (target_of other.entry) }
{
    match target {
        Target::Type(ty) => match other {
            Target::Type(other) => ty.same(other),
            Target::Class(class) => is_class(ty, class),
            Target::Field(_) | Target::Method(_) => false,
        },
        Target::Class(class) => match other {
            Target::Type(ty) => class_is(class, ty),
            Target::Class(other) => class.same(other),
            Target::Field(_) | Target::Method(_) => false,
        },
        Target::Field(field) => match other {
            Target::Field(other) => field.same(other),
            Target::Type(_) | Target::Class(_) | Target::Method(_) => false,
        },
        Target::Method(method) => match other {
            Target::Method(other) => method.same(other),
            Target::Type(_) | Target::Class(_) | Target::Field(_) => false,
        },
    }
}

impl<'a> Entry<'a> {
    /// A type.
    pub fn of_type(ty: &'a Ty) -> Entry<'a>
        ensures { entry_of result ≡ spec.type_entry (ty_of ty.now) }
    {
        Entry {
            role: Role::Row,
            target: Target::Type(ty),
        }
    }

    /// A class, by its type.
    pub fn of_class(class: &'a Name) -> Entry<'a>
        ensures { entry_of result ≡ spec.class_entry class.now }
    {
        Entry {
            role: Role::Row,
            target: Target::Class(class),
        }
    }

    /// A class of which an object is made.
    pub fn of_new(class: &'a Name) -> Entry<'a>
        ensures { entry_of result ≡ spec.new_entry class.now }
    {
        Entry {
            role: Role::New,
            target: Target::Class(class),
        }
    }

    /// An instance field.
    pub fn field_offset(field: &'a FieldRef) -> Entry<'a>
        ensures { entry_of result ≡ spec.field_offset (field_ref_of field.now) }
    {
        Entry {
            role: Role::FieldOffset,
            target: Target::Field(field),
        }
    }

    /// A method that is selected by class.
    pub fn method_offset(method: &'a MethodRef) -> Entry<'a>
        ensures { entry_of result ≡ spec.method_offset (method_ref_of method.now) }
    {
        Entry {
            role: Role::MethodOffset,
            target: Target::Method(method),
        }
    }

    /// A static field.
    pub fn field_address(field: &'a FieldRef) -> Entry<'a>
        ensures { entry_of result ≡ spec.field_address (field_ref_of field.now) }
    {
        Entry {
            role: Role::FieldAddress,
            target: Target::Field(field),
        }
    }

    /// A static method.
    pub fn static_method(method: &'a MethodRef) -> Entry<'a>
        ensures { entry_of result ≡ spec.static_method (method_ref_of method.now) }
    {
        Entry {
            role: Role::StaticMethod,
            target: Target::Method(method),
        }
    }

    /// A constructor or method that is called as it is named.
    pub fn special_method(method: &'a MethodRef) -> Entry<'a>
        ensures { entry_of result ≡ spec.special_method (method_ref_of method.now) }
    {
        Entry {
            role: Role::SpecialMethod,
            target: Target::Method(method),
        }
    }

    /// A method that is selected by interface.
    pub fn interface_method(method: &'a MethodRef) -> Entry<'a>
        ensures { entry_of result ≡ spec.interface_method (method_ref_of method.now) }
    {
        Entry {
            role: Role::InterfaceMethod,
            target: Target::Method(method),
        }
    }
}

impl<'a> PartialEq for Entry<'a> {
    ghost eq = { λ x y. spec.same_entry (entry_of x) (entry_of y) };

    ghost laws = { entries_partial };

    fn eq(&self, other: &Entry<'a>) -> bool {
        self.role.number() == other.role.number() && same_target(self.target, other.target)
    }
}

impl<'a> Eq for Entry<'a> {
    ghost laws = { entries_equivalence };
}

// The names alone tell most entries apart.
fn hash_name<H: Hasher>(name: &Name, state: &mut H)
    ensures { state.new ≡ fold H.write state.old (fed.str name.now) }
{
    name.as_str().hash(state);
}

fn hash_type<H: Hasher>(ty: &Ty, state: &mut H)
    ensures { state.new ≡ fold H.write state.old (type_writes (ty_of ty.now)) }
{
    match ty {
        Ty::Int | Ty::Bool | Ty::Void => {}
        Ty::Class(name) => hash_name(name, state),
        Ty::Array(component) => {
            state.write_u8(0);
            hash_type(component.get(), state);
        }
    }
}

fn hash_target<'a, H: Hasher>(target: Target<'a>, state: &mut H)
    ensures { state.new ≡ fold H.write state.old (target_writes (target_of target.entry)) }
{
    match target {
        Target::Type(ty) => hash_type(ty, state),
        Target::Class(class) => hash_name(class, state),
        Target::Field(field) => {
            hash_name(&field.class, state);
            hash_name(&field.name, state);
        }
        Target::Method(method) => {
            hash_name(&method.class, state);
            hash_name(&method.name, state);
        }
    }
}

impl<'a> Hash for Entry<'a> {
    ghost hash_input = { λ e. entry_writes (entry_of e) };

    ghost respects_eq = { entries_respect };

    fn hash<H: Hasher>(&self, state: &mut H) {
        state.write_u8(self.role.number());
        hash_target(self.target, state);
    }
}
