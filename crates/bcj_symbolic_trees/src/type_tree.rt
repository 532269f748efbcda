#![tactic(auto, using(crate::proofs::Rules::same_rules))]

ghost use Rattle.std.specs.Prelude.{◌≡◌, ◌↔◌, IsTrue, IfOk};
ghost use Rattle.bcj_symbolic_trees.specs.Types.{ty_of, types_of};
ghost use Rattle.bcj_symbolic_trees.specs.Same.{same_type, same_types};

use crate::listing::Sequence;
use bcj_names::Name;
use sqlite_items::Boxed;
use std::alloc::{AllocError, Global};

/// A type (JLS 4): `int`, `boolean`, `void` as a result, a class or interface by name, or the array type of a component.
#[derive(Drop)]
pub enum Ty {
    Int,
    Bool,
    Void,
    Class(Name),
    Array(Boxed<Ty>),
}

/// A list of types, as those of parameters or of locals.
pub type Types = Sequence<Ty>;

/// The type of an argument in the choice of a method (JLS 15.12.2); `Null` is that of `null`.
#[derive(Drop)]
pub enum Arg {
    Given(Ty),
    Null,
}

/// The types of a list of arguments.
pub type Tys = Sequence<Arg>;

impl Ty {
    /// Whether both are the same type. It takes no memory.
    pub fn same(&self, other: &Ty) -> bool
        ensures test { result ≡ same_type (ty_of self.now) (ty_of other.now) }
        ensures equal { IsTrue result ↔ (ty_of self.now ≡ ty_of other.now) }
    {
        match self {
            Ty::Int => match other {
                Ty::Int => true,
                Ty::Bool | Ty::Void | Ty::Class(_) | Ty::Array(_) => false,
            },
            Ty::Bool => match other {
                Ty::Bool => true,
                Ty::Int | Ty::Void | Ty::Class(_) | Ty::Array(_) => false,
            },
            Ty::Void => match other {
                Ty::Void => true,
                Ty::Int | Ty::Bool | Ty::Class(_) | Ty::Array(_) => false,
            },
            Ty::Class(name) => match other {
                Ty::Class(other_name) => name.same(other_name),
                Ty::Int | Ty::Bool | Ty::Void | Ty::Array(_) => false,
            },
            Ty::Array(component) => match other {
                Ty::Array(other_component) => component.get().same(other_component.get()),
                Ty::Int | Ty::Bool | Ty::Void | Ty::Class(_) => false,
            },
        }
    }

    /// A copy in memory of its own.
    pub fn copy(&self, alloc: Global) -> Result<Ty, AllocError>
        ensures { IfOk result (λ t. t ≡ self.now) }
    {
        Ok(match self {
            Ty::Int => Ty::Int,
            Ty::Bool => Ty::Bool,
            Ty::Void => Ty::Void,
            Ty::Class(name) => Ty::Class(name.copy(alloc)?),
            Ty::Array(component) => Ty::Array(Boxed::new(alloc, component.get().copy(alloc)?)?),
        })
    }
}

/// Whether both lists have the same types in the same order. It takes no memory.
pub fn same_types(types: &[Ty], others: &[Ty]) -> bool
    ensures test { result ≡ same_types (types_of types.now) (types_of others.now) }
    ensures equal { IsTrue result ↔ (types_of types.now ≡ types_of others.now) }
{
    match_in_order(types, others)
}

fn match_in_order(types: &[Ty], others: &[Ty]) -> bool
    ensures { result ≡ same_types (types_of types.now) (types_of others.now) }
{
    if types.len() != others.len() {
        return false;
    }
    for i in 0..types.len() {
        if !types[i].same(&others[i]) {
            return false;
        }
    }
    true
}

/// A copy in memory of its own.
pub fn copy_types(alloc: Global, types: &[Ty]) -> Result<Types, AllocError>
    ensures { IfOk result (λ copies. copies ≡ types.now) }
{
    let mut copies = Sequence::new(alloc);
    for ty in types {
        copies.push(ty.copy(alloc)?)?;
    }
    Ok(copies)
}
