#![tactic(auto, using(crate::proofs::Rules::same_rules))]

ghost use Rattle.std.specs.Prelude.{◌≡◌, ◌↔◌, IsTrue, IfOk};
ghost use Rattle.bcj_symbolic_trees.specs.Types.{field_ref_of, method_ref_of};
ghost use Rattle.bcj_symbolic_trees.specs.Same.{same_field_ref, same_method_ref};

use crate::type_tree::{Ty, Types, copy_types, same_types};
use bcj_names::Name;
use std::alloc::{AllocError, Global};

/// A reference to a field (JLS 13.1): the qualifying type, the name and the declared type.
#[derive(Drop)]
pub struct FieldRef {
    pub class: Name,
    pub name: Name,
    pub ty: Ty,
}

/// A reference to a method or constructor (JLS 13.1): the qualifying type, the name, the parameters' types and the
/// result's. That of a constructor has the name `<init>` and the result `void`.
#[derive(Drop)]
pub struct MethodRef {
    pub class: Name,
    pub name: Name,
    pub params: Types,
    pub result: Ty,
}

impl FieldRef {
    /// Whether both name the same field of the same type. It takes no memory.
    pub fn same(&self, other: &FieldRef) -> bool
        ensures test { result ≡ same_field_ref (field_ref_of self.now) (field_ref_of other.now) }
        ensures equal { IsTrue result ↔ (field_ref_of self.now ≡ field_ref_of other.now) }
    {
        self.class.same(&other.class) && self.name.same(&other.name) && self.ty.same(&other.ty)
    }

    /// A copy in memory of its own.
    pub fn copy(&self, alloc: Global) -> Result<FieldRef, AllocError>
        ensures { IfOk result (λ f. f ≡ self.now) }
    {
        Ok(FieldRef {
            class: self.class.copy(alloc)?,
            name: self.name.copy(alloc)?,
            ty: self.ty.copy(alloc)?,
        })
    }
}

impl MethodRef {
    /// Whether both name the same method, with the same parameters and result. It takes no memory.
    pub fn same(&self, other: &MethodRef) -> bool
        ensures test { result ≡ same_method_ref (method_ref_of self.now) (method_ref_of other.now) }
        ensures equal { IsTrue result ↔ (method_ref_of self.now ≡ method_ref_of other.now) }
    {
        self.class.same(&other.class)
            && self.name.same(&other.name)
            && same_types(self.params.as_slice(), other.params.as_slice())
            && self.result.same(&other.result)
    }

    /// A copy in memory of its own.
    pub fn copy(&self, alloc: Global) -> Result<MethodRef, AllocError>
        ensures { IfOk result (λ m. m ≡ self.now) }
    {
        Ok(MethodRef {
            class: self.class.copy(alloc)?,
            name: self.name.copy(alloc)?,
            params: copy_types(alloc, self.params.as_slice())?,
            result: self.result.copy(alloc)?,
        })
    }
}
