//! Keys that borrow what they are told by.
#![tactic(auto, using(crate::proofs::Rules::key_rules))]

ghost use Rattle.std.specs.Prelude.{◌≡◌, ◌++◌, fold};
ghost use Rattle.std.specs.Hash as fed;
ghost use Rattle.bcj_symbolic_trees.specs.Types.{ty_of};
ghost use Rattle.bcj_symbolic_trees.specs.Same.{same_type};
ghost use Rattle.bcj_layout_rules.specs.Rows.{same_reference};
ghost use Rattle.bcj_layout_rows.specs.Keys.{type_in, type_writes, reference_in, reference_writes};
ghost use Rattle.bcj_layout_rows.specs.KeyTests.{types_equivalence, types_partial, types_respect, references_equivalence, references_partial, references_respect};

use bcj_names::Name;
use bcj_symbolic_trees::Ty;
use std::hash::{Hash, Hasher};

/// A type.
#[derive(Clone, Copy)]
pub struct TypeKey<'a> {
    pub ty: &'a Ty,
}

/// A reference, by its three names.
#[derive(Clone, Copy)]
pub struct ReferenceKey<'a> {
    pub class: &'a Name,
    pub name: &'a Name,
    pub desc: &'a Name,
}

impl<'a> PartialEq for TypeKey<'a> {
    ghost eq = { λ x y. same_type (type_in x) (type_in y) };

    ghost laws = { types_partial };

    fn eq(&self, other: &TypeKey<'a>) -> bool {
        self.ty.same(other.ty)
    }
}

impl<'a> Eq for TypeKey<'a> {
    ghost laws = { types_equivalence };
}

impl<'a> PartialEq for ReferenceKey<'a> {
    ghost eq = { λ x y. same_reference (reference_in x) (reference_in y) };

    ghost laws = { references_partial };

    fn eq(&self, other: &ReferenceKey<'a>) -> bool {
        self.class.same(other.class) && self.name.same(other.name) && self.desc.same(other.desc)
    }
}

impl<'a> Eq for ReferenceKey<'a> {
    ghost laws = { references_equivalence };
}

fn hash_name<H: Hasher>(name: &Name, state: &mut H)
    ensures { state.new ≡ fold H.write state.old (fed.str name.now) }
{
    name.as_str().hash(state);
}

fn hash_type<H: Hasher>(ty: &Ty, state: &mut H)
    ensures { state.new ≡ fold H.write state.old (type_writes (ty_of ty.now)) }
{
    match ty {
        Ty::Int | Ty::Bool | Ty::Void => {}
        Ty::Class(name) => hash_name(name, state),
        Ty::Array(component) => {
            state.write_u8(0);
            hash_type(component.get(), state);
        }
    }
}

impl<'a> Hash for TypeKey<'a> {
    ghost hash_input = { λ k. type_writes (type_in k) };

    ghost respects_eq = { types_respect };

    fn hash<H: Hasher>(&self, state: &mut H) {
        hash_type(self.ty, state);
    }
}

impl<'a> Hash for ReferenceKey<'a> {
    ghost hash_input = { λ k. reference_writes (reference_in k) };

    ghost respects_eq = { references_respect };

    fn hash<H: Hasher>(&self, state: &mut H) {
        hash_name(self.class, state);
        hash_name(self.name, state);
        hash_name(self.desc, state);
    }
}
