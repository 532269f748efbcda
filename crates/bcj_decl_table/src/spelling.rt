#![tactic(auto, using(crate::proofs::Rules::table_rules))]

ghost use Rattle.std.specs.Prelude.{◌≡◌, map, IfOk};
ghost use Rattle.bcj_symbolic_trees.specs.Types.{ty_of, types_of};
ghost use Rattle.bcj_decl_rules.specs.World as spec;

use bcj_names::Name;
use bcj_parser_trees::{Base, Param, TypeName};
use bcj_symbolic_trees::{Names, Sequence, Ty, Types};
use sqlite_items::Boxed;
use std::alloc::{AllocError, Global};

fn base_type(alloc: Global, base: &Base) -> Result<Ty, AllocError>
    ensures { IfOk result (λ t. ty_of t ≡ spec.base_type base.now) }
{
    Ok(match base {
        Base::Int => Ty::Int,
        Base::Bool => Ty::Bool,
        Base::Void => Ty::Void,
        Base::Named(name) => Ty::Class(name.copy(alloc)?),
    })
}

/// The type that a written name with its pairs of brackets stands for (JLS 4.3, 10.1).
pub fn type_of(alloc: Global, name: &TypeName) -> Result<Ty, AllocError>
    ensures { IfOk result (λ t. ty_of t ≡ spec.type_of name.now) }
{
    let mut ty = base_type(alloc, &name.base)?;
    for _pair in 0..name.dims {
        ty = Ty::Array(Boxed::new(alloc, ty)?);
    }
    Ok(ty)
}

/// The types of parameters, in their order.
pub fn param_types(alloc: Global, params: &[Param]) -> Result<Types, AllocError>
    ensures { IfOk result (λ ts. types_of ts ≡ spec.param_types params.now) }
{
    let mut types = Sequence::new(alloc);
    for param in params {
        types.push(type_of(alloc, &param.ty)?)?;
    }
    Ok(types)
}

/// A copy of a list of names.
pub fn copy_names(alloc: Global, names: &[Name]) -> Result<Names, AllocError>
    ensures { IfOk result (λ copies. copies ≡ names.now) }
{
    let mut copies = Sequence::new(alloc);
    for name in names {
        copies.push(name.copy(alloc)?)?;
    }
    Ok(copies)
}
