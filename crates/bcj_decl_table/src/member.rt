#![tactic(auto, using(crate::proofs::Rules::table_rules))]

ghost use Rattle.std.specs.Prelude.{◌≡◌, [], false, IfOk};
ghost use Rattle.bcj_symbolic_trees.specs.Types.{types_of};
ghost use Rattle.bcj_decl_rules.specs.World as spec;
ghost use Rattle.bcj_decl_table.specs.Views.{field_of_info, method_of_info};

use crate::info::{FieldInfo, MethodInfo};
use crate::spelling::{param_types, type_of};
use bcj_names::Name;
use bcj_parser_trees::{Access, Mods, Param, TypeName};
use bcj_symbolic_trees::{CONSTRUCTOR, MethodKind, Sequence, Ty, Types};
use std::alloc::{AllocError, Global};

fn is_private(mods: Mods) -> bool
    ensures { result ≡ spec.is_private mods }
{
    match mods.access {
        Access::Private => true,
        Access::Open | Access::Public | Access::Protected => false,
    }
}

/// A field of a type; one of an interface is static and final (JLS 9.3).
pub fn field_info(
    alloc: Global,
    interface: bool,
    class: &Name,
    mods: Mods,
    ty: &TypeName,
    name: &Name,
) -> Result<FieldInfo, AllocError>
    ensures { IfOk result (λ f. field_of_info f ≡ spec.field_with interface class.now mods ty.now name.now) }
{
    Ok(FieldInfo {
        class: class.copy(alloc)?,
        name: name.copy(alloc)?,
        ty: type_of(alloc, ty)?,
        is_static: interface || mods.is_static,
        is_final: interface || mods.is_final,
        is_private: is_private(mods),
        constant: None,
    })
}

fn kind_in(interface: bool, mods: Mods) -> MethodKind
    ensures { result ≡ spec.kind_in interface mods }
{
    if interface || mods.is_abstract {
        MethodKind::Abstract
    } else if mods.is_static {
        MethodKind::Static
    } else {
        MethodKind::Instance
    }
}

/// A method of a type; one of an interface is abstract (JLS 9.4).
pub fn method_info(
    alloc: Global,
    interface: bool,
    class: &Name,
    mods: Mods,
    outcome: &TypeName,
    name: &Name,
    params: &[Param],
) -> Result<MethodInfo, AllocError>
    ensures { IfOk result (λ m. method_of_info m ≡ spec.method_with interface class.now mods outcome.now name.now params.now) }
{
    Ok(MethodInfo {
        class: class.copy(alloc)?,
        name: name.copy(alloc)?,
        params: param_types(alloc, params)?,
        result: type_of(alloc, outcome)?,
        kind: kind_in(interface, mods),
        is_private: is_private(mods),
    })
}

/// A constructor with parameters of these types.
pub fn constructor_with(
    alloc: Global,
    class: &Name,
    params: Types,
    is_private: bool,
) -> Result<MethodInfo, AllocError>
    ensures { IfOk result (λ m. method_of_info m ≡ spec.constructor_with class.now (types_of params) is_private) }
{
    Ok(MethodInfo {
        class: class.copy(alloc)?,
        name: Name::from_str(alloc, CONSTRUCTOR)?,
        params,
        result: Ty::Void,
        kind: MethodKind::Constructor,
        is_private,
    })
}

/// A constructor that a source writes.
pub fn constructor_info(
    alloc: Global,
    class: &Name,
    mods: Mods,
    params: &[Param],
) -> Result<MethodInfo, AllocError>
    ensures { IfOk result (λ m. method_of_info m ≡ spec.constructor_with class.now (spec.param_types params.now) (spec.is_private mods)) }
{
    constructor_with(alloc, class, param_types(alloc, params)?, is_private(mods))
}

/// The constructor of a class that writes none (JLS 8.8.9).
pub fn default_constructor(alloc: Global, class: &Name) -> Result<MethodInfo, AllocError>
    ensures { IfOk result (λ m. method_of_info m ≡ spec.constructor_with class.now [] false) }
{
    constructor_with(alloc, class, Sequence::new(alloc), false)
}
