#![tactic(auto, using(crate::proofs::Rules::table_rules))]

ghost use Rattle.std.specs.Prelude.{◌≡◌, [], ◌∷◌, ◌++◌, map, IfOk, OnOk, if◌then◌else◌, None, Some};
ghost use Rattle.std.specs.List.{filter_map};
ghost use Rattle.std.specs.Option.{option_to_list};
ghost use Rattle.bcj_parser_trees.specs.Plain as tree;
ghost use Rattle.bcj_decl_rules.specs.World as spec;
ghost use Rattle.bcj_decl_table.specs.Views.{field_of_info, method_of_info, declared_of};

use crate::info::{FieldInfos, MethodInfos, TypeInfo, TypeInfos};
use crate::member::{constructor_info, default_constructor, field_info, method_info};
use crate::spelling::copy_names;
use bcj_names::Name;
use bcj_parser_trees::{Member, TypeDecl, Unit};
use bcj_symbolic_trees::{ClassHead, Names, OBJECT, Sequence};
use std::alloc::{AllocError, Global};

fn push_field(
    alloc: Global,
    interface: bool,
    class: &Name,
    member: &Member,
    fields: &mut FieldInfos,
) -> Result<(), AllocError>
    ensures { OnOk result
        (map field_of_info fields.new ≡ map field_of_info fields.old ++ option_to_list (spec.field_in interface class.now (tree.member_of member.now))) }
{
    match member {
        Member::Field {
            at: _,
            mods,
            ty,
            name,
            init: _,
        } => fields.push(field_info(alloc, interface, class, *mods, ty, name)?),
        Member::Method { .. } | Member::Constructor { .. } | Member::Static { .. } => Ok(()),
    }
}

fn fields_of(alloc: Global, decl: &TypeDecl) -> Result<FieldInfos, AllocError>
    ensures { IfOk result
        (λ fs. map field_of_info fs ≡ filter_map (spec.field_in decl.now.interface decl.now.name) (map tree.member_of decl.now.members)) }
{
    let mut fields = Sequence::new(alloc);
    for member in decl.members.as_slice() {
        push_field(alloc, decl.interface, &decl.name, member, &mut fields)?;
    }
    Ok(fields)
}

fn push_constructor(
    alloc: Global,
    class: &Name,
    member: &Member,
    methods: &mut MethodInfos,
) -> Result<(), AllocError>
    ensures { OnOk result
        (map method_of_info methods.new ≡ map method_of_info methods.old ++ option_to_list (spec.constructor_in class.now (tree.member_of member.now))) }
{
    match member {
        Member::Constructor {
            at: _,
            mods,
            name: _,
            params,
            throws: _,
            first: _,
            body: _,
        } => methods.push(constructor_info(alloc, class, *mods, params.as_slice())?),
        Member::Field { .. } | Member::Method { .. } | Member::Static { .. } => Ok(()),
    }
}

fn written_constructors(alloc: Global, decl: &TypeDecl) -> Result<MethodInfos, AllocError>
    ensures { IfOk result
        (λ ms. map method_of_info ms ≡ filter_map (spec.constructor_in decl.now.name) (map tree.member_of decl.now.members)) }
{
    let mut methods = Sequence::new(alloc);
    for member in decl.members.as_slice() {
        push_constructor(alloc, &decl.name, member, &mut methods)?;
    }
    Ok(methods)
}

/// The constructors of a class, or of an interface, which has none.
fn constructors_of(alloc: Global, decl: &TypeDecl) -> Result<MethodInfos, AllocError>
    ensures { IfOk result (λ ms. map method_of_info ms ≡ spec.constructors_of (tree.type_of decl.now)) }
{
    if decl.interface {
        return Ok(Sequence::new(alloc));
    }
    let mut methods = written_constructors(alloc, decl)?;
    if methods.len() == 0 {
        methods.push(default_constructor(alloc, &decl.name)?)?;
    }
    Ok(methods)
}

fn push_method(
    alloc: Global,
    interface: bool,
    class: &Name,
    member: &Member,
    methods: &mut MethodInfos,
) -> Result<(), AllocError>
    ensures { OnOk result
        (map method_of_info methods.new ≡ map method_of_info methods.old ++ option_to_list (spec.method_in interface class.now (tree.member_of member.now))) }
{
    match member {
        Member::Method {
            at: _,
            mods,
            result: outcome,
            name,
            params,
            throws: _,
            body: _,
        } => methods.push(method_info(
            alloc,
            interface,
            class,
            *mods,
            outcome,
            name,
            params.as_slice(),
        )?),
        Member::Field { .. } | Member::Constructor { .. } | Member::Static { .. } => Ok(()),
    }
}

fn methods_of(alloc: Global, decl: &TypeDecl) -> Result<MethodInfos, AllocError>
    ensures { IfOk result (λ ms. map method_of_info ms ≡ spec.methods_of (tree.type_of decl.now)) }
{
    let mut methods = constructors_of(alloc, decl)?;
    for member in decl.members.as_slice() {
        push_method(alloc, decl.interface, &decl.name, member, &mut methods)?;
    }
    Ok(methods)
}

/// What a class extends, which is Object where it writes nothing; an interface has no superclass.
fn superclass_of(alloc: Global, decl: &TypeDecl) -> Result<Option<Name>, AllocError>
    ensures { IfOk result (λ o. o ≡ spec.superclass_of (tree.type_of decl.now)) }
{
    if decl.interface {
        return Ok(None);
    }
    match decl.extends.as_slice() {
        [] => Ok(Some(Name::from_str(alloc, OBJECT)?)),
        [name, ..] => Ok(Some(name.copy(alloc)?)),
    }
}

fn interfaces_of(alloc: Global, decl: &TypeDecl) -> Result<Names, AllocError>
    ensures { IfOk result (λ ns. ns ≡ spec.interfaces_of (tree.type_of decl.now)) }
{
    if decl.interface {
        copy_names(alloc, decl.extends.as_slice())
    } else {
        copy_names(alloc, decl.implements.as_slice())
    }
}

fn head_of(alloc: Global, decl: &TypeDecl) -> Result<ClassHead, AllocError>
    ensures name { IfOk result (λ h. h.name ≡ decl.now.name) }
    ensures interface { IfOk result (λ h. h.interface ≡ decl.now.interface) }
    ensures is_abstract { IfOk result (λ h. h.is_abstract ≡ decl.now.is_abstract) }
    ensures superclass { IfOk result (λ h. h.superclass ≡ spec.superclass_of (tree.type_of decl.now)) }
    ensures interfaces { IfOk result (λ h. h.interfaces ≡ spec.interfaces_of (tree.type_of decl.now)) }
{
    Ok(ClassHead {
        name: decl.name.copy(alloc)?,
        interface: decl.interface,
        is_abstract: decl.is_abstract,
        superclass: superclass_of(alloc, decl)?,
        interfaces: interfaces_of(alloc, decl)?,
    })
}

/// A type of a source with its head and members; no field has its constant yet.
pub fn type_info(alloc: Global, decl: &TypeDecl) -> Result<TypeInfo, AllocError>
    ensures { IfOk result (λ t. declared_of t ≡ spec.declared_type (tree.type_of decl.now)) }
{
    Ok(TypeInfo {
        head: head_of(alloc, decl)?,
        fields: fields_of(alloc, decl)?,
        methods: methods_of(alloc, decl)?,
    })
}

fn push_type(alloc: Global, decl: &TypeDecl, types: &mut TypeInfos) -> Result<(), AllocError>
    ensures { OnOk result (map declared_of types.new ≡ map declared_of types.old ++ spec.declared_type (tree.type_of decl.now) ∷ []) }
{
    types.push(type_info(alloc, decl)?)
}

/// Puts the types of a unit behind the others.
pub fn push_unit(alloc: Global, unit: &Unit, types: &mut TypeInfos) -> Result<(), AllocError>
    ensures { OnOk result (map declared_of types.new ≡ map declared_of types.old ++ map spec.declared_type (tree.unit_of unit.now)) }
{
    for decl in unit.types.as_slice() {
        push_type(alloc, decl, types)?;
    }
    Ok(())
}
