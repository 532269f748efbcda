#![tactic(auto, using(crate::proofs::Rules::table_rules))]

ghost use Rattle.std.specs.Prelude.{◌≡◌, [], ◌∷◌, ◌++◌, map, IfOk, OnOk};
ghost use Rattle.bcj_symbolic_trees.specs.Types.{ty_of, types_of};
ghost use Rattle.bcj_symbolic_trees.specs.Units as symbolic;
ghost use Rattle.bcj_decl_rules.specs.World as spec;
ghost use Rattle.bcj_decl_table.specs.Views.{field_of_info, method_of_info, declared_of};

use crate::info::{FieldInfo, FieldInfos, MethodInfo, MethodInfos, TypeInfo, TypeInfos};
use crate::member::default_constructor;
use crate::spelling::copy_names;
use bcj_names::Name;
use bcj_symbolic_boot::boot;
use bcj_symbolic_trees::{ClassHead, OBJECT, Sequence, SymClass, SymField, SymMethod, copy_types};
use std::alloc::{AllocError, Global};

fn boot_field(alloc: Global, class: &Name, field: &SymField) -> Result<FieldInfo, AllocError>
    ensures { IfOk result (λ f. field_of_info f ≡ spec.boot_field class.now (symbolic.field_of field.now)) }
{
    Ok(FieldInfo {
        class: class.copy(alloc)?,
        name: field.name.copy(alloc)?,
        ty: field.ty.copy(alloc)?,
        is_static: field.is_static,
        is_final: field.is_final,
        is_private: field.is_private,
        constant: None,
    })
}

fn push_field(
    alloc: Global,
    class: &Name,
    field: &SymField,
    fields: &mut FieldInfos,
) -> Result<(), AllocError>
    ensures { OnOk result (map field_of_info fields.new ≡ map field_of_info fields.old ++ spec.boot_field class.now (symbolic.field_of field.now) ∷ []) }
{
    fields.push(boot_field(alloc, class, field)?)
}

fn boot_fields(alloc: Global, class: &SymClass) -> Result<FieldInfos, AllocError>
    ensures { IfOk result (λ fs. map field_of_info fs ≡ map (spec.boot_field class.now.head.name) (map symbolic.field_of class.now.fields)) }
{
    let mut fields = Sequence::new(alloc);
    for field in class.fields.as_slice() {
        push_field(alloc, &class.head.name, field, &mut fields)?;
    }
    Ok(fields)
}

fn boot_method(alloc: Global, class: &Name, method: &SymMethod) -> Result<MethodInfo, AllocError>
    ensures { IfOk result (λ m. method_of_info m ≡ spec.boot_method class.now (symbolic.method_of method.now)) }
{
    Ok(MethodInfo {
        class: class.copy(alloc)?,
        name: method.name.copy(alloc)?,
        params: copy_types(alloc, method.params.as_slice())?,
        result: method.result.copy(alloc)?,
        kind: method.kind,
        is_private: method.is_private,
    })
}

fn push_method(
    alloc: Global,
    class: &Name,
    method: &SymMethod,
    methods: &mut MethodInfos,
) -> Result<(), AllocError>
    ensures { OnOk result
        (map method_of_info methods.new ≡ map method_of_info methods.old ++ spec.boot_method class.now (symbolic.method_of method.now) ∷ []) }
{
    methods.push(boot_method(alloc, class, method)?)
}

/// Object has a constructor, for which the boot unit has no code.
fn first_methods(alloc: Global, class: &Name) -> Result<MethodInfos, AllocError>
    ensures { IfOk result (λ ms. map method_of_info ms ≡ spec.object_constructor class.now) }
{
    let mut methods = Sequence::new(alloc);
    if class.as_str() == OBJECT {
        methods.push(default_constructor(alloc, class)?)?;
    }
    Ok(methods)
}

fn boot_methods(alloc: Global, class: &SymClass) -> Result<MethodInfos, AllocError>
    ensures { IfOk result (λ ms. map method_of_info ms ≡ spec.boot_methods (symbolic.class_of class.now)) }
{
    let mut methods = first_methods(alloc, &class.head.name)?;
    for method in class.methods.as_slice() {
        push_method(alloc, &class.head.name, method, &mut methods)?;
    }
    Ok(methods)
}

fn copy_name(alloc: Global, name: &Option<Name>) -> Result<Option<Name>, AllocError>
    ensures { IfOk result (λ o. o ≡ name.now) }
{
    match name {
        None => Ok(None),
        Some(name) => Ok(Some(name.copy(alloc)?)),
    }
}

fn boot_type(alloc: Global, class: &SymClass) -> Result<TypeInfo, AllocError>
    ensures { IfOk result (λ t. declared_of t ≡ spec.boot_type (symbolic.class_of class.now)) }
{
    Ok(TypeInfo {
        head: ClassHead {
            name: class.head.name.copy(alloc)?,
            interface: class.head.interface,
            is_abstract: class.head.is_abstract,
            superclass: copy_name(alloc, &class.head.superclass)?,
            interfaces: copy_names(alloc, class.head.interfaces.as_slice())?,
        },
        fields: boot_fields(alloc, class)?,
        methods: boot_methods(alloc, class)?,
    })
}

fn push_type(alloc: Global, class: &SymClass, types: &mut TypeInfos) -> Result<(), AllocError>
    ensures { OnOk result (map declared_of types.new ≡ map declared_of types.old ++ spec.boot_type (symbolic.class_of class.now) ∷ []) }
{
    types.push(boot_type(alloc, class)?)
}

fn push_types(alloc: Global, classes: &[SymClass], types: &mut TypeInfos) -> Result<(), AllocError>
    ensures { OnOk result (map declared_of types.new ≡ map declared_of types.old ++ map spec.boot_type (map symbolic.class_of classes.now)) }
{
    for class in classes {
        push_type(alloc, class, types)?;
    }
    Ok(())
}

/// The boot types.
pub fn boot_types(alloc: Global) -> Result<TypeInfos, AllocError>
    ensures { IfOk result (λ ts. map declared_of ts ≡ spec.boot_types) }
{
    let unit = boot(alloc)?;
    let mut types = Sequence::new(alloc);
    push_types(alloc, unit.classes.as_slice(), &mut types)?;
    Ok(types)
}
