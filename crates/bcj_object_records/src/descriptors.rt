//! Descriptors of types and methods (JVMS 4.3).
#![tactic(auto, using(crate::proofs::Rules::text_rules))]

ghost use Rattle.std.specs.Prelude.{◌≡◌, ◌++◌, string_bytes, OnOk, IfOk};
ghost use Rattle.bcj_symbolic_trees.specs.Types.{class_type, ty_of, types_of};
ghost use Rattle.bcj_symbolic_trees.specs.Descriptors.{descriptor, descriptors, method_descriptor};

use bcj_symbolic_trees::{Name, Ty};
use std::alloc::{AllocError, Global};

fn put_class(class: &Name, out: &mut String) -> Result<(), AllocError>
    ensures { OnOk result (string_bytes out.new ≡ string_bytes out.old ++ descriptor (class_type class.now)) }
{
    out.push_str("L")?;
    out.push_str(class.as_str())?;
    out.push_str(";")
}

fn put_type(ty: &Ty, out: &mut String) -> Result<(), AllocError>
    ensures { OnOk result (string_bytes out.new ≡ string_bytes out.old ++ descriptor (ty_of ty.now)) }
{
    match ty {
        Ty::Int => out.push_str("I"),
        Ty::Bool => out.push_str("Z"),
        Ty::Void => out.push_str("V"),
        Ty::Class(name) => put_class(name, out),
        Ty::Array(component) => {
            out.push_str("[")?;
            put_type(component.get(), out)
        }
    }
}

fn put_types(types: &[Ty], out: &mut String) -> Result<(), AllocError>
    ensures { OnOk result (string_bytes out.new ≡ string_bytes out.old ++ descriptors (types_of types.now)) }
{
    for ty in types {
        put_type(ty, out)?;
    }
    Ok(())
}

/// The descriptor of a type.
pub fn type_descriptor(alloc: Global, ty: &Ty) -> Result<Name, AllocError>
    ensures { IfOk result (λ n. n ≡ descriptor (ty_of ty.now)) }
{
    let mut text = String::new(alloc);
    put_type(ty, &mut text)?;
    Ok(Name::of(text))
}

/// The descriptor of a class's type.
pub fn class_descriptor(alloc: Global, class: &Name) -> Result<Name, AllocError>
    ensures { IfOk result (λ n. n ≡ descriptor (class_type class.now)) }
{
    let mut text = String::new(alloc);
    put_class(class, &mut text)?;
    Ok(Name::of(text))
}

/// The descriptor of a method.
pub fn method_descriptor(alloc: Global, params: &[Ty], output: &Ty) -> Result<Name, AllocError>
    ensures { IfOk result (λ n. n ≡ method_descriptor (types_of params.now) (ty_of output.now)) }
{
    let mut text = String::from_str(alloc, "(")?;
    put_types(params, &mut text)?;
    text.push_str(")")?;
    put_type(output, &mut text)?;
    Ok(Name::of(text))
}
