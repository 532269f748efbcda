//! Names and types as rows write them.
use bcj_names::Name;
use bcj_symbolic_trees::{Arg, Sequence, Ty, Tys};
use sqlite_items::Boxed;
use std::alloc::{AllocError, Global};

const BRACKETS: &str = "[]";

pub fn name(alloc: Global, text: &str) -> Result<Name, AllocError> {
    Name::from_str(alloc, text)
}

fn base(alloc: Global, text: &str) -> Result<Ty, AllocError> {
    Ok(match text {
        "int" => Ty::Int,
        "boolean" => Ty::Bool,
        "void" => Ty::Void,
        _ => Ty::Class(name(alloc, text)?),
    })
}

/// A type with its pairs of brackets.
pub fn ty(alloc: Global, text: &str) -> Result<Ty, AllocError> {
    let (word, pairs) = match text.split_once(BRACKETS) {
        None => (text, 0),
        Some((word, rest)) => (word, rest.len() / BRACKETS.len() + 1),
    };
    let mut ty = base(alloc, word)?;
    for _ in 0..pairs {
        ty = Ty::Array(Boxed::new(alloc, ty)?);
    }
    Ok(ty)
}

fn arg(alloc: Global, text: &str) -> Result<Arg, AllocError> {
    Ok(match text {
        "null" => Arg::Null,
        _ => Arg::Given(ty(alloc, text)?),
    })
}

/// Types between commas.
pub fn args(alloc: Global, text: &str) -> Result<Tys, AllocError> {
    let mut types = Sequence::new(alloc);
    if text.is_empty() {
        return Ok(types);
    }
    for word in text.split(",") {
        types.push(arg(alloc, word)?)?;
    }
    Ok(types)
}

/// Writes a type as rows do.
pub fn put_type(out: &mut String, ty: &Ty) -> Result<(), AllocError> {
    match ty {
        Ty::Int => out.push_str("int"),
        Ty::Bool => out.push_str("boolean"),
        Ty::Void => out.push_str("void"),
        Ty::Class(name) => out.push_str(name.as_str()),
        Ty::Array(component) => {
            put_type(out, component.get())?;
            out.push_str(BRACKETS)
        }
    }
}
