//! The text of a class of the boot unit.

use bcj_symbolic::{MethodKind, SymClass, SymField, SymMethod, Ty, Types, boot};
use std::alloc::{AllocError, Global};

/// The class with this number, or `none`.
pub fn of_boot(alloc: Global, number: &str) -> Option<String> {
    let number = number.parse().ok()?;
    let unit = boot(alloc).ok()?;
    match unit.classes.get(number) {
        None => String::from_str(alloc, "none").ok(),
        Some(class) => text(alloc, class).ok(),
    }
}

/// The name and the superclass, the fields, the methods and the pairs.
fn text(alloc: Global, class: &SymClass) -> Result<String, AllocError> {
    let mut text = head(alloc, class)?;
    for one in class.fields.as_slice() {
        text.push_str(field(alloc, one)?.as_str())?;
    }
    for one in class.methods.as_slice() {
        text.push_str(method(alloc, one)?.as_str())?;
    }
    for pair in class.pairs.as_slice() {
        let from = ty(&pair.from);
        let to = ty(&pair.to);
        text.push_str(format!(in alloc; ", {from} to {to}")?.as_str())?;
    }
    Ok(text)
}

fn head(alloc: Global, class: &SymClass) -> Result<String, AllocError> {
    let name = class.head.name.as_str();
    match &class.head.superclass {
        None => String::from_str(alloc, name),
        Some(superclass) => {
            let superclass = superclass.as_str();
            format!(in alloc; "{name} < {superclass}")
        }
    }
}

fn ty(ty: &Ty) -> &str {
    match ty {
        Ty::Int => "int",
        Ty::Bool => "boolean",
        Ty::Void => "void",
        Ty::Class(name) => name.as_str(),
        Ty::Array(_) => "array",
    }
}

fn types(alloc: Global, types: &Types) -> Result<String, AllocError> {
    let mut text = String::new(alloc);
    for one in types.as_slice() {
        text.push_str(ty(one))?;
    }
    Ok(text)
}

fn field(alloc: Global, field: &SymField) -> Result<String, AllocError> {
    let private = if field.is_private { "private " } else { "" };
    let how = match (field.is_static, field.is_final) {
        (true, true) => "static final ",
        (true, false) => "static ",
        (false, true) => "final ",
        (false, false) => "",
    };
    let ty = ty(&field.ty);
    let name = field.name.as_str();
    format!(in alloc; ", {private}{how}{ty} {name}")
}

/// A method with its parameters and the number of its statements.
fn method(alloc: Global, method: &SymMethod) -> Result<String, AllocError> {
    let private = if method.is_private { "private " } else { "" };
    let kind = match method.kind {
        MethodKind::Constructor => "new",
        MethodKind::Static => "static",
        MethodKind::Abstract => "abstract",
        MethodKind::Instance => ty(&method.result),
    };
    let name = method.name.as_str();
    let params = types(alloc, &method.params)?;
    let count = method.body.len();
    format!(in alloc; ", {private}{kind} {name}({params}) {count}")
}
