//! What is asked of a declared world: a constant, a field, a method, a subtype or a head.
ghost use Rattle.std.specs.Prelude.{IsSome};
ghost use Rattle.bcj_decl_fields.specs.FieldSearch.{field_at};
ghost use Rattle.bcj_decl_methods.specs.Search.{method_at};
ghost use Rattle.bcj_decl.specs.Worlds.{world_seen};

use crate::reading::{args, name, put_type, ty};
use bcj_decl::{Choice, DeclStop, Decls, FieldId, MethodId, declare};
use bcj_parser::Unit;
use bcj_symbolic_trees::{ClassHead, Ty};
use std::alloc::{AllocError, Global};

fn refusal(alloc: Global, stop: &DeclStop) -> Result<String, AllocError> {
    match stop {
        DeclStop::Duplicate { name, at } => {
            format!(in alloc; "duplicate {} at {}:{}", name.as_str(), at.file, at.at)
        }
        DeclStop::Unknown { name, at } => {
            format!(in alloc; "unknown {} at {}:{}", name.as_str(), at.file, at.at)
        }
        DeclStop::BadHierarchy { at } => {
            format!(in alloc; "bad hierarchy at {}:{}", at.file, at.at)
        }
        DeclStop::BadMember { at } => format!(in alloc; "bad member at {}:{}", at.file, at.at),
        DeclStop::NoMemory => String::from_str(alloc, "no memory"),
    }
}

fn yes_or_no(alloc: Global, holds: bool) -> Result<String, AllocError> {
    String::from_str(alloc, if holds { "yes" } else { "no" })
}

fn not_a_query(alloc: Global) -> Result<String, AllocError> {
    String::from_str(alloc, "not a query")
}

fn none(alloc: Global) -> Result<String, AllocError> {
    String::from_str(alloc, "none")
}

/// `constant A K`
fn constant(alloc: Global, decls: &Decls<'_>, words: &str) -> Result<String, AllocError> {
    let Some((class, field)) = words.split_once(" ") else {
        return not_a_query(alloc);
    };
    match decls.constant_of(&name(alloc, class)?, &name(alloc, field)?) {
        None => none(alloc),
        Some(value) => format!(in alloc; "{value}"),
    }
}

fn field_text(alloc: Global, decls: &Decls<'_>, field: FieldId) -> Result<String, AllocError>
    requires { IsSome (field_at (world_seen decls.now) field) }
{
    let info = decls.field(field);
    let mut out = String::new(alloc);
    if info.is_private {
        out.push_str("private ")?;
    }
    if info.is_static {
        out.push_str("static ")?;
    }
    if info.is_final {
        out.push_str("final ")?;
    }
    put_type(&mut out, &info.ty)?;
    write!(out, " {}.{}", info.class.as_str(), info.name.as_str())?;
    Ok(out)
}

/// `field A f`
fn field(alloc: Global, decls: &Decls<'_>, words: &str) -> Result<String, AllocError> {
    let Some((class, field)) = words.split_once(" ") else {
        return not_a_query(alloc);
    };
    match decls.lookup_field(&name(alloc, class)?, &name(alloc, field)?) {
        None => none(alloc),
        Some(field) => field_text(alloc, decls, field),
    }
}

fn method_text(alloc: Global, decls: &Decls<'_>, method: MethodId) -> Result<String, AllocError>
    requires { IsSome (method_at (world_seen decls.now) method) }
{
    let info = decls.method(method);
    let mut out = String::new(alloc);
    write!(out, "{}.{}(", info.class.as_str(), info.name.as_str())?;
    let mut is_first = true;
    for param in info.params.as_slice() {
        if !is_first {
            out.push(',')?;
        }
        put_type(&mut out, param)?;
        is_first = false;
    }
    out.push(')')?;
    Ok(out)
}

/// `method FROM CLASS NAME(TYPES)`
fn method(alloc: Global, decls: &Decls<'_>, words: &str) -> Result<String, AllocError> {
    let Some((from, rest)) = words.split_once(" ") else {
        return not_a_query(alloc);
    };
    let Some((class, call)) = rest.split_once(" ") else {
        return not_a_query(alloc);
    };
    let Some((called, types)) = call.split_once("(") else {
        return not_a_query(alloc);
    };
    let types = args(alloc, types.strip_suffix(")").unwrap_or(types))?;
    let from = name(alloc, from)?;
    let class = name(alloc, class)?;
    match decls.most_specific(&from, &class, &name(alloc, called)?, &types) {
        Choice::One(method) => method_text(alloc, decls, method),
        Choice::NoneApplies => none(alloc),
        Choice::Ambiguous => String::from_str(alloc, "ambiguous"),
    }
}

/// `subtype S T`
fn subtype(alloc: Global, decls: &Decls<'_>, words: &str) -> Result<String, AllocError> {
    let Some((s, t)) = words.split_once(" ") else {
        return not_a_query(alloc);
    };
    let holds = decls.subtype(&ty(alloc, s)?, &ty(alloc, t)?);
    yes_or_no(alloc, holds)
}

fn head_text(alloc: Global, head: &ClassHead) -> Result<String, AllocError> {
    let mut out = String::new(alloc);
    if head.is_abstract {
        out.push_str("abstract ")?;
    }
    out.push_str(if head.interface {
        "interface "
    } else {
        "class "
    })?;
    out.push_str(head.name.as_str())?;
    if let Some(superclass) = &head.superclass {
        write!(out, " below {}", superclass.as_str())?;
    }
    for interface in head.interfaces.as_slice() {
        write!(out, " is {}", interface.as_str())?;
    }
    Ok(out)
}

/// `head A`
fn head(alloc: Global, decls: &Decls<'_>, word: &str) -> Result<String, AllocError> {
    match decls.head(&name(alloc, word)?) {
        None => none(alloc),
        Some(head) => head_text(alloc, head),
    }
}

fn asked(alloc: Global, decls: &Decls<'_>, query: &str) -> Result<String, AllocError> {
    let Some((what, words)) = query.split_once(" ") else {
        return not_a_query(alloc);
    };
    match what {
        "constant" => constant(alloc, decls, words),
        "field" => field(alloc, decls, words),
        "method" => method(alloc, decls, words),
        "subtype" => subtype(alloc, decls, words),
        "head" => head(alloc, decls, words),
        _ => not_a_query(alloc),
    }
}

/// The answer to a query of the world that the units declare, `declared` to none, or why they are refused.
pub fn answer(alloc: Global, units: &[Unit], query: &str) -> Result<String, AllocError> {
    if units.is_empty() || units.len() > u32::MAX as usize {
        return String::from_str(alloc, "not units");
    }
    match declare(alloc, units, 0) {
        Err(stop) => refusal(alloc, &stop),
        Ok(decls) => {
            if query.is_empty() {
                String::from_str(alloc, "declared")
            } else {
                asked(alloc, &decls, query)
            }
        }
    }
}
