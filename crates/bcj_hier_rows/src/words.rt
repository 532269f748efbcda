//! Types, errors and refusals as rows write them.
use crate::text::Text;
use bcj_hier::{ClassHead, ClassId, HierStop, LinkError};
use bcj_names::Name;
use bcj_symbolic_trees::Ty;
use sqlite_items::Boxed;
use std::alloc::{AllocError, Global};

const BRACKETS: &str = "[]";

fn element(alloc: Global, word: &str) -> Result<Ty, AllocError> {
    Ok(match word {
        "int" => Ty::Int,
        "boolean" => Ty::Bool,
        "void" => Ty::Void,
        _ => Ty::Class(Name::from_str(alloc, word)?),
    })
}

/// A type with its pairs of brackets.
pub fn ty(alloc: Global, text: &str) -> Result<Ty, AllocError> {
    let (word, pairs) = match text.split_once(BRACKETS) {
        None => (text, 0),
        Some((word, rest)) => (word, rest.len() / BRACKETS.len() + 1),
    };
    let mut ty = element(alloc, word)?;
    for _ in 0..pairs {
        ty = Ty::Array(Boxed::new(alloc, ty)?);
    }
    Ok(ty)
}

fn error(error: LinkError) -> &'static str {
    match error {
        LinkError::ClassCircularity => "ClassCircularityError",
        LinkError::NoClassDefFound => "NoClassDefFoundError",
        LinkError::Verify => "VerifyError",
        LinkError::IncompatibleClassChange => "IncompatibleClassChangeError",
        LinkError::ExceptionInInitializer => "ExceptionInInitializerError",
        LinkError::NoSuchField => "NoSuchFieldError",
        LinkError::NoSuchMethod => "NoSuchMethodError",
        LinkError::Instantiation => "InstantiationError",
        LinkError::IllegalAccess => "IllegalAccessError",
        LinkError::AbstractMethod => "AbstractMethodError",
    }
}

/// A word where all is well, and else the error.
pub fn put_result(out: &mut Text, came: Result<(), LinkError>, well: &str) {
    out.put(match came {
        Ok(()) => well,
        Err(why) => error(why),
    });
}

pub fn put_truth(out: &mut Text, holds: bool) {
    out.put(if holds { "yes" } else { "no" });
}

/// The name of a type.
pub fn put_name(out: &mut Text, heads: &[ClassHead], class: ClassId) {
    match heads.get(class.0 as usize) {
        None => out.put("a number of no type"),
        Some(head) => out.put(head.name.as_str()),
    }
}

/// The name of a type, or `none`.
pub fn put_option(out: &mut Text, heads: &[ClassHead], class: Option<ClassId>) {
    match class {
        None => out.put("none"),
        Some(class) => put_name(out, heads, class),
    }
}

/// Why heads have no hierarchy.
pub fn put_refusal(out: &mut Text, stop: &HierStop) {
    match stop {
        HierStop::Duplicate {
            name,
            first,
            second,
        } => {
            out.put("duplicate ");
            out.put(name.as_str());
            out.put(" ");
            out.put_number(*first as usize);
            out.put(" ");
            out.put_number(*second as usize);
        }
        HierStop::TooMany => out.put("too many"),
        HierStop::NoMemory => out.put("no memory"),
    }
}
