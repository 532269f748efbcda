//! Heads as rows write them.
use bcj_hier::ClassHead;
use bcj_names::Name;
use bcj_symbolic_trees::{Names, OBJECT, Sequence};
use std::alloc::{AllocError, Global};

const EXTENDS: &str = " extends ";

const IMPLEMENTS: &str = " implements ";

/// Names with a comma between them.
fn names(alloc: Global, text: Option<&str>) -> Result<Names, AllocError> {
    let mut names = Sequence::new(alloc);
    if let Some(text) = text {
        for word in text.split(", ") {
            names.push(Name::from_str(alloc, word)?)?;
        }
    }
    Ok(names)
}

/// The superclass that is named, and Object where none is; that of Object itself is none.
fn superclass(
    alloc: Global,
    name: &str,
    extended: Option<&str>,
) -> Result<Option<Name>, AllocError> {
    match extended {
        Some(word) => Ok(Some(Name::from_str(alloc, word)?)),
        None => {
            if name == OBJECT {
                Ok(None)
            } else {
                Ok(Some(Name::from_str(alloc, OBJECT)?))
            }
        }
    }
}

/// A text, and what stands behind a word in it.
fn split<'a>(text: &'a str, word: &str) -> (&'a str, Option<&'a str>) {
    match text.split_once(word) {
        None => (text, None),
        Some((front, behind)) => (front, Some(behind)),
    }
}

/// `NAME extends NAME implements NAME, NAME`
pub fn class(alloc: Global, text: &str) -> Result<ClassHead, AllocError> {
    let (front, implemented) = split(text, IMPLEMENTS);
    let (name, extended) = split(front, EXTENDS);
    Ok(ClassHead {
        name: Name::from_str(alloc, name)?,
        interface: false,
        is_abstract: false,
        superclass: superclass(alloc, name, extended)?,
        interfaces: names(alloc, implemented)?,
    })
}

/// `NAME extends NAME, NAME`
pub fn interface(alloc: Global, text: &str) -> Result<ClassHead, AllocError> {
    let (name, extended) = split(text, EXTENDS);
    Ok(ClassHead {
        name: Name::from_str(alloc, name)?,
        interface: true,
        is_abstract: false,
        superclass: None,
        interfaces: names(alloc, extended)?,
    })
}
