//! Copies of heads, in memory of their own.

ghost use Rattle.std.specs.Prelude.{◌≡◌, IfOk};

use bcj_names::Name;
use bcj_symbolic_trees::{ClassHead, Names, Sequence};
use std::alloc::{AllocError, Global};

fn copy_option(alloc: Global, name: &Option<Name>) -> Result<Option<Name>, AllocError>
    ensures { IfOk result (λ n. n ≡ name.now) }
{
    match name {
        None => Ok(None),
        Some(name) => Ok(Some(name.copy(alloc)?)),
    }
}

fn copy_names(alloc: Global, names: &[Name]) -> Result<Names, AllocError>
    ensures { IfOk result (λ ns. ns ≡ names.now) }
{
    let mut copies = Sequence::new(alloc);
    for name in names {
        copies.push(name.copy(alloc)?)?;
    }
    Ok(copies)
}

fn copy_head(alloc: Global, head: &ClassHead) -> Result<ClassHead, AllocError>
    ensures { IfOk result (λ h. h ≡ head.now) }
{
    Ok(ClassHead {
        name: head.name.copy(alloc)?,
        interface: head.interface,
        is_abstract: head.is_abstract,
        superclass: copy_option(alloc, &head.superclass)?,
        interfaces: copy_names(alloc, head.interfaces.as_slice())?,
    })
}

/// The same heads.
pub fn copy_heads(alloc: Global, heads: &[ClassHead]) -> Result<Sequence<ClassHead>, AllocError>
    ensures { IfOk result (λ hs. hs ≡ heads.now) }
{
    let mut copies = Sequence::new(alloc);
    for head in heads {
        copies.push(copy_head(alloc, head)?)?;
    }
    Ok(copies)
}
