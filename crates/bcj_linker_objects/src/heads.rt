//! Copies of heads.

ghost use Rattle.std.specs.Prelude.{◌≡◌, IfOk};
ghost use Rattle.bcj_linker_objects.specs.Names.{heads_in};

use bcj_hier::Heads;
use bcj_names::Name;
use bcj_symbolic_trees::{ClassHead, Names, Sequence};
use bcj_tables_rules::ClassRecord;
use std::alloc::{AllocError, Global};

fn copy_names(alloc: Global, names: &[Name]) -> Result<Names, AllocError>
    ensures { IfOk result (λ copies. copies ≡ names.now) }
{
    let mut copies = Sequence::new(alloc);
    for name in names {
        copies.push(name.copy(alloc)?)?;
    }
    Ok(copies)
}

fn copy_superclass(alloc: Global, class: &Option<Name>) -> Result<Option<Name>, AllocError>
    ensures { IfOk result (λ copy. copy ≡ class.now) }
{
    match class {
        None => Ok(None),
        Some(class) => Ok(Some(class.copy(alloc)?)),
    }
}

fn copy_head(alloc: Global, head: &ClassHead) -> Result<ClassHead, AllocError>
    ensures { IfOk result (λ copy. copy ≡ head.now) }
{
    Ok(ClassHead {
        name: head.name.copy(alloc)?,
        interface: head.interface,
        is_abstract: head.is_abstract,
        superclass: copy_superclass(alloc, &head.superclass)?,
        interfaces: copy_names(alloc, head.interfaces.as_slice())?,
    })
}

/// The heads of classes, in memory of their own.
pub fn heads_of(alloc: Global, classes: &[ClassRecord]) -> Result<Heads, AllocError>
    ensures { IfOk result (λ heads. heads ≡ heads_in classes.now) }
{
    let mut heads = Sequence::new(alloc);
    for class in classes {
        heads.push(copy_head(alloc, &class.head)?)?;
    }
    Ok(heads)
}
