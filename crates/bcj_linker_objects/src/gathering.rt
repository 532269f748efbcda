//! The objects so far, with their classes in one list.

ghost use Rattle.std.specs.Prelude.{◌≡◌, ◌<◌, ◌^◌, List, ℕ, [], ◌∷◌, ◌++◌, length, IfOk, IfErr, OnOk};
ghost use Rattle.bcj_linker_objects.specs.Objects.{IsLinked};
ghost use Rattle.bcj_linker_objects.specs.Read.{linked_from};
ghost use Rattle.bcj_linker_objects.specs.Steps as spec;
ghost use Rattle.bcj_linker_objects.specs.Stops.{IsStopOf};

use crate::gathered::GatheredObject;
use crate::names::{Owners, note};
use crate::reading::{ObjectStop, ReadObject, read_object};
use crate::stop::LinkStop;
use bcj_symbolic_trees::Sequence;
use bcj_tables_rules::{ClassRecord, ClassRecords};
use std::alloc::{AllocError, Global};
use std::collections::HashMap;

/// The objects so far.
#[derive(Drop)]
pub struct Gathering {
    pub owners: Owners,
    pub classes: ClassRecords,
    pub objects: Sequence<GatheredObject>,
}

/// Puts the second list behind the first.
fn joined(first: ClassRecords, second: ClassRecords) -> Result<ClassRecords, AllocError>
    ensures { IfOk result (λ all. all ≡ first ++ second) }
{
    let mut all = first;
    for class in second.into_vec() {
        all.push(class)?;
    }
    Ok(all)
}

/// No object.
pub fn nothing(alloc: Global) -> Gathering
    ensures { spec.Gathers [] result }
{
    Gathering {
        owners: HashMap::new(alloc),
        classes: Sequence::new(alloc),
        objects: Sequence::new(alloc),
    }
}

/// The object that these bytes are, which has this number.
fn read_numbered(alloc: Global, bytes: &[u8], number: u32) -> Result<ReadObject, LinkStop>
    ensures linked { IfOk result (λ r. IsLinked bytes.now (linked_from r)) }
    ensures err { IfErr result (spec.IsReadStop bytes.now number) }
{
    match read_object(alloc, bytes) {
        Ok(read) => Ok(read),
        Err(ObjectStop::Bad { at }) => Err(LinkStop::Malformed { object: number, at }),
        Err(ObjectStop::NoMemory) => Err(LinkStop::NoMemory),
    }
}

impl Gathering {
    /// Notes the name of a class of an object.
    fn note_class(
        &mut self,
        alloc: Global,
        class: &ClassRecord,
        object: u32,
    ) -> Result<(), LinkStop>
        ensures ok { OnOk result (spec.AddsName self.old self.new class.now object) }
        ensures err { IfErr result (spec.IsTaken self.old class.now object) }
    {
        match note(alloc, &mut self.owners, &class.head.name, object)? {
            None => Ok(()),
            Some(first) => Err(LinkStop::Duplicate {
                name: class.head.name.copy(alloc)?,
                first,
                second: object,
            }),
        }
    }

    /// Notes the names of the classes of an object.
    fn note_classes(
        &mut self,
        alloc: Global,
        classes: &[ClassRecord],
        object: u32,
    ) -> Result<(), LinkStop>
        ensures ok { OnOk result (spec.AddsNames self.old self.new classes.now object) }
        ensures err { IfErr result (spec.IsNameStop self.old classes.now object) }
    {
        for class in classes {
            self.note_class(alloc, class, object)?;
        }
        Ok(())
    }

    /// Takes an object in, behind the others. The names of its classes are noted.
    fn put(self, alloc: Global, read: ReadObject) -> Result<Gathering, AllocError>
        requires few { length read.classes < 2 ^ 32 }
        ensures { IfOk result (spec.Puts self read) }
    {
        let Gathering {
            owners,
            classes,
            mut objects,
        } = self;
        let count = read.classes.len() as u32;
        objects.push(GatheredObject {
            object: read.object,
            classes: count,
        })?;
        let classes = joined(classes, read.classes)?;
        Ok(Gathering {
            owners,
            classes,
            objects,
        })
    }

    /// Reads the object with this number, and takes it in.
    pub fn add(self, alloc: Global, bytes: &[u8], number: u32) -> Result<Gathering, LinkStop>
        ensures ok { IfOk result (λ g. (all : List (List ℕ)) → length all ≡ number → spec.Gathers all self → spec.Gathers (all ++ bytes.now ∷ []) g) }
        ensures err { IfErr result (λ e. (all others : List (List ℕ)) → length all ≡ number → spec.Gathers all self → IsStopOf (all ++ bytes.now ∷ others) e) }
    {
        let read = read_numbered(alloc, bytes, number)?;
        let mut gathering = self;
        gathering.note_classes(alloc, read.classes.as_slice(), number)?;
        Ok(gathering.put(alloc, read)?)
    }
}
