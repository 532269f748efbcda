//! Bytes as an object with its class records.

ghost use Rattle.std.specs.Prelude.{IfOk, IfErr};
ghost use Rattle.bcj_elf.specs.Plain.{plain};
ghost use Rattle.bcj_linker_objects.specs.Objects.{IsLinked};
ghost use Rattle.bcj_linker_objects.specs.Read as spec;

use bcj_elf::{ElfStop, Object, read, rec_start};
use bcj_tables::{ClassRecords, Records, TableStop, read_class};
use std::alloc::Global;

/// An object and the classes that it records.
#[derive(Drop)]
pub struct ReadObject {
    pub object: Object,
    pub classes: ClassRecords,
}

/// Why bytes are no object of a mixture.
#[derive(Drop)]
pub enum ObjectStop {
    /// `at` is the offset in the file of the first bad field.
    Bad { at: u32 },
    NoMemory,
}

/// The records of an object that these bytes spell.
fn with_records(alloc: Global, bytes: &[u8], object: Object) -> Result<ReadObject, ObjectStop>
    requires { spec.IsSpelled bytes.now (plain object) }
    ensures linked { IfOk result (λ r. IsLinked bytes.now (spec.linked_from r)) }
    ensures bad { IfErr result (spec.IsBadAt bytes.now) }
{
    match read_class(alloc, &object) {
        Ok(Records { classes, .. }) => Ok(ReadObject { object, classes }),
        Err(TableStop::NoMemory) => Err(ObjectStop::NoMemory),
        Err(TableStop::Bad { at }) => Err(ObjectStop::Bad {
            at: rec_start(bytes) + at,
        }),
    }
}

/// The object that these bytes are.
pub fn read_object(alloc: Global, bytes: &[u8]) -> Result<ReadObject, ObjectStop>
    ensures linked { IfOk result (λ r. IsLinked bytes.now (spec.linked_from r)) }
    ensures bad { IfErr result (spec.IsBadAt bytes.now) }
{
    match read(alloc, bytes) {
        Ok(object) => with_records(alloc, bytes, object),
        Err(ElfStop::NoMemory) => Err(ObjectStop::NoMemory),
        Err(ElfStop::Bad { at, .. }) => Err(ObjectStop::Bad { at }),
    }
}
