//! The records of classes (JVMS 4.1 has their like).

ghost use Rattle.std.specs.Prelude.{◌≡◌, map, IfOk};
ghost use Rattle.bcj_tables_rules.specs.Spelling.{spelling};
ghost use Rattle.bcj_object_rules.specs.Objects as spec;
ghost use Rattle.bcj_object.specs.function.Views.{placed_in};

use crate::placing::PlacedClass;
use bcj_object_records::class_record;
use bcj_symbolic_trees::Sequence;
use bcj_tables::{ClassRecord, ClassRecords, Records, write_classes};
use std::alloc::{AllocError, Global};

/// The version of records that can say that a member is private.
const VERSION: u32 = 2;

fn placed_record<'a>(alloc: Global, p: &PlacedClass<'a>) -> Result<ClassRecord, AllocError>
    ensures { IfOk result (λ r. r ≡ spec.placed_record (placed_in p.now)) }
{
    class_record(alloc, p.place.text, p.place.tab, p.class, &p.code)
}

fn placed_records<'a>(alloc: Global, placed: &[PlacedClass<'a>]) -> Result<ClassRecords, AllocError>
    ensures { IfOk result (λ rs. rs ≡ map spec.placed_record (map placed_in placed.now)) }
{
    let mut all = Sequence::new(alloc);
    for p in placed {
        all.push(placed_record(alloc, p)?)?;
    }
    Ok(all)
}

/// The contents of `.bcj.rec`.
pub fn records<'a>(alloc: Global, placed: &[PlacedClass<'a>]) -> Result<Vec<u8>, AllocError>
    ensures { IfOk result (λ v. v.items
        ≡ spelling (record { version = spec.current_version; classes = map spec.placed_record (map placed_in placed.now) })) }
{
    let records = Records {
        version: VERSION,
        classes: placed_records(alloc, placed)?,
    };
    write_classes(alloc, &records)
}
