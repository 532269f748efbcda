//! The record of a class.

ghost use Rattle.std.specs.Prelude.{◌≡◌, IfOk};
ghost use Rattle.bcj_symbolic_trees.specs.Units.{class_of};
ghost use Rattle.bcj_lower.specs.Views.{code_in};
ghost use Rattle.bcj_object_rules.specs.Records as spec;

use crate::entries::{aentries, centries, ientries, oentries};
use crate::heads::copy_head;
use crate::members::{field_records, method_records, pair_records, range_records};
use bcj_lower::ClassCode;
use bcj_symbolic_trees::SymClass;
use bcj_tables_rules::ClassRecord;
use std::alloc::{AllocError, Global};

/// The record of a class with this code, which begins at `text` in `.text`, and whose tables begin at `tab` in `.bcj.tab`. An offset past 32
/// bits is more than any memory holds.
#[tactic(auto, unfolding(bcj_object_rules::specs::Records::class_record))]
pub fn class_record<'a>(
    alloc: Global,
    text: u32,
    tab: u32,
    class: &SymClass,
    code: &ClassCode<'a>,
) -> Result<ClassRecord, AllocError>
    ensures { IfOk result (λ r. r ≡ spec.class_record text tab (class_of class.now) (code_in code.now)) }
{
    Ok(ClassRecord {
        head: copy_head(alloc, &class.head)?,
        fields: field_records(alloc, class.fields.as_slice())?,
        methods: method_records(
            alloc,
            text,
            class.methods.as_slice(),
            code.methods.as_slice(),
        )?,
        ranges: range_records(alloc, text, code.ranges.as_slice())?,
        pairs: pair_records(alloc, class.pairs.as_slice())?,
        ctable: centries(alloc, code.ctable.as_slice())?,
        otable: oentries(alloc, code.otable.as_slice())?,
        atable: aentries(alloc, code.atable.as_slice())?,
        itable: ientries(alloc, code.itable.as_slice())?,
        table: tab,
    })
}
