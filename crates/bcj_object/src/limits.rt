//! The limits of a unit.

ghost use Rattle.std.specs.Prelude.{OnOk, IfErr};
ghost use Rattle.bcj_symbolic_trees.specs.Units.{plain_of};
ghost use Rattle.bcj_object_rules.specs.Sizes.{IsSmall};
ghost use Rattle.bcj_object.specs.Answers.{IsExcess};

use crate::stop::ObjectStop;
use bcj_object_rules::ObjectLimit;
use bcj_symbolic_measure::measure;
use bcj_symbolic_trees::SymUnit;
use std::alloc::Global;

/// The words of a frame.
const FRAME_LIMIT: u32 = 508;

/// The words of a method's code.
const METHOD_LIMIT: u32 = 200_000;

/// The bytes of an object file.
const OBJECT_LIMIT: u64 = 4_194_304;

/// Refuses a unit with a number past its limit.
pub fn within(alloc: Global, u: &SymUnit) -> Result<(), ObjectStop>
    ensures small { OnOk result (IsSmall (plain_of u.now)) }
    ensures too_large { IfErr result (λ e. IsExcess (plain_of u.now) e) }
{
    let measured = measure(alloc, u)?;
    if measured.frame > FRAME_LIMIT {
        return Err(ObjectStop::TooLarge {
            what: ObjectLimit::Frame,
        });
    }
    if measured.method > METHOD_LIMIT {
        return Err(ObjectStop::TooLarge {
            what: ObjectLimit::Method,
        });
    }
    if measured.object > OBJECT_LIMIT {
        return Err(ObjectStop::TooLarge {
            what: ObjectLimit::Object,
        });
    }
    Ok(())
}
