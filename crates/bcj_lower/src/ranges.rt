//! The ranges of a body.

ghost use Rattle.std.specs.Prelude.{◌≡◌, ◌+◌, ◌*◌, List, [], ◌∷◌, ◌++◌, map, IfOk, OnOk};
ghost use Rattle.bcj_lower_rules.specs.Lines.{Line};
ghost use Rattle.bcj_lower_rules.specs.Words.{word_size};
ghost use Rattle.bcj_lower_rules.specs.Classes.{ranges_at};
ghost use Rattle.bcj_lower_bodies.specs.Views.{range_of};
ghost use Rattle.bcj_lower.specs.Views.{range_in};
ghost use Rattle.bcj_lower.specs.function.Labels.{label_place, HasPlaces};

use crate::code::CodeRange;
use crate::labels::LabelPlaces;
use crate::numbers::{bytes, plus};
use bcj_lower_bodies::LabelRange;
use std::alloc::AllocError;

/// The offset of a label in code that begins at a word of the class.
fn label_offset(labels: &LabelPlaces, start: usize, label: u32) -> Result<u32, AllocError>
    ensures { IfOk result (λ n. n ≡ word_size * (start + label_place labels.now label)) }
{
    bytes(plus(start, labels.place(label))?)
}

fn range<'a>(
    labels: &LabelPlaces,
    method: u32,
    start: usize,
    range: &LabelRange<'a>,
) -> Result<CodeRange<'a>, AllocError>
    ensures { IfOk result (λ r. (lines : List Line) → HasPlaces labels.now lines
        → range_in r ∷ [] ≡ ranges_at method start lines (range_of range.now ∷ [])) }
{
    Ok(CodeRange {
        method,
        start: label_offset(labels, start, range.start)?,
        end: label_offset(labels, start, range.end)?,
        target: label_offset(labels, start, range.target)?,
        class: range.class,
    })
}

/// Adds the ranges of the method of this number, whose labels have these places.
pub fn push_ranges<'a>(
    labels: &LabelPlaces,
    method: u32,
    start: usize,
    ranges: &[LabelRange<'a>],
    all: &mut Vec<CodeRange<'a>>,
) -> Result<(), AllocError>
    ensures { OnOk result ((lines : List Line) → HasPlaces labels.now lines
        → map range_in all.new.items ≡ map range_in all.old.items ++ ranges_at method start lines (map range_of ranges.now)) }
{
    for one in ranges {
        all.push(range(labels, method, start, one)?)?;
    }
    Ok(())
}
