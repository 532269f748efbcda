//! Ranges of code that catches guard, by labels.

ghost use Rattle.std.specs.Prelude.{◌≡◌, ◌++◌, map, OnOk};
ghost use Rattle.bcj_symbolic_trees.specs.Plain.{catches_of};
ghost use Rattle.bcj_lower_rules.specs.Ranges as spec;
ghost use Rattle.bcj_lower_bodies.specs.Views.{range_of, ranges_of};

use crate::counting::behind;
use bcj_symbolic_trees::{Name, SymCatch};
use std::alloc::AllocError;

/// The code from `start` to `end`, by labels, and where what is thrown there goes: an object of the class, or with no class whatever it is.
#[derive(Clone, Copy)]
pub struct LabelRange<'a> {
    pub start: u32,
    pub end: u32,
    pub target: u32,
    pub class: Option<&'a Name>,
}

/// The ranges of a `try` itself, with the labels of its catches from `target` on.
pub fn own_ranges<'a>(
    catches: &'a [SymCatch],
    start: u32,
    end: u32,
    target: u32,
    ranges: &mut Vec<LabelRange<'a>>,
) -> Result<(), AllocError>
    ensures { OnOk result (ranges_of ranges.new.items ≡ ranges_of ranges.old.items ++ spec.own_ranges start end target (catches_of catches.now)) }
{
    let mut next = target;
    for handler in catches {
        ranges.push(LabelRange {
            start,
            end,
            target: next,
            class: Some(&handler.class),
        })?;
        next = behind(next, 1)?;
    }
    Ok(())
}
