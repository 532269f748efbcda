//! The code of a body as it is made.

ghost use Rattle.std.specs.Prelude.{◌≡◌, []};
ghost use Rattle.bcj_lower_words.specs.Views.{lines_of};
ghost use Rattle.bcj_lower_bodies.specs.Views.{ranges_of};

use crate::range::LabelRange;
use bcj_lower_words::Lines;
use std::alloc::Global;

/// The lines and the ranges so far.
#[derive(Drop)]
pub struct Code<'a> {
    pub lines: Lines<'a>,
    pub ranges: Vec<LabelRange<'a>>,
}

impl<'a> Code<'a> {
    /// No code yet.
    pub fn new(alloc: Global) -> Code<'a>
        ensures lines { lines_of result.lines ≡ [] }
        ensures ranges { ranges_of result.ranges.items ≡ [] }
    {
        Code {
            lines: Lines::new(alloc),
            ranges: Vec::new(alloc),
        }
    }
}
