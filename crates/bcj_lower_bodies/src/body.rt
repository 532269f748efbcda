//! The code of a body, by labels.

use crate::range::LabelRange;
use bcj_lower_words::Lines;

/// The words of its frame, its lines, and its ranges.
#[derive(Drop)]
pub struct BodyLines<'a> {
    pub frame: u16,
    pub lines: Lines<'a>,
    pub ranges: Vec<LabelRange<'a>>,
}

/// An abstract method has no code.
#[derive(Drop)]
pub enum BodyCode<'a> {
    WithoutCode,
    WithCode(BodyLines<'a>),
}
