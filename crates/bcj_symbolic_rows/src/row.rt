//! A line of standard input.

use crate::unit::unit_of;
use crate::{answer, class_text};
use std::alloc::Global;

/// What a line is.
#[derive(Drop)]
pub enum Line<'a> {
    Title(&'a str),
    /// It is empty, a remark, or says something of the lines behind it.
    Passed,
    Row { wanted: &'a str, came: String },
}

/// What the rows of a section stand in.
#[derive(Clone, Copy)]
pub struct Bench<'a> {
    /// The text before and behind that of a row.
    before: &'a str,
    behind: &'a str,
    /// The frame and the words that a row doesn't count.
    frame: u32,
    words: u32,
}

impl<'a> Bench<'a> {
    pub fn new() -> Bench<'a> {
        Bench {
            before: "",
            behind: "",
            frame: 0,
            words: 0,
        }
    }

    /// What a line is, and `None` where it is malformed or memory runs out.
    pub fn take(&mut self, alloc: Global, line: &'a str) -> Option<Line<'a>> {
        if line.is_empty() || line.starts_with('#') {
            return Some(Line::Passed);
        }
        let (kind, rest) = line.split_once(' ')?;
        match kind {
            "=" => {
                *self = Bench::new();
                Some(Line::Title(rest))
            }
            "in" => self.surround(rest),
            "beside" => self.set_beside(rest),
            _ => self.row(alloc, kind, rest),
        }
    }

    /// The text round that of each row, with dots in its place.
    fn surround(&mut self, rest: &'a str) -> Option<Line<'a>> {
        let (before, behind) = rest.split_once("...")?;
        self.before = before;
        self.behind = behind;
        Some(Line::Passed)
    }

    fn set_beside(&mut self, rest: &str) -> Option<Line<'a>> {
        let (frame, words) = rest.split_once(' ')?;
        self.frame = frame.parse().ok()?;
        self.words = words.parse().ok()?;
        Some(Line::Passed)
    }

    /// What is given and what comes of it, with an arrow between them; a remark may stand behind a sign.
    fn row(&self, alloc: Global, kind: &str, rest: &'a str) -> Option<Line<'a>> {
        let (row, _) = rest.split_once(" # ").unwrap_or((rest, ""));
        let (given, wanted) = row.split_once(" => ")?;
        let came = self.came(alloc, kind, given)?;
        Some(Line::Row { wanted, came })
    }

    fn came(&self, alloc: Global, kind: &str, given: &str) -> Option<String> {
        if kind == "boot" {
            return class_text::of_boot(alloc, given);
        }
        let unit = unit_of(alloc, self.before, given, self.behind)?;
        match kind {
            "check" => answer::checked(alloc, &unit),
            "measure" => answer::measured(alloc, &unit),
            "code" => answer::coded(alloc, &unit, self.frame, self.words),
            _ => None,
        }
    }
}
