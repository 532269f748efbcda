//! A line of standard input.

use crate::assembling::assembled;
use crate::number::number;
use crate::object::{changed, extend, part};
use crate::running::step;
use rv_isa::{decode, encode};
use std::alloc::Global;

/// What a line is.
#[derive(Drop)]
pub enum Line<'a> {
    Title(&'a str),
    /// It is empty, a remark or a part of a file.
    Passed,
    Row { wanted: &'a str, came: String },
}

/// What later lines speak of.
#[derive(Drop)]
pub struct Bench {
    /// The word of the machine's next steps.
    word: u32,
    /// The object file.
    file: Vec<u8>,
}

impl Bench {
    pub fn new(alloc: Global) -> Bench {
        Bench {
            word: 0,
            file: Vec::new(alloc),
        }
    }

    /// What a line is, and `None` where it is malformed or memory runs out.
    pub fn take<'a>(&mut self, alloc: Global, line: &'a str) -> Option<Line<'a>> {
        if line.is_empty() || line.starts_with('#') {
            return Some(Line::Passed);
        }
        let (kind, rest) = line.split_once(' ')?;
        match kind {
            "=" => Some(Line::Title(rest)),
            "file" => {
                self.file.clear();
                Some(Line::Passed)
            }
            "name" | "bytes" | "words" => {
                extend(&mut self.file, kind, rest)?;
                Some(Line::Passed)
            }
            "word" | "other" => self.word(alloc, kind, rest),
            _ => self.row(alloc, kind, rest),
        }
    }

    /// A word with its instruction, or one that no instruction has.
    fn word<'a>(&mut self, alloc: Global, kind: &str, rest: &'a str) -> Option<Line<'a>> {
        let (word, text) = rest.split_once(' ')?;
        self.word = number(word)?;
        let wanted = if kind == "word" { text } else { "nothing" };
        let came = spelled(alloc, self.word)?;
        Some(Line::Row { wanted, came })
    }

    /// What is given and what comes of it, with a colon between them.
    fn row<'a>(&self, alloc: Global, kind: &str, rest: &'a str) -> Option<Line<'a>> {
        let (given, wanted) = rest.split_once(": ")?;
        let came = match kind {
            "step" => step(alloc, self.word, given)?,
            "assemble" => assembled(alloc, given)?,
            "part" => part(alloc, self.file.as_slice(), given)?,
            _ => changed(alloc, self.file.as_slice(), kind, given)?,
        };
        Some(Line::Row { wanted, came })
    }
}

/// The instruction of a word, where its own word is this one.
fn spelled(alloc: Global, word: u32) -> Option<String> {
    match decode(word) {
        Some(i) if encode(i) == word => rv_isa_text::text(alloc, i).ok(),
        Some(_) => String::from_str(alloc, "an instruction of another word").ok(),
        None => String::from_str(alloc, "nothing").ok(),
    }
}
