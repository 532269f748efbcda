//! A line of standard input.

use crate::object::{changed, extend, verdict};
use std::alloc::Global;

/// What a line is.
#[derive(Drop)]
pub enum Line<'a> {
    Title(&'a str),
    /// It is empty, a remark or a part of a file or of records.
    Passed,
    Row { wanted: &'a str, came: String },
}

/// What later lines speak of.
#[derive(Drop)]
pub struct Bench {
    /// The object file.
    file: Vec<u8>,
    /// The records that stand in it in place of its own.
    records: Vec<u8>,
}

impl Bench {
    pub fn new(alloc: Global) -> Bench {
        Bench {
            file: Vec::new(alloc),
            records: Vec::new(alloc),
        }
    }

    /// What a line is, and `None` where it is malformed or memory runs out.
    pub fn take<'a>(&mut self, alloc: Global, line: &'a str) -> Option<Line<'a>> {
        if line.is_empty() || line.starts_with('#') {
            return Some(Line::Passed);
        }
        let (kind, rest) = line.split_once(' ')?;
        match kind {
            "=" => return Some(Line::Title(rest)),
            "begin" => self.begin(rest)?,
            "name" | "bytes" | "words" | "zeros" => extend(&mut self.file, kind, rest)?,
            "u8" | "u32" | "str" => extend(&mut self.records, kind, rest)?,
            _ => return self.row(alloc, kind, rest),
        }
        Some(Line::Passed)
    }

    fn begin(&mut self, what: &str) -> Option<()> {
        match what {
            "file" => self.file.clear(),
            "records" => self.records.clear(),
            _ => return None,
        }
        Some(())
    }

    /// What is given and what comes of it, with a colon between them.
    fn row<'a>(&self, alloc: Global, kind: &str, rest: &'a str) -> Option<Line<'a>> {
        let (given, wanted) = rest.split_once(": ")?;
        let records = self.records.as_slice();
        let file = self.file.as_slice();
        let came = match kind {
            "records" => verdict(alloc, file, Vec::from_slice(alloc, records).ok()?)?,
            "file" => {
                let other = changed(alloc, file, kind, given)?;
                verdict(
                    alloc,
                    other.as_slice(),
                    Vec::from_slice(alloc, records).ok()?,
                )?
            }
            _ => verdict(alloc, file, changed(alloc, records, kind, given)?)?,
        };
        Some(Line::Row { wanted, came })
    }
}
