//! A command line with its files, and what it must answer.

use crate::spelling::{bytes, spelling};
use bcj_cli::top;
use bcj_edge::{Files, MemFiles, MemSink, ReadStop, Words};
use std::alloc::Global;

/// The most bytes that a sink takes.
const ROOM: u32 = 999;

/// The most words of a command.
const MAX_WORDS: usize = 99;

/// The most bytes of a file that is looked at behind a command.
const LOOKED_AT: u32 = 9_999;

/// What a line makes of a case.
#[derive(Drop)]
pub enum Line<'a> {
    Title(&'a str),
    Passed,
    /// It ends the case, with what was said to come and what came.
    Answer { wanted: String, came: String },
}

/// A case as far as its lines are read.
#[derive(Drop)]
pub struct Case<'a> {
    /// The words of the command, also of later cases that name none.
    pub words: &'a str,
    files: MemFiles,
    /// The name of the file whose text is being read, also of later cases that name none.
    name: &'a str,
    text: Vec<u8>,
    /// Whether the case itself named the file or gave it a text.
    is_begun: bool,
    status: &'a str,
    out: &'a str,
    err: &'a str,
    /// The file that is looked at behind the command, whether its bytes are only counted, and what is said of it.
    looked_at: &'a str,
    is_counted: bool,
    said: &'a str,
}

impl<'a> Case<'a> {
    pub fn new(alloc: Global) -> Case<'a> {
        Case {
            words: "",
            files: MemFiles::new(alloc),
            name: "",
            text: Vec::new(alloc),
            is_begun: false,
            status: "",
            out: "",
            err: "",
            looked_at: "",
            is_counted: false,
            said: "",
        }
    }

    /// Takes a line, and gives `None` where it is malformed or memory runs out. An empty line ends a case that has a status.
    pub fn take(&mut self, alloc: Global, line: &'a str) -> Option<Line<'a>> {
        if line.is_empty() {
            return self.end(alloc);
        }
        if line.starts_with('#') {
            return Some(Line::Passed);
        }
        let (kind, rest) = line.split_once(' ').unwrap_or((line, ""));
        if kind == "=" {
            return Some(Line::Title(rest));
        }
        self.set(alloc, kind, rest)?;
        Some(Line::Passed)
    }

    fn set(&mut self, alloc: Global, kind: &str, rest: &'a str) -> Option<()> {
        match kind {
            "words" => self.words = rest,
            "status" => self.status = rest,
            "out" => self.out = rest,
            "err" => self.err = rest,
            "file" => self.begin(rest)?,
            "behind" => self.look_at(rest, false),
            "size" => self.look_at(rest, true),
            _ => self.write(alloc, kind, rest)?,
        }
        Some(())
    }

    fn look_at(&mut self, given: &'a str, is_counted: bool) {
        let (name, said) = given.split_once(' ').unwrap_or((given, ""));
        self.looked_at = name;
        self.is_counted = is_counted;
        self.said = said;
    }

    /// Begins a file behind those that the case has.
    fn begin(&mut self, name: &'a str) -> Option<()> {
        if self.is_begun {
            self.store()?;
        }
        self.name = name;
        self.is_begun = true;
        Some(())
    }

    /// Adds to the text of the file: a spelled text, the same so many times with the number of each in place of `#`, or the
    /// class `Main` whose `main` has this body.
    fn write(&mut self, alloc: Global, kind: &str, rest: &str) -> Option<()> {
        self.is_begun = true;
        match kind {
            "text" => self.add(alloc, rest),
            "times" => self.repeat(alloc, rest),
            "main" => {
                self.add(alloc, "class Main { static void main() { ")?;
                self.add(alloc, rest)?;
                self.add(alloc, " } }")
            }
            _ => None,
        }
    }

    fn add(&mut self, alloc: Global, spelled: &str) -> Option<()> {
        let piece = bytes(alloc, spelled)?;
        self.text.extend_from_slice(piece.as_slice()).ok()
    }

    fn repeat(&mut self, alloc: Global, given: &str) -> Option<()> {
        let (count, spelled) = given.split_once(' ')?;
        let count: u32 = count.parse().ok()?;
        let piece = bytes(alloc, spelled)?;
        for turn in 0..count {
            self.add_turn(alloc, piece.as_slice(), turn)?;
        }
        Some(())
    }

    fn add_turn(&mut self, alloc: Global, piece: &[u8], turn: u32) -> Option<()> {
        for b in piece {
            if *b == b'#' {
                let number = format!(in alloc; "{turn}").ok()?;
                self.text.extend_from_slice(number.as_bytes()).ok()?;
            } else {
                self.text.push(*b).ok()?;
            }
        }
        Some(())
    }

    /// The file whose text was read is held with the others.
    fn store(&mut self) -> Option<()> {
        if !self.name.is_empty() {
            self.files.set(self.name, self.text.as_slice()).ok()?;
        }
        self.text.clear();
        Some(())
    }

    fn end(&mut self, alloc: Global) -> Option<Line<'a>> {
        if self.status.is_empty() {
            return Some(Line::Passed);
        }
        let wanted = answer(alloc, self.status, self.out, self.err, self.said)?;
        self.store()?;
        let came = self.run(alloc)?;
        self.is_begun = false;
        self.status = "";
        self.out = "";
        self.err = "";
        self.looked_at = "";
        self.said = "";
        Some(Line::Answer { wanted, came })
    }

    /// Does what the words ask for; then there is no file.
    fn run(&mut self, alloc: Global) -> Option<String> {
        let words = words_of(alloc, self.words)?;
        let mut out = MemSink::new(alloc, ROOM, None).ok()?;
        let mut err = MemSink::new(alloc, ROOM, None).ok()?;
        let status = top(alloc, &words, &mut self.files, &mut out, &mut err);
        let said = self.look(alloc)?;
        self.files = MemFiles::new(alloc);
        let status = format!(in alloc; "{status}").ok()?;
        let out = spelling(alloc, out.taken()).ok()?;
        let err = spelling(alloc, err.taken()).ok()?;
        answer(
            alloc,
            status.as_str(),
            out.as_str(),
            err.as_str(),
            said.as_str(),
        )
    }

    /// What is said of the file that is looked at.
    fn look(&mut self, alloc: Global) -> Option<String> {
        if self.looked_at.is_empty() {
            return Some(String::new(alloc));
        }
        match self.files.read(alloc, self.looked_at, LOOKED_AT) {
            Ok(bytes) if self.is_counted => {
                let count = bytes.as_slice().len();
                format!(in alloc; "{count}").ok()
            }
            Ok(bytes) => spelling(alloc, bytes.as_slice()).ok(),
            Err(ReadStop::Absent) => String::from_str(alloc, "absent").ok(),
            Err(_) => None,
        }
    }
}

fn answer(alloc: Global, status: &str, out: &str, err: &str, said: &str) -> Option<String> {
    format!(in alloc; "status {status}, out {out}, err {err}, behind {said}").ok()
}

/// Words with a space between them.
fn words_of(alloc: Global, spelled: &str) -> Option<Words> {
    let mut words = Words::new(alloc);
    for word in spelled.split(' ') {
        if words.len() >= MAX_WORDS {
            return None;
        }
        words.push(word).ok()?;
    }
    Some(words)
}
