//! How a source is written in a row: a byte as `\n`, `\r`, `\t`, `\\` or `\x1a`, 253 parentheses as `253 (` between backquotes,
//! and `#` before the byte whose place the outcome has. Every other byte stands for itself.
use std::alloc::{AllocError, Global};

/// The bytes of a source, and how many of them stand before its mark.
#[derive(Drop)]
pub struct Source {
    pub bytes: Vec<u8>,
    pub mark: Option<usize>,
    is_wrong: bool,
}

/// What the next byte of a row is; `LowDigit` has what the digit before it adds.
#[derive(Clone, Copy)]
enum Next {
    Plain,
    Escape,
    HighDigit,
    LowDigit(u8),
}

fn digit(byte: u8) -> Option<u8> {
    match byte {
        b'0'..=b'9' => Some(byte - b'0'),
        b'a'..=b'f' => Some(byte - b'a' + 10),
        _ => None,
    }
}

impl Source {
    fn new(alloc: Global) -> Source {
        Source {
            bytes: Vec::new(alloc),
            mark: None,
            is_wrong: false,
        }
    }

    fn put(&mut self, byte: u8) -> Result<Next, AllocError> {
        self.bytes.push(byte)?;
        Ok(Next::Plain)
    }

    fn refuse(&mut self) -> Next {
        self.is_wrong = true;
        Next::Plain
    }

    fn put_mark(&mut self) -> Next {
        if self.mark.is_some() {
            return self.refuse();
        }
        self.mark = Some(self.bytes.len());
        Next::Plain
    }

    fn read_plain(&mut self, byte: u8) -> Result<Next, AllocError> {
        match byte {
            b'\\' => Ok(Next::Escape),
            b'#' => Ok(self.put_mark()),
            _ => self.put(byte),
        }
    }

    fn read_escape(&mut self, byte: u8) -> Result<Next, AllocError> {
        match byte {
            b'n' => self.put(b'\n'),
            b'r' => self.put(b'\r'),
            b't' => self.put(b'\t'),
            b'\\' => self.put(b'\\'),
            b'x' => Ok(Next::HighDigit),
            _ => Ok(self.refuse()),
        }
    }

    fn read(&mut self, next: Next, byte: u8) -> Result<Next, AllocError> {
        match (next, digit(byte)) {
            (Next::Plain, _) => self.read_plain(byte),
            (Next::Escape, _) => self.read_escape(byte),
            (Next::HighDigit, Some(digit)) => Ok(Next::LowDigit(digit << 4)),
            (Next::LowDigit(high), Some(digit)) => self.put(high | digit),
            _ => Ok(self.refuse()),
        }
    }

    fn add(&mut self, notation: &str) -> Result<(), AllocError> {
        let mut next = Next::Plain;
        for byte in notation.as_bytes() {
            next = self.read(next, *byte)?;
        }
        if !matches!(next, Next::Plain) {
            self.refuse();
        }
        Ok(())
    }

    fn add_part(&mut self, part: &Source, count: u32) -> Result<(), AllocError> {
        if part.is_wrong || part.mark.is_some() {
            self.refuse();
        }
        for _ in 0..count {
            self.bytes.extend_from_slice(part.bytes.as_slice())?;
        }
        Ok(())
    }

    /// `COUNT PART`
    fn add_repeated(&mut self, alloc: Global, notation: &str) -> Result<(), AllocError> {
        let (count, part) = notation.split_once(" ").unwrap_or(("", notation));
        let Ok(count) = count.parse::<u32>() else {
            self.refuse();
            return Ok(());
        };
        let mut repeated = Source::new(alloc);
        repeated.add(part)?;
        self.add_part(&repeated, count)
    }
}

/// The source that a row writes, if it writes one.
pub fn spelled(alloc: Global, notation: &str) -> Result<Option<Source>, AllocError> {
    let mut source = Source::new(alloc);
    let mut repeats = false;
    for piece in notation.split("`") {
        if repeats {
            source.add_repeated(alloc, piece)?;
        } else {
            source.add(piece)?;
        }
        repeats = !repeats;
    }
    Ok(if source.is_wrong || !repeats {
        None
    } else {
        Some(source)
    })
}
