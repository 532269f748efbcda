//! A text that rows write, which remembers that memory failed.
use std::alloc::{AllocError, Global};

/// What was written so far, and whether there was no memory for some of it.
#[derive(Drop)]
pub struct Text {
    written: String,
    is_cut: bool,
}

impl Text {
    pub fn new(alloc: Global) -> Text {
        Text {
            written: String::new(alloc),
            is_cut: false,
        }
    }

    pub fn put(&mut self, piece: &str) {
        if self.written.push_str(piece).is_err() {
            self.is_cut = true;
        }
    }

    pub fn put_number(&mut self, number: usize) {
        if write!(self.written, "{number}").is_err() {
            self.is_cut = true;
        }
    }

    /// The text, where memory didn't fail.
    pub fn ended(self) -> Result<String, AllocError> {
        let Text { written, is_cut } = self;
        if is_cut { Err(AllocError) } else { Ok(written) }
    }
}
