//! Bytes that are read field by field. A field that is refused stays.

ghost use Rattle.std.specs.Prelude.{◌≡◌, length, IfOk, IsTrue};
ghost use Rattle.bcj_tables_rules.specs.Steps as spec;

use bcj_tables_rules::Stop;
use std::marker::Model;

/// The bytes of a count, an offset or a length.
pub const WORD_SIZE: usize = 4;

/// The first byte that is no ASCII character.
const ASCII_END: u8 = 128;

/// Whether each byte is an ASCII character.
fn is_ascii(text: &[u8]) -> bool
    ensures { result ≡ spec.is_ascii text.now }
{
    text.iter().all(|byte| *byte < ASCII_END)
}

/// The bytes that are still to be read.
#[derive(Drop)]
pub struct Cursor<'a> {
    left: &'a [u8],
}

impl<'a> Model for Cursor<'a> {
    ghost use Rattle.std.specs.Prelude.{List, ℕ};

    ghost Value = { List ℕ };

    ghost view = { λ c. c.left.now };
}

impl<'a> Cursor<'a> {
    pub fn new(bytes: &'a [u8]) -> Cursor<'a>
        ensures { result ≡ bytes.now }
    {
        Cursor { left: bytes }
    }

    /// How many bytes are left.
    pub fn len(&self) -> usize
        ensures { result ≡ length self.now }
    {
        self.left.len()
    }

    /// The next byte, and 0 at the end.
    #[tactic(auto, unfolding(bcj_tables_rules::specs::Steps::next_byte))]
    pub fn next_byte(&self) -> u8
        ensures { result ≡ spec.next_byte self.now }
    {
        match self.left {
            [] => 0,
            [byte, ..] => *byte,
        }
    }

    /// The next byte, where it is good.
    #[tactic(auto, unfolding(bcj_tables_rules::specs::Steps::next_byte, bcj_tables_rules::specs::Steps::byte_reading))]
    pub fn take_byte(&mut self, good: bool) -> Result<u8, Stop>
        ensures { spec.Reads (λ n. n) (spec.byte_reading good self.old) result self.new }
    {
        let byte = self.next_byte();
        if self.left.is_empty() || !good {
            return Err(Stop::Bad);
        }
        self.left = &self.left[1..];
        Ok(byte)
    }

    /// The next word, little-endian, and 0 where the end cuts it.
    #[tactic(auto, unfolding(bcj_tables_rules::specs::Steps::next_word))]
    pub fn next_word(&self) -> u32
        ensures { result ≡ spec.next_word self.now }
    {
        if self.left.len() < WORD_SIZE {
            return 0;
        }
        u32::from_le_bytes([self.left[0], self.left[1], self.left[2], self.left[3]])
    }

    /// The next word, where it is good.
    #[tactic(auto, unfolding(bcj_tables_rules::specs::Steps::word_reading))]
    pub fn take_word(&mut self, good: bool) -> Result<u32, Stop>
        ensures reads { spec.Reads (λ n. n) (spec.word_reading good self.old) result self.new }
        ensures tested { IfOk result (λ n. IsTrue good × (n ≡ spec.next_word self.old)) }
    {
        let word = self.next_word();
        if self.left.len() < WORD_SIZE || !good {
            return Err(Stop::Bad);
        }
        self.left = &self.left[WORD_SIZE..];
        Ok(word)
    }

    /// The bytes that follow on the length of the next text, as many as there are.
    #[tactic(auto, unfolding(bcj_tables_rules::specs::Steps::text_bytes))]
    fn text_bytes(&self) -> &'a [u8]
        ensures { result.now ≡ spec.text_bytes self.now }
    {
        if self.left.len() < WORD_SIZE {
            return &[];
        }
        let behind = &self.left[WORD_SIZE..];
        let length = self.next_word() as usize;
        if length <= behind.len() {
            &behind[..length]
        } else {
            behind
        }
    }

    /// Whether a whole text of ASCII characters comes next.
    #[tactic(auto, unfolding(bcj_tables_rules::specs::Steps::has_text))]
    fn has_text(&self) -> bool
        ensures { result ≡ spec.has_text self.now }
    {
        if self.left.len() < WORD_SIZE {
            return false;
        }
        if self.next_word() as usize > self.left.len() - WORD_SIZE {
            return false;
        }
        is_ascii(self.text_bytes())
    }

    /// The next text, which is empty where there is none.
    #[tactic(auto, using(crate::proofs::Ascii::utf8_rules), unfolding(bcj_tables_rules::specs::Steps::next_text))]
    pub fn next_text(&self) -> &'a str
        ensures { result.now ≡ spec.next_text self.now }
    {
        if !self.has_text() {
            return "";
        }
        str::from_utf8(self.text_bytes()).unwrap_or("")
    }

    /// The next text, where it is good.
    #[tactic(auto, using(crate::proofs::Ascii::whole_text), unfolding(bcj_tables_rules::specs::Steps::text_reading))]
    pub fn take_text(&mut self, good: bool) -> Result<&'a str, Stop>
        ensures reads { spec.Reads (λ t. t.now) (spec.text_reading good self.old) result self.new }
        ensures value { IfOk result (λ t. t.now ≡ spec.next_text self.old) }
    {
        let text = self.next_text();
        if !self.has_text() || !good {
            return Err(Stop::Bad);
        }
        self.left = &self.left[WORD_SIZE + text.len()..];
        Ok(text)
    }
}
