//! The words of a text section, line by line.

ghost use Rattle.std.specs.Prelude.{◌≡◌, ◌+◌, ◌≤◌, ◌++◌, ◌∷◌, [], length, slice_index, OnOk};
ghost use Rattle.std.specs.Int.{w32, from_le_bytes};
ghost use Rattle.bcj_cli_showing.specs.Lines.{word_line};
ghost use Rattle.bcj_cli_showing.specs.Text.{word_lines};

use crate::writer::Writer;
use std::alloc::AllocError;

/// The bytes of a word.
const WORD: usize = 4;

/// The little-endian word at an offset.
fn word_at(text: &[u8], at: usize) -> u32
    requires { at + 4 ≤ length text.now }
    ensures { result ≡ from_le_bytes w32 (slice_index text.now at ∷ slice_index text.now (at + 1) ∷ slice_index text.now (at + 2) ∷ slice_index text.now (at + 3) ∷ []) }
{
    u32::from_le_bytes([text[at], text[at + 1], text[at + 2], text[at + 3]])
}

impl Writer {
    #[tactic(auto, using(crate::proofs::Rules::line_rules), unfolding(crate::specs::Lines::word_line))]
    fn code_word(&mut self, at: usize, word: u32) -> Result<(), AllocError>
        ensures { OnOk result (self.new ≡ self.old ++ word_line at word) }
    {
        self.number(at)?;
        self.hexadecimal(word)?;
        self.text("\n")
    }

    /// Adds the words of a text section.
    #[tactic(auto, using(crate::proofs::Rules::line_rules))]
    pub(crate) fn code(&mut self, text: &[u8]) -> Result<(), AllocError>
        ensures { OnOk result (self.new ≡ self.old ++ word_lines 0 text.now) }
    {
        for index in 0..text.len() / WORD {
            let at = index * WORD;
            self.code_word(at, word_at(text, at))?;
        }
        Ok(())
    }
}
