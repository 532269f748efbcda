//! A text that grows at its end, word by word.

ghost use Rattle.std.specs.Prelude.{◌≡◌, ◌<◌, ◌*◌, ◌++◌, ◌∷◌, [], false, OnOk, codes, decimal, replicate};
ghost use Rattle.std.specs.Fmt.{digit_glyph};
ghost use Rattle.bcj_cli_showing.specs.Lines.{hexadecimal};

use bcj_edge::Bytes;
use std::alloc::{AllocError, Global};
use std::marker::Model;

/// What stands before the digit that is worth ten, in lower case.
const LETTERS: u8 = b'a' - 10;

/// Contracts see it as the list of its bytes. An answer for want of memory may leave a front of what was to be added.
#[derive(Drop)]
pub(crate) struct Writer {
    bytes: Vec<u8>,
}

impl Model for Writer {
    ghost use Rattle.std.specs.Prelude.{ℕ, List};

    ghost Value = { List ℕ };

    ghost view = { λ w. w.bytes.items };
}

impl Writer {
    /// No text yet.
    pub(crate) fn new(alloc: Global) -> Writer
        ensures { result ≡ [] }
    {
        Writer {
            bytes: Vec::new(alloc),
        }
    }

    /// The text. It takes no memory.
    pub(crate) fn into_bytes(self) -> Bytes
        ensures { result ≡ self }
    {
        Bytes::of(self.bytes)
    }

    /// Adds a text.
    pub(crate) fn text(&mut self, text: &str) -> Result<(), AllocError>
        ensures { OnOk result (self.new ≡ self.old ++ text.now) }
    {
        self.bytes.extend_from_slice(text.as_bytes())
    }

    /// Adds a number in decimal.
    pub(crate) fn decimal(&mut self, number: usize) -> Result<(), AllocError>
        ensures { OnOk result (self.new ≡ self.old ++ decimal number) }
    {
        let digits = format!(in *self.bytes.allocator(); "{number}")?;
        self.text(digits.as_str())
    }

    /// Adds a word of a line and a blank.
    #[tactic(auto, using(crate::proofs::Rules::line_rules))]
    pub(crate) fn word(&mut self, word: &str) -> Result<(), AllocError>
        ensures { OnOk result (self.new ≡ self.old ++ (word.now ++ codes " ")) }
    {
        self.text(word)?;
        self.text(" ")
    }

    /// Adds the last word of a line and its end.
    #[tactic(auto, using(crate::proofs::Rules::line_rules))]
    pub(crate) fn last(&mut self, word: &str) -> Result<(), AllocError>
        ensures { OnOk result (self.new ≡ self.old ++ (word.now ++ codes "\n")) }
    {
        self.text(word)?;
        self.text("\n")
    }

    /// Adds a number as a word of a line and a blank.
    #[tactic(auto, using(crate::proofs::Rules::line_rules))]
    pub(crate) fn number(&mut self, number: usize) -> Result<(), AllocError>
        ensures { OnOk result (self.new ≡ self.old ++ (decimal number ++ codes " ")) }
    {
        self.decimal(number)?;
        self.text(" ")
    }

    /// Adds a number as the last word of a line and its end.
    #[tactic(auto, using(crate::proofs::Rules::line_rules))]
    pub(crate) fn last_number(&mut self, number: usize) -> Result<(), AllocError>
        ensures { OnOk result (self.new ≡ self.old ++ (decimal number ++ codes "\n")) }
    {
        self.decimal(number)?;
        self.text("\n")
    }

    /// Adds two spaces for each step.
    #[tactic(auto, using(crate::proofs::Rules::line_rules))]
    pub(crate) fn indent(&mut self, steps: usize) -> Result<(), AllocError>
        ensures { OnOk result (self.new ≡ self.old ++ replicate (2 * steps) 32) }
    {
        for step in 0..steps {
            self.text("  ")?;
        }
        Ok(())
    }

    /// Adds a digit of a number in hexadecimal.
    fn digit(&mut self, digit: u8) -> Result<(), AllocError>
        requires { digit < 16 }
        ensures { OnOk result (self.new ≡ self.old ++ digit_glyph false digit ∷ []) }
    {
        let first = if digit < 10 { b'0' } else { LETTERS };
        self.bytes.push(first + digit)?;
        Ok(())
    }

    /// Adds a word in eight digits.
    #[tactic(auto, using(crate::proofs::Rules::line_rules), unfolding(crate::specs::Lines::hexadecimal))]
    pub(crate) fn hexadecimal(&mut self, word: u32) -> Result<(), AllocError>
        ensures { OnOk result (self.new ≡ self.old ++ hexadecimal word) }
    {
        self.digit((word / 0x1000_0000 % 16) as u8)?;
        self.digit((word / 0x100_0000 % 16) as u8)?;
        self.digit((word / 0x10_0000 % 16) as u8)?;
        self.digit((word / 0x1_0000 % 16) as u8)?;
        self.digit((word / 0x1000 % 16) as u8)?;
        self.digit((word / 0x100 % 16) as u8)?;
        self.digit((word / 16 % 16) as u8)?;
        self.digit((word % 16) as u8)
    }
}
