//! The tokens of a source text (Java Language Specification, Java SE 7, chapter 3).
//!
//! A text is cut into blanks, comments and tokens, each the longest one at its first byte. `lex`
//! gives the tokens of that cutting, or the place at which no piece begins.
#![tactic(auto)]

mod bytes;
mod number;
mod piece;

ghost use Rattle.std.specs.Prelude.{◌≡◌, ◌++◌, ◌∷◌, ◌<◌, [], List, ℕ, length, ◌≤◌, ◌↔◌, IfOk, slice_get, option_copied};
ghost use Rattle.std.specs.Result.{IfErr, OnErr, OnOk};
ghost use Rattle.std.specs.Slice.{IsItemAt};
ghost use Rattle.bcj_lexer.specs.declared.Token.{Token};
ghost use Rattle.bcj_lexer.specs.Pieces.{InOrder, TokensOf};
ghost use Rattle.bcj_lexer.specs.Answers as answer;
ghost use Rattle.bcj_lexer.specs.Laws as law;

use piece::{PieceKind, scan};
use std::alloc::{AllocError, Global};
use std::marker::Model;
use thiserror::Error;

/// What a token is. Which reserved word, separator or operator it is stands in the text between its
/// first byte and its end.
#[derive(Clone, Copy, Debug, PartialEq)]
pub enum TokenKind {
    /// JLS 3.8.
    Identifier,
    /// A keyword of JLS 3.9, or `true`, `false` or `null`.
    Reserved,
    /// An integer literal without suffix, JLS 3.10.1.
    Int,
    /// An integer literal with the suffix `l` or `L`, JLS 3.10.1.
    Long,
    /// A floating-point literal of either type, JLS 3.10.2.
    Float,
    /// JLS 3.10.5.
    Str,
    /// JLS 3.10.4.
    Char,
    /// JLS 3.11, and `@` and `...`.
    Separator,
    /// JLS 3.12.
    Operator,
}

/// A token of a text: the bytes from `start` up to and without `end`, counted from 0.
#[derive(Clone, Copy, Debug, PartialEq)]
pub struct Token {
    pub kind: TokenKind,
    pub start: u32,
    pub end: u32,
}

/// Tokens in the order of the text.
#[derive(Drop)]
pub struct Tokens {
    items: Vec<Token>,
}

impl Model for Tokens {
    ghost Value = { List Token };

    ghost view = { λ tokens. tokens.items.items };
}

impl Tokens {
    /// The list with no token.
    pub fn new(alloc: Global) -> Tokens
        ensures { result ≡ [] }
    {
        Tokens {
            items: Vec::new(alloc),
        }
    }

    /// Appends a token. A refused push changes nothing.
    pub fn push(&mut self, token: Token) -> Result<(), AllocError>
        requires { length self.old < u32.MAX }
        ensures appended { OnOk result (self.new ≡ self.old ++ token ∷ []) }
        ensures unchanged { OnErr result (self.new ≡ self.old) }
    {
        self.items.push(token)?;
        Ok(())
    }

    /// How many tokens the list has.
    pub fn len(&self) -> usize
        ensures { result ≡ length self.now }
    {
        self.items.len()
    }

    /// The tokens as a slice.
    pub fn as_slice(&self) -> &[Token]
        ensures { result.now ≡ self.now }
    {
        self.items.as_slice()
    }

    /// The token at an index from 0, or None from `len()` on.
    pub fn get(&self, at: usize) -> Option<&Token>
        ensures value { option_copied result ≡ slice_get self.now at }
        ensures item { IsItemAt self.now at result }
    {
        self.items.as_slice().get(at)
    }
}

/// Why a text has no list of tokens.
#[derive(Debug, Drop, Error)]
pub enum LexStop {
    /// The text before `at` is blanks, comments and tokens, and none of them begins at `at`.
    #[error("bad character")]
    Bad { at: u32 },
    /// The text has more than 1,048,576 bytes.
    #[error("source too long")]
    TooLong,
    #[error("out of memory")]
    NoMemory,
}

/// The most bytes that a source may have.
const MAX_SOURCE_BYTES: usize = 1_048_576;

/// The tokens of a text of at most 1,048,576 bytes (JLS 3.5 to 3.12): blanks, comments and tokens
/// follow one another from its first byte to its end, each the longest one at its first byte.
///
/// # Errors
///
/// `Bad` where the text has no such cutting, at the end of the longest run of pieces from its first
/// byte; `TooLong` for a longer text; `NoMemory`.
pub fn lex(alloc: Global, text: &[u8]) -> Result<Tokens, LexStop>
    ensures tokens { IfOk result (λ ts. TokensOf text.now ts) }
    ensures only { IfOk result (λ ts. (others : List Token) → TokensOf text.now others → ts ≡ others) }
    ensures order { IfOk result (λ ts. InOrder 0 (length text.now) ts) }
    ensures within { IfOk result (λ ts. law.AreWithin (length text.now) ts) }
    ensures stops { IfErr result (λ e. answer.IsStop text.now e) }
    ensures too_long { answer.IsTooLong result ↔ (answer.max_source_bytes < length text.now) }
    ensures complete { (ts : List Token) → TokensOf text.now ts → length text.now ≤ answer.max_source_bytes → IfErr result (λ e. e ≡ LexStop.NoMemory) }
{
    if text.len() > MAX_SOURCE_BYTES {
        return Err(LexStop::TooLong);
    }
    let mut tokens = Tokens::new(alloc);
    let mut rest = text;
    while !rest.is_empty() {
        let start = (text.len() - rest.len()) as u32;
        let Some((kind, behind)) = scan(rest) else {
            return Err(LexStop::Bad { at: start });
        };
        if let PieceKind::Token(kind) = kind {
            let end = (text.len() - behind.len()) as u32;
            let token = Token { kind, start, end };
            tokens.push(token).map_err(|_| LexStop::NoMemory)?;
        }
        rest = behind;
    }
    Ok(tokens)
}

/// A text is cut in one way at most, and so has one list of tokens at most.
#[tactic(auto, using(crate::proofs::Cutting::one_cutting_law, crate::proofs::Cutting::tokens_one))]
pub fn one_cutting()
    ensures pieces { law.OneCutting }
    ensures tokens { law.OneList }
{}

/// The tokens of a text stand one behind the other, none of them empty, and end within the text.
#[tactic(auto, using(crate::proofs::Cutting::tokens_order, crate::proofs::Cutting::tokens_within))]
pub fn tokens_in_order()
    ensures order { law.Ordered }
    ensures within { law.Within }
{}

/// The tokens of a text are ASCII; other bytes stand in comments alone.
#[tactic(auto, using(crate::proofs::Ascii::tokens_ascii))]
pub fn tokens_are_ascii()
    ensures { law.Ascii }
{}
