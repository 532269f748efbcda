use bcj_parser_rules::Terminal;
use std::marker::Model;

/// A token as the grammar sees it: what it is, its first byte, and its text, which is ASCII.
#[derive(Drop)]
pub struct Lexeme<'a> {
    terminal: Terminal,
    at: u32,
    word: &'a str,
}

impl<'a> Model for Lexeme<'a> {
    ghost use Rattle.bcj_parser_rules.specs.Lexemes.{Lexeme};

    ghost Value = { Lexeme };

    ghost view = { λ l. record { terminal = l.terminal; at = l.at; word = l.word.now } };
}

impl<'a> Lexeme<'a> {
    ghost use Rattle.std.specs.Prelude.{◌≡◌};

    pub fn new(terminal: Terminal, at: u32, word: &'a str) -> Lexeme<'a>
        ensures { result ≡ record { terminal = terminal; at = at; word = word.now } }
    {
        Lexeme { terminal, at, word }
    }

    pub fn terminal(&self) -> Terminal
        ensures { result ≡ self.now.terminal }
    {
        self.terminal
    }

    pub fn at(&self) -> u32
        ensures { result ≡ self.now.at }
    {
        self.at
    }

    pub fn word(&self) -> &'a str
        ensures { result.now ≡ self.now.word }
    {
        self.word
    }
}
