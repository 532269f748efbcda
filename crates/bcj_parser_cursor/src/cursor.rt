use crate::kinds;
use crate::lexeme::Lexeme;
use bcj_names::Name;
use bcj_parser_rules::{
    Beginning, Heading, Joining, Mark, Site, Stop, Terminal, TypeBeginning, UnitBeginning,
};
use std::alloc::Global;
use std::marker::Model;

/// The tokens that are still to be read.
#[derive(Drop)]
pub struct Cursor<'a> {
    left: &'a [Lexeme<'a>],
}

impl<'a> Model for Cursor<'a> {
    ghost use Rattle.bcj_parser_rules.specs.Lexemes.{Lexemes};

    ghost Value = { Lexemes };

    ghost view = { λ c. c.left.now };
}

impl<'a> Cursor<'a> {
    ghost use Rattle.std.specs.Prelude.{◌≡◌, length};
    ghost use Rattle.bcj_parser_rules.specs.Grammar as grammar;
    ghost use Rattle.bcj_parser_rules.specs.Lexemes as lexeme;
    ghost use Rattle.bcj_parser_rules.specs.function.Kinds as kind;
    ghost use Rattle.bcj_parser_rules.specs.function.Steps as spec;

    pub fn new(lexemes: &'a [Lexeme<'a>]) -> Cursor<'a>
        ensures { result ≡ lexemes.now }
    {
        Cursor { left: lexemes }
    }

    /// How many tokens are left.
    pub fn len(&self) -> usize
        ensures { result ≡ length self.now }
    {
        self.left.len()
    }

    /// What the next token is; at the end one that no production has.
    pub fn terminal(&self) -> Terminal
        ensures { result ≡ lexeme.terminal_at self.now }
    {
        match self.left {
            [] => Terminal::Unused,
            [lexeme, ..] => lexeme.terminal(),
        }
    }

    /// The first byte of the next token, and 0 at the end.
    pub fn at(&self) -> u32
        ensures { result ≡ lexeme.first_at self.now }
    {
        match self.left {
            [] => 0,
            [lexeme, ..] => lexeme.at(),
        }
    }

    /// The text of the next token, which is empty at the end.
    pub fn word(&self) -> &'a str
        ensures { result.now ≡ (lexeme.first self.now).word }
    {
        match self.left {
            [] => "",
            [lexeme, ..] => lexeme.word(),
        }
    }

    /// The text of the next token as a name.
    pub fn name(&self, alloc: Global) -> Result<Name, Stop>
        ensures { spec.Copies (lexeme.first self.now).word result }
    {
        Ok(Name::from_str(alloc, self.word())?)
    }

    pub fn advance(&mut self)
        ensures { self.new ≡ spec.rest self.old }
    {
        if let [_, behind @ ..] = self.left {
            self.left = behind;
        }
    }

    pub fn sees(&self, mark: Mark) -> bool
        ensures { result ≡ spec.sees mark self.now }
    {
        kinds::is_mark(mark, self.terminal())
    }

    pub fn beginning(&self) -> Beginning
        ensures { result ≡ kind.beginning (lexeme.terminal_at self.now) }
    {
        kinds::beginning(self.terminal())
    }

    /// Whether an operand without `+`, `-`, `++` and `--` begins here.
    pub fn begins_unsigned(&self) -> bool
        ensures { result ≡ grammar.begins_unsigned (lexeme.terminal_at self.now) }
    {
        kinds::begins_unsigned(self.terminal())
    }

    pub fn joining(&self) -> Joining
        ensures { result ≡ kind.joining (lexeme.terminal_at self.now) }
    {
        kinds::joining(self.terminal())
    }

    pub fn type_beginning(&self) -> TypeBeginning
        ensures { result ≡ kind.type_beginning (lexeme.terminal_at self.now) }
    {
        kinds::type_beginning(self.terminal())
    }

    pub fn heading(&self) -> Heading
        ensures { result ≡ kind.heading_of (lexeme.terminal_at self.now) }
    {
        kinds::heading_of(self.terminal())
    }

    pub fn unit_beginning(&self) -> UnitBeginning
        ensures { result ≡ kind.unit_beginning (lexeme.terminal_at self.now) }
    {
        kinds::unit_beginning(self.terminal())
    }

    #[tactic(auto, unfolding(bcj_parser_rules::specs::function::Steps::expect))]
    pub fn expect(&mut self, mark: Mark, site: Site) -> Result<(), Stop>
        ensures { spec.Reads (λ _. tt) (spec.expect mark site self.old) result self.new }
    {
        if !self.sees(mark) {
            return Err(Stop::Refused(site));
        }
        self.advance();
        Ok(())
    }

    #[tactic(auto, unfolding(bcj_parser_rules::specs::function::Steps::named))]
    pub fn named(&mut self, alloc: Global, site: Site) -> Result<Name, Stop>
        ensures { spec.Reads (λ x. x) (spec.named site self.old) result self.new }
    {
        if !self.sees(Mark::Identifier) {
            return Err(Stop::Refused(site));
        }
        let name = self.name(alloc)?;
        self.advance();
        Ok(name)
    }
}
