//! The constructs that are left out of the language, by the tokens before a refused one and by what is known of its place.

ghost use Rattle.std.specs.Prelude.{◌≡◌, nat_lt};
ghost use Rattle.bcj_parser_rules.specs.declared.construct.Construct.TheVariants as construct;
ghost use Rattle.bcj_parser_rules.specs.Lexemes as lexeme;
ghost use Rattle.bcj_parser_rules.specs.LeftOut as spec;

use bcj_parser_cursor::{Cursor, Lexeme, begins_expression};
use bcj_parser_rules::{Construct, Site, Terminal};
use bcj_parser_trees::BinOp;

/// The terminal of the last token, where there is one.
fn last_terminal(lexemes: &[Lexeme<'_>]) -> Terminal
    ensures { result ≡ spec.last_terminal lexemes.now }
{
    match lexemes {
        [] => Terminal::Unused,
        [.., last] => last.terminal(),
    }
}

/// How many braces are open behind such tokens.
fn open_braces(lexemes: &[Lexeme<'_>]) -> usize
    ensures { result ≡ spec.open_braces 0 lexemes.now }
{
    let mut open: usize = 0;
    for lexeme in lexemes {
        open = match lexeme.terminal() {
            Terminal::LeftBrace => open + 1,
            Terminal::RightBrace => open.saturating_sub(1),
            _ => open,
        };
    }
    open
}

fn is_modifier(terminal: Terminal) -> bool
    ensures { result ≡ spec.is_modifier terminal }
{
    matches!(
        terminal,
        Terminal::Public
            | Terminal::Protected
            | Terminal::Private
            | Terminal::Static
            | Terminal::Abstract
            | Terminal::Final
    )
}

fn where_true(holds: bool, construct: Construct) -> Option<Construct>
    ensures { result ≡ spec.where_true holds construct }
{
    if holds { Some(construct) } else { None }
}

/// `class` or `interface`: within the braces of a type.
fn type_word(before: &[Lexeme<'_>]) -> Option<Construct>
    ensures { result ≡ spec.where_true (nat_lt 0 (spec.open_braces 0 before.now)) construct.NestedClass }
{
    where_true(open_braces(before) > 0, Construct::NestedClass)
}

/// `<`: behind an identifier that can be a type's name.
fn angle(site: Site, before: Terminal) -> Option<Construct>
    ensures { result ≡ spec.angle site before }
{
    match site {
        Site::HeaderName | Site::TypeName | Site::CatchClass | Site::DeclarationName => {
            where_true(matches!(before, Terminal::Identifier), Construct::Generics)
        }
        _ => None,
    }
}

/// `{`: where a member may begin, as the value of a variable, or behind the creation of an object.
fn brace(site: Site, before: Terminal) -> Option<Construct>
    ensures { result ≡ spec.brace site before }
{
    match site {
        Site::Member => where_true(!is_modifier(before), Construct::InitialiserBlock),
        Site::Variable => Some(Construct::ArrayInitialiser),
        Site::Creation => Some(Construct::AnonymousClass),
        _ => where_true(
            matches!(before, Terminal::Assign | Terminal::RightBracket),
            Construct::ArrayInitialiser,
        ),
    }
}

/// `[`: behind a declared name or a list of parameters.
fn bracket(site: Site, before: Terminal) -> Option<Construct>
    ensures { result ≡ spec.bracket site before }
{
    match site {
        Site::HeaderName => where_true(matches!(before, Terminal::Identifier), Construct::Brackets),
        Site::LoopName | Site::CatchName => Some(Construct::Brackets),
        Site::DeclaredName => where_true(
            matches!(before, Terminal::Identifier | Terminal::RightParen),
            Construct::Brackets,
        ),
        _ => None,
    }
}

fn colon(site: Site) -> Option<Construct>
    ensures { result ≡ spec.colon site }
{
    match site {
        Site::LoopName => Some(Construct::EnhancedFor),
        Site::DeclarationName | Site::StatementName => Some(Construct::Label),
        _ => None,
    }
}

/// `|`: between the parentheses of a catch.
fn bar(site: Site) -> Option<Construct>
    ensures { result ≡ spec.bar site }
{
    match site {
        Site::Catch | Site::CatchClass | Site::CatchName => Some(Construct::MultiCatch),
        _ => None,
    }
}

/// `(`: behind the name of a member that is final, or behind `try`.
fn paren(site: Site, before: Terminal) -> Option<Construct>
    ensures { result ≡ spec.paren site before }
{
    match (site, before) {
        (Site::FinalMember, _) => Some(Construct::Final),
        (_, Terminal::Try) => Some(Construct::Resources),
        _ => None,
    }
}

fn void(site: Site) -> Option<Construct>
    ensures { result ≡ spec.void site }
{
    match site {
        Site::FinalMember => Some(Construct::Final),
        _ => None,
    }
}

/// An expression in the empty brackets of an array creation.
fn dimension(site: Site, cursor: &Cursor<'_>) -> Option<Construct>
    ensures { result ≡ spec.dimension site (lexeme.terminal_at cursor.now) }
{
    match site {
        Site::Dimension => where_true(begins_expression(cursor.terminal()), Construct::Dimensions),
        _ => None,
    }
}

/// The left-out construct that the next token, which is refused at such a site, stands for, by the tokens before it.
#[tactic(auto, unfolding(bcj_parser_rules::specs::LeftOut::construct_at))]
pub fn construct_at(site: Site, before: &[Lexeme<'_>], from: &Cursor<'_>) -> Option<Construct>
    ensures { result ≡ spec.construct_at site before.now from.now }
{
    match from.terminal() {
        Terminal::LeftOut(construct) => Some(construct),
        Terminal::Class | Terminal::Interface => type_word(before),
        Terminal::Final => Some(Construct::Final),
        Terminal::Void => void(site),
        Terminal::LeftParen => match paren(site, last_terminal(before)) {
            Some(construct) => Some(construct),
            None => dimension(site, from),
        },
        Terminal::Operator(BinOp::Lt) => angle(site, last_terminal(before)),
        Terminal::LeftBrace => brace(site, last_terminal(before)),
        Terminal::LeftBracket => bracket(site, last_terminal(before)),
        Terminal::RightBracket if matches!(site, Site::FirstBracket) => Some(
            Construct::ArrayInitialiser,
        ),
        Terminal::Colon => colon(site),
        Terminal::Operator(BinOp::Or) => bar(site),
        Terminal::Identifier => match last_terminal(before) {
            Terminal::Break | Terminal::Continue => Some(Construct::Label),
            _ => dimension(site, from),
        },
        _ => dimension(site, from),
    }
}
