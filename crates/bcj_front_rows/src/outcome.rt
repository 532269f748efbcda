ghost use Rattle.std.specs.Prelude.{◌<◌, ◌^◌, length};
ghost use Rattle.bcj_lexer.specs.Pieces.{TokensOf};

use crate::unit::printed;
use bcj_lexer::{LexStop, Token, TokenKind, Tokens, lex};
use bcj_parser::{ParseStop, name, parse};
use std::alloc::{AllocError, Global};

/// What the outcome of a source is: its tokens, or its types as a tree, where each node may stand behind its first byte.
#[derive(Clone, Copy)]
pub enum Kind {
    Tokens,
    Trees,
    TreesWithPlaces,
}

fn letter(kind: TokenKind) -> char {
    match kind {
        TokenKind::Identifier => 'i',
        TokenKind::Reserved => 'r',
        TokenKind::Int => 'n',
        TokenKind::Long => 'l',
        TokenKind::Float => 'f',
        TokenKind::Str => 's',
        TokenKind::Char => 'c',
        TokenKind::Separator => 'p',
        TokenKind::Operator => 'o',
    }
}

/// Writes a byte as rows do.
fn put_byte(out: &mut String, byte: u8) -> Result<(), AllocError> {
    match byte {
        b'\\' => out.push_str("\\\\"),
        b' '..=b'~' => out.push(char::from(byte)),
        _ => write!(out, "\\x{byte:02x}"),
    }
}

fn put_token(out: &mut String, source: &[u8], token: Token) -> Result<(), AllocError> {
    out.push(letter(token.kind))?;
    out.push(':')?;
    let bytes = source
        .get(token.start as usize..token.end as usize)
        .unwrap_or(b"");
    for byte in bytes {
        put_byte(out, *byte)?;
    }
    Ok(())
}

fn lex_stop(alloc: Global, stop: LexStop) -> Result<String, AllocError> {
    match stop {
        LexStop::Bad { at } => format!(in alloc; "bad {at}"),
        stop => format!(in alloc; "{stop}"),
    }
}

/// `none`, or the tokens one behind the other.
fn words(alloc: Global, source: &[u8], tokens: &[Token]) -> Result<String, AllocError> {
    let mut out = String::new(alloc);
    for token in tokens {
        if !out.is_empty() {
            out.push(' ')?;
        }
        put_token(&mut out, source, *token)?;
    }
    if out.is_empty() {
        out.push_str("none")?;
    }
    Ok(out)
}

fn parse_stop(alloc: Global, stop: ParseStop) -> Result<String, AllocError> {
    match stop {
        ParseStop::Syntax { at } => format!(in alloc; "syntax {at}"),
        ParseStop::NotInProfile { at, what } => {
            let what = name(what);
            format!(in alloc; "{what} {at}")
        }
        ParseStop::TooDeep { at } => format!(in alloc; "too deep {at}"),
        ParseStop::TooMany { at } => format!(in alloc; "too many {at}"),
        ParseStop::NoMemory => String::from_str(alloc, "no memory"),
    }
}

/// The types of a text, or why it is refused and at which byte.
fn types(alloc: Global, source: &[u8], tokens: &Tokens, places: bool) -> Result<String, AllocError>
    requires tokens { TokensOf source.now tokens.now }
    requires size { length source.now < 2 ^ 32 }
{
    match parse(alloc, source, tokens) {
        Ok(unit) => printed(alloc, &unit, places),
        Err(stop) => parse_stop(alloc, stop),
    }
}

/// What the front end makes of a source.
pub fn outcome(alloc: Global, source: &[u8], kind: Kind) -> Result<String, AllocError> {
    match lex(alloc, source) {
        Err(stop) => lex_stop(alloc, stop),
        Ok(tokens) => match kind {
            Kind::Tokens => words(alloc, source, tokens.as_slice()),
            Kind::Trees => types(alloc, source, &tokens, false),
            Kind::TreesWithPlaces => types(alloc, source, &tokens, true),
        },
    }
}
