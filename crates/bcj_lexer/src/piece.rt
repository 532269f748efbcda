//! The piece at the front of a text.

ghost use Rattle.std.specs.Prelude.{◌≡◌, ◌≤◌, length, map, option_copied, None, false, ◌∷◌};
ghost use Rattle.bcj_names.specs.Identifiers.{in_identifier};
ghost use Rattle.bcj_lexer.specs.Bytes as bytes;
ghost use Rattle.bcj_lexer.specs.function.Scan as spec;

use crate::TokenKind;
use crate::bytes::{in_literal, is_blank, is_escaped, is_line_end};
use crate::number::{begins_number, number};
use bcj_names::{can_begin, can_go_on, is_reserved};

/// What a piece is.
#[derive(Clone, Copy)]
pub enum PieceKind {
    Blank,
    Comment,
    Token(TokenKind),
}

const SEPARATORS: [&[u8]; 11] = [
    b"(", b")", b"{", b"}", b"[", b"]", b";", b",", b".", b"...", b"@",
];

const OPERATORS: [&[u8]; 37] = [
    b"=", b">", b"<", b"!", b"~", b"?", b":", b"==", b"<=", b">=", b"!=", b"&&", b"||", b"++",
    b"--", b"+", b"-", b"*", b"/", b"&", b"|", b"^", b"%", b"<<", b">>", b">>>", b"+=", b"-=",
    b"*=", b"/=", b"&=", b"|=", b"^=", b"%=", b"<<=", b">>=", b">>>=",
];

#[tactic(auto, unfolding(crate::specs::function::Scan::behind))]
fn behind_word(text: &[u8]) -> &[u8]
    ensures rest { result.now ≡ spec.behind in_identifier text.now }
    ensures within { length result.now ≤ length text.now }
{
    let mut rest = text;
    while let [byte, tail @ ..] = rest {
        if !can_go_on(*byte) {
            break;
        }
        rest = tail;
    }
    rest
}

#[tactic(auto, unfolding(crate::specs::Bytes::in_line))]
fn in_line(byte: u8) -> bool
    ensures { result ≡ bytes.in_line byte }
{
    !is_line_end(byte)
}

#[tactic(auto, unfolding(crate::specs::function::Scan::behind))]
fn behind_line(text: &[u8]) -> &[u8]
    ensures { result.now ≡ spec.behind bytes.in_line text.now }
{
    let mut rest = text;
    while let [byte, tail @ ..] = rest {
        if !in_line(*byte) {
            break;
        }
        rest = tail;
    }
    rest
}

#[tactic(auto, unfolding(crate::specs::function::Scan::word_kind))]
fn word_kind(word: &[u8]) -> TokenKind
    ensures { result ≡ spec.word_kind word.now }
{
    if is_reserved(word) {
        TokenKind::Reserved
    } else {
        TokenKind::Identifier
    }
}

#[tactic(auto, unfolding(crate::specs::function::Scan::word))]
fn word(text: &[u8]) -> (PieceKind, &[u8])
    ensures { (result.0, result.1.now) ≡ spec.word text.now }
{
    let rest = behind_word(text);
    let kind = word_kind(&text[..text.len() - rest.len()]);
    (PieceKind::Token(kind), rest)
}

/// The text behind the next `*/`.
#[tactic(auto, unfolding(crate::specs::function::Scan::behind_block))]
fn behind_block(text: &[u8]) -> Option<&[u8]>
    ensures { option_copied result ≡ spec.behind_block text.now }
{
    let mut rest = text;
    while let [first, tail @ ..] = rest {
        if let [second, behind @ ..] = tail
            && *first == b'*'
            && *second == b'/'
        {
            return Some(behind);
        }
        rest = tail;
    }
    None
}

/// The text behind the quote that closes a literal, from behind the quote that opens it.
#[tactic(auto, unfolding(crate::specs::function::Scan::behind_quoted))]
fn behind_quoted(quote: u8, text: &[u8]) -> Option<&[u8]>
    ensures { option_copied result ≡ spec.behind_quoted quote false text.now }
{
    let mut rest = text;
    let mut escaped = false;
    while let [byte, tail @ ..] = rest {
        if escaped {
            if !is_escaped(*byte) {
                return None;
            }
            escaped = false;
        } else if *byte == quote {
            return Some(tail);
        } else if *byte == b'\\' {
            escaped = true;
        } else if !in_literal(*byte) {
            return None;
        }
        rest = tail;
    }
    None
}

#[tactic(auto, unfolding(crate::specs::function::Scan::found))]
fn found(kind: PieceKind, rest: Option<&[u8]>) -> Option<(PieceKind, &[u8])>
    ensures { spec.seen result ≡ spec.found kind (option_copied rest.entry) }
{
    match rest {
        Some(rest) => Some((kind, rest)),
        None => None,
    }
}

/// The text behind the symbol, which begins it.
#[tactic(auto, unfolding(crate::specs::function::Scan::strip))]
fn strip<'a>(symbol: &[u8], text: &'a [u8]) -> Option<&'a [u8]>
    ensures { option_copied result ≡ spec.strip symbol.now text.now }
{
    let mut wanted = symbol;
    let mut rest = text;
    while let [expected, others @ ..] = wanted {
        match rest {
            [byte, tail @ ..] if *byte == *expected => {
                wanted = others;
                rest = tail;
            }
            _ => return None,
        }
    }
    Some(rest)
}

#[tactic(auto, unfolding(crate::specs::function::Scan::shorter))]
fn shorter<'a>(best: Option<&'a [u8]>, rest: Option<&'a [u8]>) -> Option<&'a [u8]>
    ensures { option_copied result ≡ spec.shorter (option_copied best.entry) (option_copied rest.entry) }
{
    match (best, rest) {
        (Some(best), Some(rest)) => Some(if best.len() <= rest.len() { best } else { rest }),
        (None, rest) => rest,
        (best, None) => best,
    }
}

/// The text behind the longest of the symbols that begins it.
#[tactic(auto, unfolding(crate::specs::function::Scan::behind_symbol))]
fn behind_symbol<'a>(symbols: &[&[u8]], text: &'a [u8]) -> Option<&'a [u8]>
    ensures { option_copied result ≡ spec.behind_symbol None (map (λ w. w.now) symbols.now) text.now }
{
    let mut best = None;
    let mut others = symbols;
    while let [symbol, tail @ ..] = others {
        best = shorter(best, strip(symbol, text));
        others = tail;
    }
    best
}

#[tactic(auto, unfolding(crate::specs::function::Scan::operator, crate::specs::Symbols::operators))]
fn operator(text: &[u8]) -> Option<(PieceKind, &[u8])>
    ensures { spec.seen result ≡ spec.operator text.now }
{
    let rest = behind_symbol(&OPERATORS, text);
    found(PieceKind::Token(TokenKind::Operator), rest)
}

#[tactic(auto, unfolding(crate::specs::function::Scan::symbol, crate::specs::function::Scan::separator_or, crate::specs::Symbols::separators))]
fn symbol(text: &[u8]) -> Option<(PieceKind, &[u8])>
    ensures { spec.seen result ≡ spec.symbol text.now }
{
    match behind_symbol(&SEPARATORS, text) {
        Some(rest) => Some((PieceKind::Token(TokenKind::Separator), rest)),
        None => operator(text),
    }
}

/// The piece at the front of a text that begins with `/`.
#[tactic(auto, unfolding(crate::specs::function::Scan::slash))]
fn slash<'a>(text: &'a [u8], rest: &'a [u8]) -> Option<(PieceKind, &'a [u8])>
    ensures { spec.seen result ≡ spec.slash text.now rest.now }
{
    match rest {
        [b'/', tail @ ..] => Some((PieceKind::Comment, behind_line(tail))),
        [b'*', tail @ ..] => found(PieceKind::Comment, behind_block(tail)),
        _ => symbol(text),
    }
}

#[tactic(auto, unfolding(crate::specs::function::Scan::is_last_blank))]
fn is_last_blank(first: u8, rest: &[u8]) -> bool
    ensures { result ≡ spec.is_last_blank first rest.now }
{
    match rest {
        [] => first == b'\x1a',
        _ => false,
    }
}

/// The byte is a separator by itself, whatever follows it.
#[tactic(auto, unfolding(crate::specs::function::Scan::is_separator))]
fn is_separator(byte: u8) -> bool
    ensures { result ≡ spec.is_separator byte }
{
    matches!(
        byte,
        b'(' | b')' | b'{' | b'}' | b'[' | b']' | b';' | b',' | b'@'
    )
}

#[tactic(auto, using(crate::proofs::Parts::other_separator), unfolding(crate::specs::function::Scan::other))]
fn other<'a>(text: &'a [u8], first: u8, rest: &'a [u8]) -> Option<(PieceKind, &'a [u8])>
    requires { text.now ≡ first ∷ rest.now }
    ensures { spec.seen result ≡ spec.other first rest.now }
{
    match first {
        _ if is_separator(first) => Some((PieceKind::Token(TokenKind::Separator), rest)),
        b'"' => found(PieceKind::Token(TokenKind::Str), behind_quoted(b'"', rest)),
        b'\'' => found(
            PieceKind::Token(TokenKind::Char),
            behind_quoted(b'\'', rest),
        ),
        b'/' => slash(text, rest),
        _ if is_last_blank(first, rest) => Some((PieceKind::Blank, rest)),
        _ => symbol(text),
    }
}

/// The longest piece at the front of a text, and the text behind it.
#[tactic(auto, unfolding(crate::specs::function::Scan::scan))]
pub fn scan(text: &[u8]) -> Option<(PieceKind, &[u8])>
    ensures { spec.seen result ≡ spec.scan text.now }
{
    let [first, rest @ ..] = text else {
        return None;
    };
    if is_blank(*first) {
        Some((PieceKind::Blank, rest))
    } else if can_begin(*first) {
        Some(word(text))
    } else if begins_number(text) {
        number(text)
    } else {
        other(text, *first, rest)
    }
}
