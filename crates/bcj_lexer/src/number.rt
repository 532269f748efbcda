//! Number words, and which of them are literals (JLS 3.10.1 and 3.10.2).

ghost use Rattle.std.specs.Prelude.{◌≡◌, ◌≤◌, length, true, option_copied};
ghost use Rattle.bcj_lexer.specs.Bytes as bytes;
ghost use Rattle.bcj_lexer.specs.Numbers as numbers;
ghost use Rattle.bcj_lexer.specs.function.Words as words;
ghost use Rattle.bcj_lexer.specs.function.Scan as spec;

use crate::TokenKind;
use crate::bytes::{
    is_b, is_binary_digit, is_e, is_float_suffix, is_hex_digit, is_long_suffix, is_octal_digit,
    is_p, is_sign, is_x,
};
use crate::piece::PieceKind;
use bcj_names::can_go_on;

#[derive(Clone, Copy)]
pub enum Radix {
    Binary,
    Octal,
    Decimal,
    Hexadecimal,
}

/// The byte that begins an exponent: `e` behind decimal digits, `p` behind hexadecimal ones.
#[derive(Clone, Copy)]
pub enum Indicator {
    Decimal,
    Binary,
}

fn is_digit_of(radix: Radix, byte: u8) -> bool
    ensures { result ≡ words.digit_of radix byte }
{
    match radix {
        Radix::Binary => is_binary_digit(byte),
        Radix::Octal => is_octal_digit(byte),
        Radix::Decimal => byte.is_ascii_digit(),
        Radix::Hexadecimal => is_hex_digit(byte),
    }
}

/// The text behind the digits that go on behind a digit, or None where they end in an underscore.
#[tactic(auto, unfolding(crate::specs::function::Words::past))]
fn past_digits(radix: Radix, text: &[u8]) -> Option<&[u8]>
    ensures { option_copied result ≡ words.past (words.digit_of radix) true text.now }
{
    let mut rest = text;
    let mut ends = true;
    while let [byte, tail @ ..] = rest {
        if is_digit_of(radix, *byte) {
            ends = true;
        } else if *byte == b'_' {
            ends = false;
        } else {
            break;
        }
        rest = tail;
    }
    if ends { Some(rest) } else { None }
}

/// The text behind the digits at its front, with underscores between them.
#[tactic(auto, unfolding(crate::specs::function::Words::digits))]
fn digits(radix: Radix, text: &[u8]) -> Option<&[u8]>
    ensures { option_copied result ≡ words.digits (words.digit_of radix) text.now }
{
    match text {
        [first, rest @ ..] if is_digit_of(radix, *first) => past_digits(radix, rest),
        _ => None,
    }
}

#[tactic(auto, unfolding(crate::specs::function::Words::integer_end))]
fn integer_end(rest: &[u8]) -> Option<TokenKind>
    ensures { result ≡ words.integer_end rest.now }
{
    match rest {
        [] => Some(TokenKind::Int),
        [suffix] if is_long_suffix(*suffix) => Some(TokenKind::Long),
        _ => None,
    }
}

#[tactic(auto, unfolding(crate::specs::function::Words::float_end))]
fn float_end(rest: &[u8]) -> Option<TokenKind>
    ensures { result ≡ words.float_end rest.now }
{
    match rest {
        [] => Some(TokenKind::Float),
        [suffix] if is_float_suffix(*suffix) => Some(TokenKind::Float),
        _ => None,
    }
}

#[tactic(auto, unfolding(crate::specs::function::Words::unsigned))]
fn unsigned(text: &[u8]) -> &[u8]
    ensures { result.now ≡ words.unsigned text.now }
{
    match text {
        [sign, rest @ ..] if is_sign(*sign) => rest,
        _ => text,
    }
}

fn is_indicator(indicator: Indicator, byte: u8) -> bool
    ensures { result ≡ words.indicator_of indicator byte }
{
    match indicator {
        Indicator::Decimal => is_e(byte),
        Indicator::Binary => is_p(byte),
    }
}

#[tactic(auto, unfolding(crate::specs::function::Words::past_exponent))]
fn past_exponent(indicator: Indicator, text: &[u8]) -> Option<&[u8]>
    ensures { option_copied result ≡ words.past_exponent (words.indicator_of indicator) text.now }
{
    match text {
        [first, rest @ ..] if is_indicator(indicator, *first) => {
            digits(Radix::Decimal, unsigned(rest))
        }
        _ => None,
    }
}

#[tactic(auto, unfolding(crate::specs::function::Words::decimal_end))]
fn decimal_end(text: &[u8]) -> Option<TokenKind>
    ensures { result ≡ words.decimal_end text.now }
{
    float_end(past_exponent(Indicator::Decimal, text).unwrap_or(text))
}

#[tactic(auto, unfolding(crate::specs::function::Words::binary_end, crate::specs::function::Words::float_at))]
fn binary_end(text: &[u8]) -> Option<TokenKind>
    ensures { result ≡ words.binary_end text.now }
{
    float_end(past_exponent(Indicator::Binary, text)?)
}

#[tactic(auto, unfolding(crate::specs::function::Words::decimal_float))]
fn decimal_float(text: &[u8]) -> Option<TokenKind>
    ensures { result ≡ words.decimal_float text.now }
{
    match text {
        [b'.', rest @ ..] => decimal_end(digits(Radix::Decimal, rest).unwrap_or(rest)),
        _ => decimal_end(text),
    }
}

#[tactic(auto, unfolding(crate::specs::function::Words::octal_or, crate::specs::function::Words::integer_at))]
fn octal_or(word: &[u8], kind: TokenKind) -> Option<TokenKind>
    ensures { result ≡ words.octal_or word.now kind }
{
    match word {
        [b'0', rest @ ..] => integer_end(past_digits(Radix::Octal, rest)?),
        _ => Some(kind),
    }
}

#[tactic(auto, unfolding(crate::specs::function::Words::decimal, crate::specs::function::Words::decimal_at, crate::specs::function::Words::decimal_by))]
fn decimal(word: &[u8]) -> Option<TokenKind>
    ensures { result ≡ words.decimal word.now }
{
    let rest = digits(Radix::Decimal, word)?;
    match integer_end(rest) {
        Some(kind) => octal_or(word, kind),
        None => decimal_float(rest),
    }
}

#[tactic(auto, unfolding(crate::specs::function::Words::fraction, crate::specs::function::Words::fraction_at))]
fn fraction(text: &[u8]) -> Option<TokenKind>
    ensures { result ≡ words.fraction text.now }
{
    decimal_end(digits(Radix::Decimal, text)?)
}

#[tactic(auto, unfolding(crate::specs::function::Words::hex_float))]
fn hex_float(text: &[u8]) -> Option<TokenKind>
    ensures { result ≡ words.hex_float text.now }
{
    match text {
        [] => None,
        [b'.', rest @ ..] => binary_end(digits(Radix::Hexadecimal, rest).unwrap_or(rest)),
        _ => binary_end(text),
    }
}

#[tactic(auto, unfolding(crate::specs::function::Words::hex_point, crate::specs::function::Words::binary_at))]
fn hex_point(text: &[u8]) -> Option<TokenKind>
    ensures { result ≡ words.hex_point text.now }
{
    match text {
        [b'.', rest @ ..] => binary_end(digits(Radix::Hexadecimal, rest)?),
        _ => None,
    }
}

#[tactic(auto, unfolding(crate::specs::function::Words::hexadecimal, crate::specs::function::Words::hex_at, crate::specs::function::Words::hex_by))]
fn hexadecimal(text: &[u8]) -> Option<TokenKind>
    ensures { result ≡ words.hexadecimal text.now }
{
    match digits(Radix::Hexadecimal, text) {
        None => hex_point(text),
        Some(rest) => match integer_end(rest) {
            None => hex_float(rest),
            kind => kind,
        },
    }
}

#[tactic(auto, unfolding(crate::specs::function::Words::integer_at))]
fn binary(text: &[u8]) -> Option<TokenKind>
    ensures { result ≡ words.integer_at (words.digits bytes.is_binary_digit text.now) }
{
    integer_end(digits(Radix::Binary, text)?)
}

/// What the word is a literal of, or None where it is no literal.
#[tactic(auto, unfolding(crate::specs::function::Words::number_kind, crate::specs::function::Words::based))]
fn number_kind(word: &[u8]) -> Option<TokenKind>
    ensures { result ≡ words.number_kind word.now }
{
    match word {
        [] => None,
        [b'.', rest @ ..] => fraction(rest),
        [b'0', mark, rest @ ..] if is_x(*mark) => hexadecimal(rest),
        [b'0', mark, rest @ ..] if is_b(*mark) => binary(rest),
        _ => decimal(word),
    }
}

#[tactic(auto, unfolding(crate::specs::Numbers::begins_number))]
pub fn begins_number(text: &[u8]) -> bool
    ensures { result ≡ numbers.begins_number text.now }
{
    match text {
        [] => false,
        [only] => only.is_ascii_digit(),
        [first, second, ..] => {
            first.is_ascii_digit() || (*first == b'.' && second.is_ascii_digit())
        }
    }
}

#[tactic(auto, unfolding(crate::specs::Numbers::begins_hex))]
fn begins_hex(text: &[u8]) -> bool
    ensures { result ≡ numbers.begins_hex text.now }
{
    match text {
        [first, second, ..] => *first == b'0' && is_x(*second),
        _ => false,
    }
}

#[tactic(auto, unfolding(crate::specs::Numbers::goes_on))]
fn goes_on(hex: bool, previous: u8, byte: u8) -> bool
    ensures { result ≡ numbers.goes_on hex previous byte }
{
    let exponent = if hex { is_p(previous) } else { is_e(previous) };
    can_go_on(byte) || byte == b'.' || (is_sign(byte) && exponent)
}

#[tactic(auto, unfolding(crate::specs::function::Scan::behind_tail))]
fn behind_tail(hex: bool, first: u8, text: &[u8]) -> &[u8]
    ensures rest { result.now ≡ spec.behind_tail hex first text.now }
    ensures within { length result.now ≤ length text.now }
{
    let mut previous = first;
    let mut rest = text;
    while let [byte, tail @ ..] = rest {
        if !goes_on(hex, previous, *byte) {
            break;
        }
        previous = *byte;
        rest = tail;
    }
    rest
}

/// The text behind the number word at its front.
#[tactic(auto, unfolding(crate::specs::function::Scan::behind_number))]
fn behind_number(text: &[u8]) -> &[u8]
    ensures rest { result.now ≡ spec.behind_number text.now }
    ensures within { length result.now ≤ length text.now }
{
    match text {
        [first, rest @ ..] => behind_tail(begins_hex(text), *first, rest),
        _ => text,
    }
}

/// What the number word at the front of a text is, and the text behind it.
#[tactic(auto, unfolding(crate::specs::function::Scan::number, crate::specs::function::Scan::number_found))]
pub fn number(text: &[u8]) -> Option<(PieceKind, &[u8])>
    ensures { spec.seen result ≡ spec.number text.now }
{
    let rest = behind_number(text);
    let kind = number_kind(&text[..text.len() - rest.len()])?;
    Some((PieceKind::Token(kind), rest))
}
