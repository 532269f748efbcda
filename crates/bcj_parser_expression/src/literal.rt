//! Integer literals (JLS 3.10.1).

ghost use Rattle.std.specs.Prelude.{◌≡◌, ◌==◌, ◌+◌, ◌*◌, ◌≤◌, ◌<◌, codes, min, if◌then◌else◌};
ghost use Rattle.bcj_parser_rules.specs.Grammar as grammar;
ghost use Rattle.bcj_parser_rules.specs.Limits.{max_value};

/// A larger value is kept as this.
const MAX_VALUE: u128 = 18446744073709551616;

fn digit_value(byte: u8) -> u128
    ensures value { result ≡ grammar.digit_value byte }
    ensures small { result < 256 }
{
    if byte >= b'a' {
        (byte - b'a' + 10) as u128
    } else if byte >= b'A' {
        (byte - b'A' + 10) as u128
    } else {
        byte.saturating_sub(b'0') as u128
    }
}

/// A value with a further digit or underscore.
fn appended(value: u128, radix: u8, byte: u8) -> u128
    requires { value ≤ max_value }
    ensures value { result ≡ (if byte == grammar.byte_of (codes "_") then value else min (value * radix + grammar.digit_value byte) max_value) }
    ensures small { result ≤ max_value }
{
    if byte == b'_' {
        return value;
    }
    (value * radix as u128 + digit_value(byte)).min(MAX_VALUE)
}

fn number_in(radix: u8, digits: &[u8]) -> u128
    requires { 1 ≤ radix }
    ensures { result ≡ min (grammar.number_in radix digits.now) max_value }
{
    let mut value = 0;
    let mut rest = digits;
    while let [byte, tail @ ..] = rest {
        value = appended(value, radix, *byte);
        rest = tail;
    }
    value
}

/// 16, 2, 10 or 8.
fn radix_of(word: &[u8]) -> u8
    ensures { result ≡ grammar.radix_of word.now }
{
    match word {
        [b'0'] => 10,
        [b'0', b'x' | b'X', ..] => 16,
        [b'0', b'b' | b'B', ..] => 2,
        [b'0', ..] => 8,
        _ => 10,
    }
}

/// The value of an integer literal; one past 2^64 is kept as 2^64.
pub fn int_value(word: &str) -> u128
    ensures { result ≡ grammar.int_value word.now }
{
    let bytes = word.as_bytes();
    let radix = radix_of(bytes);
    let digits = match bytes {
        [_, _, digits @ ..] if radix == 16 || radix == 2 => digits,
        _ => bytes,
    };
    number_in(radix, digits)
}

/// Whether an integer literal is decimal.
pub fn is_decimal(word: &str) -> bool
    ensures { result ≡ grammar.is_decimal word.now }
{
    radix_of(word.as_bytes()) == 10
}
