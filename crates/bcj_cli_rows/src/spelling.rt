//! Bytes as text: `\n` is a line end, `\s` a space, `\\` a backslash, and `\x` with two digits any byte.

use std::alloc::{AllocError, Global};

/// How far an escape has been read.
#[derive(Clone, Copy)]
enum Escape {
    None,
    Begun,
    /// Behind `\x`.
    Digits,
    /// Behind the first of its digits.
    LastDigit(u8),
}

fn digit(b: u8) -> Option<u8> {
    match b {
        b'0'..=b'9' => Some(b - b'0'),
        b'a'..=b'f' => Some(b - b'a' + 10),
        _ => None,
    }
}

/// Behind a backslash.
fn escaped(b: u8) -> Option<(Escape, Option<u8>)> {
    match b {
        b'n' => Some((Escape::None, Some(b'\n'))),
        b's' => Some((Escape::None, Some(b' '))),
        b'\\' => Some((Escape::None, Some(b'\\'))),
        b'x' => Some((Escape::Digits, None)),
        _ => None,
    }
}

/// Reads one byte of a spelling: what is read of an escape behind it, and the byte that ends there.
fn read(escape: Escape, b: u8) -> Option<(Escape, Option<u8>)> {
    match escape {
        Escape::None if b == b'\\' => Some((Escape::Begun, None)),
        Escape::None => Some((Escape::None, Some(b))),
        Escape::Begun => escaped(b),
        Escape::Digits => Some((Escape::LastDigit(digit(b)?), None)),
        Escape::LastDigit(high) => {
            let low = digit(b)?;
            let byte = high.saturating_mul(16).saturating_add(low);
            Some((Escape::None, Some(byte)))
        }
    }
}

/// The bytes that a text spells.
pub fn bytes(alloc: Global, text: &str) -> Option<Vec<u8>> {
    let mut bytes = Vec::new(alloc);
    let mut escape = Escape::None;
    for b in text.as_bytes() {
        let (next, byte) = read(escape, *b)?;
        escape = next;
        if let Some(byte) = byte {
            bytes.push(byte).ok()?;
        }
    }
    match escape {
        Escape::None => Some(bytes),
        Escape::Begun | Escape::Digits | Escape::LastDigit(_) => None,
    }
}

/// The spelling of bytes, with an escape where a byte is no printed character.
pub fn spelling(alloc: Global, bytes: &[u8]) -> Result<String, AllocError> {
    let mut text = String::new(alloc);
    for b in bytes {
        match *b {
            b'\n' => text.push_str("\\n")?,
            b'\\' => text.push_str("\\\\")?,
            b' '..=b'~' => text.push(char::from(*b))?,
            other => text.push_str(format!(in alloc; "\\x{other:02x}")?.as_str())?,
        }
    }
    Ok(text)
}
