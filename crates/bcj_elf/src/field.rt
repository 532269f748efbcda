//! The fields of a file, and the first bad one of some of them.

ghost use Rattle.std.specs.Prelude.{◌≡◌, ◌<◌, ◌^◌, slice_index, length, take, drop, map};
ghost use Rattle.std.specs.Int.{w16, from_le_bytes};
ghost use Rattle.bcj_elf.specs.Elf.{half_size};
ghost use Rattle.bcj_elf.specs.Rules.{word_at};
ghost use Rattle.bcj_elf.specs.Fields.{first_bad, tested, byte_field, half_field, word_field, text_field};
ghost use Rattle.bcj_elf.specs.function.Judging.{verdict, plain_field};

use crate::parts::behind;
use crate::sizes::WORD_SIZE;

/// The bytes of an `Elf32_Half`.
const HALF_SIZE: u32 = 2;

/// A bad field: its name, and the offset of its first byte.
#[derive(Clone, Copy)]
pub struct BadField {
    pub what: &'static str,
    pub at: u32,
}

/// A field that is judged.
#[derive(Clone, Copy)]
pub struct Field {
    pub what: &'static str,
    pub at: u32,
    pub size: u32,
    /// Whether its value is as the fields before it ask.
    pub is_right: bool,
}

/// The first of the fields that isn't right or that the end cuts.
pub fn judge(bytes: &[u8], fields: &[Field]) -> Result<(), BadField>
    ensures { verdict result ≡ first_bad bytes.now (map plain_field fields.now) }
{
    for field in fields {
        let end = field.at as usize + field.size as usize;
        if bytes.len() < end || !field.is_right {
            return Err(BadField {
                what: field.what,
                at: field.at,
            });
        }
    }
    Ok(())
}

// What stands at an offset, with zeros for bytes past the end.

fn byte(bytes: &[u8], at: usize) -> u8
    ensures { result ≡ slice_index bytes.now at }
{
    if at < bytes.len() { bytes[at] } else { 0 }
}

fn half(bytes: &[u8], at: u32) -> u16
    ensures { result ≡ from_le_bytes w16 (take half_size (drop at bytes.now)) }
{
    let at = at as usize;
    u16::from_le_bytes([byte(bytes, at), byte(bytes, at + 1)])
}

pub fn word(bytes: &[u8], at: u32) -> u32
    ensures { result ≡ word_at at bytes.now }
{
    let at = at as usize;
    u32::from_le_bytes([
        byte(bytes, at),
        byte(bytes, at + 1),
        byte(bytes, at + 2),
        byte(bytes, at + 3),
    ])
}

/// The bytes from an offset on, at most so many.
pub fn part(bytes: &[u8], at: u32, size: u32) -> &[u8]
    ensures { result.now ≡ take size (drop at bytes.now) }
{
    let rest = behind(bytes, at as usize);
    let size = size as usize;
    if size <= rest.len() {
        &rest[..size]
    } else {
        rest
    }
}

// Kinds of fields.

/// A word that is tested.
#[tactic(auto, unfolding(crate::specs::Fields::tested, crate::specs::function::Judging::plain_field))]
pub fn tested(at: u32, what: &'static str, is_right: bool) -> Field
    ensures { plain_field result ≡ tested at what.now is_right }
{
    Field {
        what,
        at,
        size: WORD_SIZE,
        is_right,
    }
}

#[tactic(auto, unfolding(crate::specs::Fields::byte_field, crate::specs::function::Judging::plain_field))]
pub fn byte_field(bytes: &[u8], at: u32, what: &'static str, value: u8) -> Field
    ensures { plain_field result ≡ byte_field bytes.now at what.now value }
{
    Field {
        what,
        at,
        size: 1,
        is_right: byte(bytes, at as usize) == value,
    }
}

#[tactic(auto, unfolding(crate::specs::Fields::half_field, crate::specs::function::Judging::plain_field))]
pub fn half_field(bytes: &[u8], at: u32, what: &'static str, value: u16) -> Field
    ensures { plain_field result ≡ half_field bytes.now at what.now value }
{
    Field {
        what,
        at,
        size: HALF_SIZE,
        is_right: half(bytes, at) == value,
    }
}

#[tactic(auto, unfolding(crate::specs::Fields::word_field, crate::specs::function::Judging::plain_field))]
pub fn word_field(bytes: &[u8], at: u32, what: &'static str, value: u32) -> Field
    ensures { plain_field result ≡ word_field bytes.now at what.now value }
{
    Field {
        what,
        at,
        size: WORD_SIZE,
        is_right: word(bytes, at) == value,
    }
}

#[tactic(auto, unfolding(crate::specs::Fields::text_field, crate::specs::function::Judging::plain_field))]
pub fn text_field(bytes: &[u8], at: u32, what: &'static str, text: &[u8]) -> Field
    requires { length text.now < 2 ^ 32 }
    ensures { plain_field result ≡ text_field bytes.now at what.now text.now }
{
    let size = text.len() as u32;
    Field {
        what,
        at,
        size,
        is_right: part(bytes, at, size) == text,
    }
}
