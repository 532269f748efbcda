//! Descriptors of types and methods (JVMS 4.3.2, 4.3.3), and names.

ghost use Rattle.std.specs.Prelude.{◌≡◌, ◌<◌, ◌≤◌, length, false};
ghost use Rattle.std.specs.Bool.{OnTrue};
ghost use Rattle.std.specs.Option.{option_map, option_map_or};
ghost use Rattle.bcj_tables_rules.specs.Texts as spec;
ghost use Rattle.bcj_tables.specs.function.Beginnings as function;

use bcj_names::is_identifier;

/// The most dimensions that a type has (JVMS 4.3.2).
const MOST_DIMENSIONS: usize = 255;

/// The name of class initialisers (JVMS 2.9).
pub const CLASS_INITIALISER: &[u8] = b"<clinit>";

/// The name of constructors (JVMS 2.9).
pub const CONSTRUCTOR: &[u8] = b"<init>";

/// The result of a method that gives nothing.
const RESULT_VOID: &[u8] = b"V";

/// The descriptor of the class initialiser.
pub const INITIALISER_DESCRIPTOR: &[u8] = b"()V";

/// Whether it is the name of a member.
pub fn is_member_name(name: &[u8]) -> bool
    ensures { result ≡ spec.is_member_name name.now }
{
    is_identifier(name) || name == CONSTRUCTOR || name == CLASS_INITIALISER
}

/// Whether the text begins with this byte.
fn begins(text: &[u8], byte: u8) -> bool
    ensures value { result ≡ function.begins byte text.now }
    ensures some { OnTrue result (0 < length text.now) }
{
    match text {
        [] => false,
        [first, ..] => *first == byte,
    }
}

/// What follows on the brackets at the front, of which at most 255 are taken.
fn behind_brackets(text: &[u8]) -> &[u8]
    ensures { result.now ≡ spec.behind_brackets 255 text.now }
{
    let mut left = text;
    for _turn in 0..MOST_DIMENSIONS {
        if !begins(left, b'[') {
            return left;
        }
        left = &left[1..];
    }
    left
}

/// The place of the first semicolon, or the end.
fn semicolon_at(text: &[u8]) -> usize
    ensures value { result ≡ spec.semicolon_at text.now }
    ensures within { result ≤ length text.now }
{
    for (i, byte) in text.iter().enumerate() {
        if *byte == b';' {
            return i;
        }
    }
    text.len()
}

/// What follows on a class's name and its semicolon at the front.
#[tactic(auto, unfolding(bcj_tables_rules::specs::Texts::behind_name))]
fn behind_name(text: &[u8]) -> Option<&[u8]>
    ensures { option_map (λ s. s.now) result ≡ spec.behind_name text.now }
{
    let end = semicolon_at(text);
    if end < text.len() && is_identifier(&text[..end]) {
        Some(&text[end + 1..])
    } else {
        None
    }
}

/// What follows on a type that is no array at the front.
#[tactic(auto, unfolding(bcj_tables_rules::specs::Texts::behind_element))]
fn behind_element(text: &[u8]) -> Option<&[u8]>
    ensures { option_map (λ s. s.now) result ≡ spec.behind_element text.now }
{
    match text {
        [] => None,
        [byte, behind @ ..] => match *byte {
            b'I' | b'Z' => Some(behind),
            b'L' => behind_name(behind),
            _ => None,
        },
    }
}

/// What follows on a type at the front.
#[tactic(auto, unfolding(bcj_tables_rules::specs::Texts::behind_type))]
fn behind_type(text: &[u8]) -> Option<&[u8]>
    ensures { option_map (λ s. s.now) result ≡ spec.behind_type text.now }
{
    behind_element(behind_brackets(text))
}

/// Whether it is the descriptor of a type.
#[tactic(auto, unfolding(bcj_tables_rules::specs::Texts::is_type))]
pub fn is_type(text: &[u8]) -> bool
    ensures { result ≡ spec.is_type text.now }
{
    match behind_type(text) {
        None => false,
        Some(behind) => behind.is_empty(),
    }
}

/// Whether it is the descriptor of a class.
#[tactic(auto, unfolding(bcj_tables_rules::specs::Texts::is_class_type))]
pub fn is_class_type(text: &[u8]) -> bool
    ensures { result ≡ spec.is_class_type text.now }
{
    begins(text, b'L') && is_type(text)
}

/// Whether it is the descriptor of an array.
#[tactic(auto, unfolding(bcj_tables_rules::specs::Texts::is_array_type))]
pub fn is_array_type(text: &[u8]) -> bool
    ensures { result ≡ spec.is_array_type text.now }
{
    begins(text, b'[') && is_type(text)
}

/// Whether it is the descriptor of a method's result.
#[tactic(auto, unfolding(bcj_tables_rules::specs::Texts::is_result))]
fn is_result(text: &[u8]) -> bool
    ensures { result ≡ spec.is_result text.now }
{
    text == RESULT_VOID || is_type(text)
}

/// What follows on the parameters and the parenthesis behind them.
fn behind_parameters(text: &[u8]) -> Option<&[u8]>
    ensures { option_map (λ s. s.now) result ≡ spec.behind_parameters (length text.now) text.now }
{
    let mut left = text;
    for _turn in 0..text.len() {
        if begins(left, b')') {
            return Some(&left[1..]);
        }
        match behind_type(left) {
            None => return None,
            Some(behind) => left = behind,
        }
    }
    None
}

/// Whether it is what follows on the parenthesis at the front of a method's descriptor.
fn is_behind_parenthesis(text: &[u8]) -> bool
    ensures { result ≡ option_map_or spec.is_result (spec.behind_parameters (length text.now) text.now) false }
{
    match behind_parameters(text) {
        None => false,
        Some(behind) => is_result(behind),
    }
}

/// Whether it is the descriptor of a method.
#[tactic(auto, unfolding(bcj_tables_rules::specs::Texts::is_method_descriptor))]
pub fn is_method_descriptor(text: &[u8]) -> bool
    ensures { result ≡ spec.is_method_descriptor text.now }
{
    begins(text, b'(') && is_behind_parenthesis(&text[1..])
}
