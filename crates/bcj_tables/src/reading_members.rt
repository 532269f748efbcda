//! Fields and methods.

ghost use Rattle.std.specs.Prelude.{◌≡◌, ◌≤◌, ◌<◌, ◌+◌, ◌*◌, ◌^◌, ◌==◌, ◌&&◌, ◌||◌, not, ℕ, List, IfOk};
ghost use Rattle.std.specs.HashSet.{contains_text};
ghost use Rattle.std.specs.Str.{bytes_eq};
ghost use Rattle.bcj_names.specs.Identifiers as identifier;
ghost use Rattle.bcj_tables_rules.specs.Steps.{Reads};
ghost use Rattle.bcj_tables_rules.specs.Format.{text_field, code_field};
ghost use Rattle.bcj_tables_rules.specs.Codes as code;
ghost use Rattle.bcj_tables_rules.specs.Texts as text;
ghost use Rattle.bcj_tables_rules.specs.Members as spec;

use crate::codes::{is_abstract, is_constructor, is_static, method_code_number, method_code_of};
use crate::cursor::Cursor;
use crate::descriptors::{
    CLASS_INITIALISER, CONSTRUCTOR, INITIALISER_DESCRIPTOR, is_method_descriptor, is_type,
};
use crate::keys::{Keys, key_of, note};
use crate::reading_codes::read_field_flags;
use bcj_names::is_identifier;
use bcj_symbolic_trees::{MethodKind, Name, Sequence};
use bcj_tables_rules::{
    ClassPlace, CodeSpan, FieldFlags, FieldRecord, FieldRecords, MethodCode, MethodRecord,
    MethodRecords, MethodTurn, Stop,
};
use std::alloc::Global;
use std::collections::HashSet;

/// The most words of a frame: 2,032 bytes, which are an immediate.
const MOST_FRAME: u32 = 508;

/// The bytes of an instruction.
const INSTRUCTION_SIZE: u64 = 4;

/// Whether a field of this name may have this type, where no field has both yet.
fn is_new_type(seen: &Keys, key: &str, ty: &[u8]) -> bool
    ensures { result ≡ (text.is_type ty.now && not (contains_text seen.now key.now)) }
{
    is_type(ty) && !seen.contains(key)
}

/// The type of a field of this name, which is then noted.
fn read_type<'a>(
    alloc: Global,
    cursor: &mut Cursor<'a>,
    name: &str,
    seen: &mut Keys,
) -> Result<&'a str, Stop>
    ensures reads { Reads (λ t. t.now) ((text_field (spec.is_new_type (λ q. contains_text seen.old q) name.now)).reads cursor.old) result cursor.new }
    ensures seen { IfOk result (λ t. (q : List ℕ) → contains_text seen.new q ≡ (contains_text seen.old q || bytes_eq (spec.member_key name.now t.now) q)) }
{
    let key = key_of(alloc, name, cursor.next_text())?;
    let good = is_new_type(seen, key.as_str(), cursor.next_text().as_bytes());
    let ty = cursor.take_text(good)?;
    note(seen, key)?;
    Ok(ty)
}

/// Whether what has these flags may have this value.
fn is_value(flags: FieldFlags, value: u32) -> bool
    ensures { result ≡ spec.is_value flags value }
{
    flags.is_constant || value == 0
}

#[tactic(auto, unfolding(bcj_tables_rules::specs::Members::field_format))]
fn read_field(
    alloc: Global,
    cursor: &mut Cursor<'_>,
    is_open: bool,
    seen: &mut Keys,
) -> Result<FieldRecord, Stop>
    ensures reads { Reads (λ f. f) ((spec.field_format is_open (λ q. contains_text seen.old q)).reads cursor.old) result cursor.new }
    ensures seen { IfOk result (λ f. (q : List ℕ) → contains_text seen.new q ≡ (contains_text seen.old q || bytes_eq (spec.member_key f.name f.ty) q)) }
{
    let good = is_identifier(cursor.next_text().as_bytes());
    let name = cursor.take_text(good)?;
    let ty = read_type(alloc, cursor, name, seen)?;
    let flags = read_field_flags(cursor, is_open)?;
    let good = is_value(flags, cursor.next_word());
    let value = cursor.take_word(good)?;
    Ok(FieldRecord {
        name: Name::from_str(alloc, name)?,
        ty: Name::from_str(alloc, ty)?,
        is_static: flags.is_static,
        is_final: flags.is_final,
        is_private: flags.is_private,
        is_constant: flags.is_constant,
        value,
    })
}

#[tactic(auto, unfolding(bcj_tables_rules::specs::Members::fields_format))]
pub fn read_fields(
    alloc: Global,
    cursor: &mut Cursor<'_>,
    is_open: bool,
) -> Result<FieldRecords, Stop>
    ensures { Reads (λ fs. fs) ((spec.fields_format is_open).reads cursor.old) result cursor.new }
{
    let count = cursor.take_word(true)?;
    let mut seen = HashSet::new(alloc);
    let mut found = Sequence::new(alloc);
    for _turn in 0..count {
        found.push(read_field(alloc, cursor, is_open, &mut seen)?)?;
    }
    Ok(found)
}

/// Whether a method may have this name: the class initialiser is the first, and the constructors come next.
#[tactic(auto, unfolding(bcj_tables_rules::specs::Members::is_method_name))]
fn is_method_name(turn: &MethodTurn, name: &[u8]) -> bool
    ensures { result ≡ spec.is_method_name turn.now name.now }
{
    if turn.is_first {
        return name == CLASS_INITIALISER;
    }
    is_identifier(name) || turn.may_construct && name == CONSTRUCTOR
}

/// Whether a method of this name may have this descriptor.
#[tactic(auto, unfolding(bcj_tables_rules::specs::Members::is_method_type))]
fn is_method_type(name: &[u8], desc: &[u8]) -> bool
    ensures { result ≡ spec.is_method_type name.now desc.now }
{
    if name == CLASS_INITIALISER {
        return desc == INITIALISER_DESCRIPTOR;
    }
    is_method_descriptor(desc)
}

/// Whether a method of this name may be of this kind.
#[tactic(auto, unfolding(bcj_tables_rules::specs::Members::is_kind_of))]
fn is_kind_of(name: &[u8], code: MethodCode) -> bool
    ensures { result ≡ spec.is_kind_of name.now code }
{
    if name == CLASS_INITIALISER {
        return is_static(code.kind) && !code.is_private;
    }
    if name == CONSTRUCTOR {
        return is_constructor(code.kind);
    }
    !is_constructor(code.kind)
}

/// Whether a method of this kind finds its code: an abstract one leaves none where it is the last, another one needs some.
#[tactic(auto, unfolding(bcj_tables_rules::specs::Members::finds_code))]
fn finds_code(turn: &MethodTurn, kind: MethodKind) -> bool
    ensures { result ≡ spec.finds_code turn.now kind }
{
    if is_abstract(kind) {
        return !turn.is_last || turn.code == turn.code_end;
    }
    turn.code < turn.code_end
}

/// Whether a method of this name may have this kind here.
#[tactic(auto, unfolding(bcj_tables_rules::specs::Members::is_method_code))]
fn is_method_code(turn: &MethodTurn, is_open: bool, name: &[u8], code: MethodCode) -> bool
    ensures { result ≡ spec.is_method_code turn.now is_open name.now code }
{
    is_kind_of(name, code)
        && (!code.is_private || is_open && !is_abstract(code.kind))
        && finds_code(turn, code.kind)
}

/// Whether the byte stands for a kind that a method of this name may have here.
fn is_method_byte(turn: &MethodTurn, is_open: bool, name: &[u8], byte: u8) -> bool
    ensures { result ≡ (code.method_code_number (code.method_code_of byte) == byte && spec.is_method_code turn.now is_open name.now (code.method_code_of byte)) }
{
    let code = method_code_of(byte);
    method_code_number(code) == byte && is_method_code(turn, is_open, name, code)
}

fn read_method_code(
    cursor: &mut Cursor<'_>,
    turn: &MethodTurn,
    is_open: bool,
    name: &[u8],
) -> Result<MethodCode, Stop>
    ensures { Reads (λ c. c) ((code_field code.method_code_number code.method_code_of (spec.is_method_code turn.now is_open name.now)).reads cursor.old) result cursor.new }
{
    let good = is_method_byte(turn, is_open, name, cursor.next_byte());
    let byte = cursor.take_byte(good)?;
    Ok(method_code_of(byte))
}

/// Whether the code of a method may have so many words: at least one, and for the last method all that are left.
#[tactic(auto, unfolding(bcj_tables_rules::specs::Members::are_words))]
fn are_words(turn: &MethodTurn, words: u32) -> bool
    requires { turn.now.code < 2 ^ 34 }
    ensures { result ≡ spec.are_words turn.now words }
{
    let end = turn.code + INSTRUCTION_SIZE * words as u64;
    0 < words && end <= turn.code_end && (!turn.is_last || end == turn.code_end)
}

fn is_entry(turn: &MethodTurn, kind: MethodKind, entry: u32) -> bool
    ensures { result ≡ spec.is_entry turn.now kind entry }
{
    if is_abstract(kind) {
        return entry == 0;
    }
    entry as u64 == turn.code
}

fn is_length(turn: &MethodTurn, kind: MethodKind, words: u32) -> bool
    requires { turn.now.code < 2 ^ 34 }
    ensures { result ≡ spec.is_length turn.now kind words }
{
    if is_abstract(kind) {
        return words == 0;
    }
    are_words(turn, words)
}

fn is_frame(kind: MethodKind, frame: u32) -> bool
    ensures { result ≡ spec.is_frame kind frame }
{
    if is_abstract(kind) {
        return frame == 0;
    }
    0 < frame && frame <= MOST_FRAME
}

#[tactic(auto, unfolding(bcj_tables_rules::specs::Members::code_format))]
fn read_code(cursor: &mut Cursor<'_>, turn: &MethodTurn, kind: MethodKind) -> Result<CodeSpan, Stop>
    requires order { turn.now.code ≤ turn.now.code_end }
    requires small { turn.now.code_end < 2 ^ 33 }
    ensures reads { Reads (λ s. s) ((spec.code_format turn.now kind).reads cursor.old) result cursor.new }
    ensures within { IfOk result (λ s. turn.now.code + 4 * s.words ≤ turn.now.code_end) }
{
    let good = is_entry(turn, kind, cursor.next_word());
    let entry = cursor.take_word(good)?;
    let good = is_length(turn, kind, cursor.next_word());
    let words = cursor.take_word(good)?;
    let good = is_frame(kind, cursor.next_word());
    let frame = cursor.take_word(good)?;
    Ok(CodeSpan {
        entry,
        words,
        frame,
    })
}

/// Whether a method of this name may have this descriptor, where no method has both yet.
fn is_new_desc(seen: &Keys, key: &str, name: &[u8], desc: &[u8]) -> bool
    ensures { result ≡ (spec.is_method_type name.now desc.now && not (contains_text seen.now key.now)) }
{
    is_method_type(name, desc) && !seen.contains(key)
}

/// The descriptor of a method of this name, which is then noted.
fn read_desc<'a>(
    alloc: Global,
    cursor: &mut Cursor<'a>,
    name: &str,
    seen: &mut Keys,
) -> Result<&'a str, Stop>
    ensures reads { Reads (λ t. t.now) ((text_field (spec.is_new_desc (λ q. contains_text seen.old q) name.now)).reads cursor.old) result cursor.new }
    ensures seen { IfOk result (λ t. (q : List ℕ) → contains_text seen.new q ≡ (contains_text seen.old q || bytes_eq (spec.member_key name.now t.now) q)) }
{
    let key = key_of(alloc, name, cursor.next_text())?;
    let good = is_new_desc(
        seen,
        key.as_str(),
        name.as_bytes(),
        cursor.next_text().as_bytes(),
    );
    let desc = cursor.take_text(good)?;
    note(seen, key)?;
    Ok(desc)
}

#[tactic(auto, unfolding(bcj_tables_rules::specs::Members::method_format))]
fn read_method(
    alloc: Global,
    cursor: &mut Cursor<'_>,
    turn: &MethodTurn,
    is_open: bool,
    seen: &mut Keys,
) -> Result<MethodRecord, Stop>
    requires order { turn.now.code ≤ turn.now.code_end }
    requires small { turn.now.code_end < 2 ^ 33 }
    ensures reads { Reads (λ m. m) ((spec.method_format turn.now is_open (λ q. contains_text seen.old q)).reads cursor.old) result cursor.new }
    ensures seen { IfOk result (λ m. (q : List ℕ) → contains_text seen.new q ≡ (contains_text seen.old q || bytes_eq (spec.member_key m.name m.desc) q)) }
    ensures within { IfOk result (λ m. turn.now.code + 4 * m.words ≤ turn.now.code_end) }
{
    let good = is_method_name(turn, cursor.next_text().as_bytes());
    let name = cursor.take_text(good)?;
    let desc = read_desc(alloc, cursor, name, seen)?;
    let code = read_method_code(cursor, turn, is_open, name.as_bytes())?;
    let span = read_code(cursor, turn, code.kind)?;
    Ok(MethodRecord {
        name: Name::from_str(alloc, name)?,
        desc: Name::from_str(alloc, desc)?,
        kind: code.kind,
        is_private: code.is_private,
        entry: span.entry,
        words: span.words,
        frame: span.frame,
    })
}

/// Whether a constructor may follow on a method of this name.
fn goes_on(may_construct: bool, name: &[u8]) -> bool
    ensures { result ≡ (may_construct && not (identifier.is_identifier name.now)) }
{
    may_construct && !is_identifier(name)
}

#[tactic(auto, unfolding(bcj_tables_rules::specs::Members::methods_format))]
pub fn read_methods(
    alloc: Global,
    cursor: &mut Cursor<'_>,
    place: &ClassPlace,
    is_open: bool,
) -> Result<MethodRecords, Stop>
    ensures { Reads (λ ms. ms) ((spec.methods_format place.now is_open).reads cursor.old) result cursor.new }
{
    let good = cursor.next_word() > 0;
    let count = cursor.take_word(good)?;
    let code_end = place.code as u64 + place.code_size as u64;
    let mut code = place.code as u64;
    let mut may_construct = true;
    let mut seen = HashSet::new(alloc);
    let mut found = Sequence::new(alloc);
    for at in 0..count {
        let turn = MethodTurn {
            is_first: at == 0,
            is_last: at + 1 == count,
            may_construct,
            code,
            code_end,
        };
        let method = read_method(alloc, cursor, &turn, is_open, &mut seen)?;
        code += INSTRUCTION_SIZE * method.words as u64;
        may_construct = goes_on(may_construct, method.name.as_str().as_bytes());
        found.push(method)?;
    }
    Ok(found)
}
