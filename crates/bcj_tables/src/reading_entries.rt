//! Ranges, pairs and the entries of the four tables.

ghost use Rattle.std.specs.Prelude.{◌≡◌, IfOk, true};
ghost use Rattle.bcj_names.specs.Identifiers as identifier;
ghost use Rattle.bcj_tables_rules.specs.Steps.{Reads};
ghost use Rattle.bcj_tables_rules.specs.Format.{plain_list, text_field};
ghost use Rattle.bcj_tables_rules.specs.Entries as spec;

use crate::cursor::Cursor;
use crate::descriptors::{
    is_array_type, is_class_type, is_member_name, is_method_descriptor, is_type,
};
use crate::reading_codes::{read_address, read_bit};
use bcj_names::is_identifier;
use bcj_symbolic_trees::{Name, Names, Sequence};
use bcj_tables_rules::{
    AEntries, AEntry, AEntryKind, CEntries, CEntry, IEntries, IEntry, MethodRecord, OEntries,
    OEntry, PairRecord, PairRecords, Range, Ranges, Stop,
};
use std::alloc::{AllocError, Global};

/// The bytes of an instruction.
const INSTRUCTION_SIZE: u64 = 4;

/// The name that a text spells, where an empty one spells none.
pub fn name_or_none(alloc: Global, text: &str) -> Result<Option<Name>, AllocError>
    ensures { IfOk result (λ o. o ≡ spec.option_of_text text.now) }
{
    if text.is_empty() {
        return Ok(None);
    }
    Ok(Some(Name::from_str(alloc, text)?))
}

fn read_name(alloc: Global, cursor: &mut Cursor<'_>) -> Result<Name, Stop>
    ensures { Reads (λ n. n) ((text_field identifier.is_identifier).reads cursor.old) result cursor.new }
{
    let good = is_identifier(cursor.next_text().as_bytes());
    let text = cursor.take_text(good)?;
    Ok(Name::from_str(alloc, text)?)
}

pub fn read_names(alloc: Global, cursor: &mut Cursor<'_>) -> Result<Names, Stop>
    ensures { Reads (λ ns. ns) ((plain_list (text_field identifier.is_identifier)).reads cursor.old) result cursor.new }
{
    let count = cursor.take_word(true)?;
    let mut found = Sequence::new(alloc);
    for _turn in 0..count {
        found.push(read_name(alloc, cursor)?)?;
    }
    Ok(found)
}

/// Where the code of a method begins, and 0 for a number that no method has.
#[tactic(auto, unfolding(bcj_tables_rules::specs::Entries::begins_at))]
fn begins_at(methods: &[MethodRecord], number: u32) -> u64
    ensures { result ≡ spec.begins_at methods.now number }
{
    match methods.get(number as usize) {
        None => 0,
        Some(m) => m.entry as u64,
    }
}

/// Where the code of a method ends, and 0 for a number that no method has.
#[tactic(auto, unfolding(bcj_tables_rules::specs::Entries::ends_at))]
fn ends_at(methods: &[MethodRecord], number: u32) -> u64
    ensures { result ≡ spec.ends_at methods.now number }
{
    match methods.get(number as usize) {
        None => 0,
        Some(m) => m.entry as u64 + INSTRUCTION_SIZE * m.words as u64,
    }
}

/// Whether an instruction begins at this place, or the code ends there.
fn is_place(at: u32, least: u64, most: u64) -> bool
    ensures { result ≡ spec.is_place at least most }
{
    let at = at as u64;
    at % INSTRUCTION_SIZE == 0 && least <= at && at <= most
}

fn has_code(methods: &[MethodRecord], method: u32) -> bool
    ensures { result ≡ spec.has_code methods.now method }
{
    begins_at(methods, method) < ends_at(methods, method)
}

fn is_start(methods: &[MethodRecord], method: u32, start: u32) -> bool
    ensures { result ≡ spec.is_start methods.now method start }
{
    is_place(start, begins_at(methods, method), ends_at(methods, method))
}

fn is_end(methods: &[MethodRecord], method: u32, start: u32, end: u32) -> bool
    ensures { result ≡ spec.is_end methods.now method start end }
{
    is_place(end, start as u64, ends_at(methods, method))
}

fn is_target(methods: &[MethodRecord], method: u32, target: u32) -> bool
    ensures { result ≡ spec.is_target methods.now method target }
{
    let end = ends_at(methods, method);
    is_place(target, begins_at(methods, method), end) && (target as u64) < end
}

/// Whether it is an identifier, or nothing.
fn is_option_name(text: &[u8]) -> bool
    ensures { result ≡ spec.is_option_name text.now }
{
    text.is_empty() || is_identifier(text)
}

#[tactic(auto, unfolding(bcj_tables_rules::specs::Entries::range_format))]
fn read_range(
    alloc: Global,
    cursor: &mut Cursor<'_>,
    methods: &[MethodRecord],
) -> Result<Range, Stop>
    ensures { Reads (λ r. r) ((spec.range_format methods.now).reads cursor.old) result cursor.new }
{
    let good = has_code(methods, cursor.next_word());
    let method = cursor.take_word(good)?;
    let good = is_start(methods, method, cursor.next_word());
    let start = cursor.take_word(good)?;
    let good = is_end(methods, method, start, cursor.next_word());
    let end = cursor.take_word(good)?;
    let good = is_target(methods, method, cursor.next_word());
    let target = cursor.take_word(good)?;
    let good = is_option_name(cursor.next_text().as_bytes());
    let class = cursor.take_text(good)?;
    Ok(Range {
        method,
        start,
        end,
        target,
        class: name_or_none(alloc, class)?,
    })
}

pub fn read_ranges(
    alloc: Global,
    cursor: &mut Cursor<'_>,
    methods: &[MethodRecord],
) -> Result<Ranges, Stop>
    ensures { Reads (λ rs. rs) ((plain_list (spec.range_format methods.now)).reads cursor.old) result cursor.new }
{
    let count = cursor.take_word(true)?;
    let mut found = Sequence::new(alloc);
    for _turn in 0..count {
        found.push(read_range(alloc, cursor, methods)?)?;
    }
    Ok(found)
}

#[tactic(auto, unfolding(bcj_tables_rules::specs::Entries::pair_format))]
fn read_pair(alloc: Global, cursor: &mut Cursor<'_>) -> Result<PairRecord, Stop>
    ensures { Reads (λ p. p) (spec.pair_format.reads cursor.old) result cursor.new }
{
    let good = is_type(cursor.next_text().as_bytes());
    let from = cursor.take_text(good)?;
    let good = is_type(cursor.next_text().as_bytes());
    let to = cursor.take_text(good)?;
    Ok(PairRecord {
        from: Name::from_str(alloc, from)?,
        to: Name::from_str(alloc, to)?,
    })
}

pub fn read_pairs(alloc: Global, cursor: &mut Cursor<'_>) -> Result<PairRecords, Stop>
    ensures { Reads (λ ps. ps) ((plain_list spec.pair_format).reads cursor.old) result cursor.new }
{
    let count = cursor.take_word(true)?;
    let mut found = Sequence::new(alloc);
    for _turn in 0..count {
        found.push(read_pair(alloc, cursor)?)?;
    }
    Ok(found)
}

fn is_ctable_type(is_new: bool, ty: &[u8]) -> bool
    ensures { result ≡ spec.is_ctable_type is_new ty.now }
{
    is_class_type(ty) || !is_new && is_array_type(ty)
}

#[tactic(auto, unfolding(bcj_tables_rules::specs::Entries::centry_format))]
fn read_centry(alloc: Global, cursor: &mut Cursor<'_>) -> Result<CEntry, Stop>
    ensures { Reads (λ e. e) (spec.centry_format.reads cursor.old) result cursor.new }
{
    let is_new = read_bit(cursor)?;
    let good = is_ctable_type(is_new, cursor.next_text().as_bytes());
    let ty = cursor.take_text(good)?;
    Ok(CEntry {
        is_new,
        ty: Name::from_str(alloc, ty)?,
    })
}

pub fn read_ctable(alloc: Global, cursor: &mut Cursor<'_>) -> Result<CEntries, Stop>
    ensures { Reads (λ es. es) ((plain_list spec.centry_format).reads cursor.old) result cursor.new }
{
    let count = cursor.take_word(true)?;
    let mut found = Sequence::new(alloc);
    for _turn in 0..count {
        found.push(read_centry(alloc, cursor)?)?;
    }
    Ok(found)
}

/// The descriptor of a method, or that of a type.
fn is_member_type(is_method: bool, desc: &[u8]) -> bool
    ensures { result ≡ spec.is_member_type is_method desc.now }
{
    if is_method {
        is_method_descriptor(desc)
    } else {
        is_type(desc)
    }
}

/// A class, a name in it and its descriptor.
#[tactic(auto, unfolding(bcj_tables_rules::specs::Entries::member_format))]
fn read_member(alloc: Global, cursor: &mut Cursor<'_>, is_method: bool) -> Result<IEntry, Stop>
    ensures { Reads (λ e. e) ((spec.member_format is_method).reads cursor.old) result cursor.new }
{
    let good = is_identifier(cursor.next_text().as_bytes());
    let class = cursor.take_text(good)?;
    let good = is_member_name(cursor.next_text().as_bytes());
    let name = cursor.take_text(good)?;
    let good = is_member_type(is_method, cursor.next_text().as_bytes());
    let desc = cursor.take_text(good)?;
    Ok(IEntry {
        class: Name::from_str(alloc, class)?,
        name: Name::from_str(alloc, name)?,
        desc: Name::from_str(alloc, desc)?,
    })
}

#[tactic(auto, unfolding(bcj_tables_rules::specs::Entries::oentry_format))]
fn read_oentry(alloc: Global, cursor: &mut Cursor<'_>) -> Result<OEntry, Stop>
    ensures { Reads (λ e. e) (spec.oentry_format.reads cursor.old) result cursor.new }
{
    let is_method = read_bit(cursor)?;
    let IEntry { class, name, desc } = read_member(alloc, cursor, is_method)?;
    Ok(OEntry {
        is_method,
        class,
        name,
        desc,
    })
}

pub fn read_otable(alloc: Global, cursor: &mut Cursor<'_>) -> Result<OEntries, Stop>
    ensures { Reads (λ es. es) ((plain_list spec.oentry_format).reads cursor.old) result cursor.new }
{
    let count = cursor.take_word(true)?;
    let mut found = Sequence::new(alloc);
    for _turn in 0..count {
        found.push(read_oentry(alloc, cursor)?)?;
    }
    Ok(found)
}

fn is_method_address(kind: AEntryKind) -> bool
    ensures { result ≡ spec.is_method_address kind }
{
    match kind {
        AEntryKind::Field => false,
        AEntryKind::StaticMethod => true,
        AEntryKind::Special => true,
    }
}

#[tactic(auto, unfolding(bcj_tables_rules::specs::Entries::aentry_format))]
fn read_aentry(alloc: Global, cursor: &mut Cursor<'_>) -> Result<AEntry, Stop>
    ensures { Reads (λ e. e) (spec.aentry_format.reads cursor.old) result cursor.new }
{
    let kind = read_address(cursor)?;
    let IEntry { class, name, desc } = read_member(alloc, cursor, is_method_address(kind))?;
    Ok(AEntry {
        kind,
        class,
        name,
        desc,
    })
}

pub fn read_atable(alloc: Global, cursor: &mut Cursor<'_>) -> Result<AEntries, Stop>
    ensures { Reads (λ es. es) ((plain_list spec.aentry_format).reads cursor.old) result cursor.new }
{
    let count = cursor.take_word(true)?;
    let mut found = Sequence::new(alloc);
    for _turn in 0..count {
        found.push(read_aentry(alloc, cursor)?)?;
    }
    Ok(found)
}

pub fn read_itable(alloc: Global, cursor: &mut Cursor<'_>) -> Result<IEntries, Stop>
    ensures { Reads (λ es. es) ((plain_list (spec.member_format true)).reads cursor.old) result cursor.new }
{
    let count = cursor.take_word(true)?;
    let mut found = Sequence::new(alloc);
    for _turn in 0..count {
        found.push(read_member(alloc, cursor, true)?)?;
    }
    Ok(found)
}
