//! What makes the parts of an object fit one another.

ghost use Rattle.std.specs.Prelude.{◌≡◌, ◌<◌, ◌≤◌, ◌+◌, ◌^◌, ◌↔◌, length, IsTrue, IfSome, IfNone, nat_lt};
ghost use Rattle.bcj_elf.specs.Plain.{plain, plain_symbol, plain_symbols};
ghost use Rattle.bcj_elf.specs.Layout.{padding, sizes, strings, file_end};
ghost use Rattle.bcj_elf.specs.Rules.{is_section, is_region, are_symbols, can_relocate, is_clear, is_in_place, is_bound, are_relocations, IsObject};
ghost use Rattle.bcj_elf.specs.function.Acceptance.{meets_rules};

use crate::elf::{FILE_HEADER_SIZE, R_INFO_SYMBOLS, RELOCATION_SIZE, SYMBOL_SIZE};
use crate::names::is_named;
use crate::object::{Object, Relocation, RelocationKind, Section, Symbol};
use crate::parts::word_of;
use crate::sizes::{FIRST_NAME_AT, SECTION_HEADERS_SIZE, SECTION_NAMES_SIZE, WORD_SIZE};

/// The least word with a bit in the immediate of a U-type instruction.
const U_IMMEDIATE: u32 = 0x1000;
/// The least word with a bit in the immediate of an I-type instruction.
const I_IMMEDIATE: u32 = 0x10_0000;
/// The least word with a bit in the high part of an S-type instruction's immediate.
const S_IMMEDIATE: u32 = 0x200_0000;
/// What the low part of an S-type instruction's immediate counts for.
const S_LOW: u32 = 0x80;
/// How many values that part has.
const S_LOW_VALUES: u32 = 0x20;

pub fn can_relocate(section: Section, kind: RelocationKind) -> bool
    ensures { result ≡ can_relocate section kind }
{
    match section {
        Section::Text => match kind {
            RelocationKind::Word => false,
            RelocationKind::Hi20 => true,
            RelocationKind::Lo12I => true,
            RelocationKind::Lo12S => true,
        },
        Section::Tab => match kind {
            RelocationKind::Word => true,
            RelocationKind::Hi20 => false,
            RelocationKind::Lo12I => false,
            RelocationKind::Lo12S => false,
        },
    }
}

/// Whether the bits that the relocation sets are zero in the word.
pub fn is_clear(kind: RelocationKind, word: u32) -> bool
    ensures { result ≡ is_clear kind word }
{
    match kind {
        RelocationKind::Word => word == 0,
        RelocationKind::Hi20 => word < U_IMMEDIATE,
        RelocationKind::Lo12I => word < I_IMMEDIATE,
        RelocationKind::Lo12S => word < S_IMMEDIATE && word / S_LOW % S_LOW_VALUES == 0,
    }
}

/// Whether the word that the relocation changes lies in the section, from `least` on, and is clear.
#[tactic(auto, unfolding(crate::specs::Rules::is_in_place))]
fn is_in_place(bytes: &[u8], least: usize, r: &Relocation) -> bool
    ensures { result ≡ is_in_place bytes.now least r.now }
{
    let offset = r.offset as usize;
    least <= offset
        && offset % WORD_SIZE as usize == 0
        && offset + WORD_SIZE as usize <= bytes.len()
        && is_clear(r.kind, word_of(bytes, offset))
}

/// Whether the relocation names one of so many symbols, and has room in its fields.
#[tactic(auto, unfolding(crate::specs::Rules::is_bound))]
fn is_bound(section: Section, symbols: usize, r: &Relocation) -> bool
    ensures { result ≡ is_bound section symbols r.now }
{
    let _addend = r.addend;
    let symbol = r.symbol as usize;
    can_relocate(section, r.kind) && 0 < symbol && symbol <= symbols && symbol < R_INFO_SYMBOLS
}

fn are_relocations(section: Section, bytes: &[u8], symbols: usize, relocs: &[Relocation]) -> bool
    ensures { result ≡ are_relocations section bytes.now symbols 0 relocs.now }
{
    let mut least = 0;
    for r in relocs {
        if !is_in_place(bytes, least, r) || !is_bound(section, symbols, r) {
            return false;
        }
        least = r.offset as usize + 1;
    }
    true
}

fn is_in(section: Section, s: &Symbol) -> bool
    ensures { result ≡ is_section section s.now.section }
{
    match section {
        Section::Text => match s.section {
            Section::Text => true,
            Section::Tab => false,
        },
        Section::Tab => match s.section {
            Section::Text => false,
            Section::Tab => true,
        },
    }
}

/// Whether the symbol's region begins at `at`, has one or more words and ends in its section.
#[tactic(auto, unfolding(crate::specs::Rules::is_region))]
fn is_region(section: Section, end: usize, at: usize, s: &Symbol) -> bool
    ensures value { result ≡ is_region section end at (plain_symbol s.now) }
    ensures within { IsTrue result → at + s.now.size ≤ end }
{
    is_in(section, s)
        && s.value as usize == at
        && 0 < s.size
        && s.size % WORD_SIZE == 0
        && at + s.size as usize <= end
}

fn are_symbols(text: usize, tab: usize, symbols: &[Symbol]) -> bool
    ensures { result ≡ are_symbols text tab 0 0 (plain_symbols symbols.now) }
{
    let mut text_at = 0;
    let mut tab_at = 0;
    let mut rest = symbols;
    while let [code, tables, others @ ..] = rest {
        if !is_named(&code.name, &tables.name)
            || !is_region(Section::Text, text, text_at, code)
            || !is_region(Section::Tab, tab, tab_at, tables)
        {
            return false;
        }
        text_at += code.size as usize;
        tab_at += tables.size as usize;
        rest = others;
    }
    rest.is_empty() && text_at == text && tab_at == tab
}

/// The size with its padding.
fn padded(size: usize) -> usize
    requires { size < 2 ^ 32 }
    ensures { result ≡ size + padding size }
{
    let word = WORD_SIZE as usize;
    size + (word - size % word) % word
}

/// Whether the file would have fewer than 2^32 bytes, where `strtab` is the size of the names.
fn is_small(o: &Object, strtab: usize) -> bool
    requires { strtab ≡ length (strings (plain_symbols o.now.symbols.items)) }
    ensures { result ≡ nat_lt (file_end (sizes (plain o.now))) (2 ^ 32) }
{
    let most = u32::MAX as usize;
    let counts = [
        o.text.len(),
        o.text_relocs.len(),
        o.tab.len(),
        o.tab_relocs.len(),
        o.rec.len(),
        o.symbols.len(),
        strtab,
    ];
    let [text, text_relocs, tab, tab_relocs, rec, symbols, names] = counts;
    if text > most || text_relocs > most || tab > most || tab_relocs > most {
        return false;
    }
    if rec > most || symbols > most || names > most {
        return false;
    }
    let relocations = RELOCATION_SIZE as usize * (text_relocs + tab_relocs);
    let before_symbols = FILE_HEADER_SIZE as usize + text + tab + relocations + padded(rec);
    let before_names = before_symbols + SYMBOL_SIZE as usize * (1 + symbols) + padded(names);
    before_names + SECTION_NAMES_SIZE + SECTION_HEADERS_SIZE <= most
}

/// Whether its parts fit one another, where `strtab` is the size of the names.
#[tactic(auto, unfolding(crate::specs::function::Acceptance::meets_rules))]
fn meets_rules(o: &Object, strtab: usize) -> bool
    requires { strtab ≡ length (strings (plain_symbols o.now.symbols.items)) }
    ensures { result ≡ meets_rules (plain o.now) }
{
    o.text.len() % WORD_SIZE as usize == 0
        && o.tab.len() % WORD_SIZE as usize == 0
        && is_small(o, strtab)
        && are_symbols(o.text.len(), o.tab.len(), &o.symbols)
        && are_relocations(Section::Text, &o.text, o.symbols.len(), &o.text_relocs)
        && are_relocations(Section::Tab, &o.tab, o.symbols.len(), &o.tab_relocs)
}

/// The size of the names; `None` where no file has room for them.
fn names_size(symbols: &[Symbol]) -> Option<usize>
    ensures some { IfSome result (λ n. n ≡ length (strings (plain_symbols symbols.now))) }
    ensures none { IfNone result (2 ^ 32 ≤ length (strings (plain_symbols symbols.now))) }
{
    let most = u32::MAX as usize;
    let mut size = FIRST_NAME_AT;
    for s in symbols {
        let name = s.name.len();
        if name >= most - size {
            return None;
        }
        size += name + 1;
    }
    Some(size)
}

/// Whether its parts fit one another, so that it has a spelling.
pub fn is_object(o: &Object) -> bool
    ensures { IsTrue result ↔ IsObject (plain o.now) }
{
    match names_size(&o.symbols) {
        Some(strtab) => meets_rules(o, strtab),
        None => false,
    }
}
