//! The first bad field of what stands in the sections.

ghost use Rattle.std.specs.Prelude.{◌≡◌, ◌<◌, ◌≤◌, ◌+◌, ◌*◌, ◌^◌, ◌==◌, OnOk, length, IsTrue};
ghost use Rattle.bcj_elf.specs.Elf.{symbol_size, relocation_size};
ghost use Rattle.bcj_elf.specs.Layout.{file_end, section_names, strtab_at, name_len, behind_name, front_name};
ghost use Rattle.bcj_elf.specs.Fields.{first_bad};
ghost use Rattle.bcj_elf.specs.Places.{padding_fields, section_name_fields, class_name_fields, name_fields, size_of_symbol, is_region_size, symbol_fields, null_fields, entry_fields, next_turn, class_fields, classes_fields, is_type, relocation_fields, relocations_fields, classes_in, strtab_in, strtab_fields, first_turn, symtab_fields, rela_fields, gap_fields, contents_fields};
ghost use Rattle.bcj_elf.specs.Places as spec;
ghost use Rattle.bcj_elf.specs.function.Judging.{verdict, plain_field, plain_turn};

use crate::decoding::{after_name, kind_at, name_length};
use crate::elf::{
    FILE_HEADER_SIZE, GLOBAL_FUNC, GLOBAL_OBJECT, R_INFO, R_INFO_SYMBOL, RELOCATION_SIZE, ST_SIZE,
    STV_DEFAULT, SYMBOL_SIZE,
};
use crate::field::{
    BadField, Field, byte_field, half_field, judge, part, tested, text_field, word, word_field,
};
use crate::names::{is_code_name, is_tables_name};
use crate::object::Section;
use crate::parts::behind;
use crate::rules::{can_relocate, is_clear};
use crate::sizes::{
    FIRST_NAME_AT, NULL_INDEX, Sizes, TAB_INDEX, TEXT_INDEX, WORD_SIZE, padding_of,
};

fn judge_padding(bytes: &[u8], at: u32, count: u32) -> Result<(), BadField>
    requires { at + count < 2 ^ 32 }
    ensures { verdict result ≡ first_bad bytes.now (padding_fields bytes.now at count) }
{
    for i in 0..count {
        judge(bytes, &[byte_field(bytes, at + i, "padding", 0)])?;
    }
    Ok(())
}

/// The contents of `.shstrtab`: a zero byte, and each name with its own.
#[tactic(auto, unfolding(crate::specs::Places::section_name_fields))]
fn judge_section_names(bytes: &[u8], at: u32) -> Result<(), BadField>
    requires { at + length section_names < 2 ^ 32 }
    ensures { verdict result ≡ first_bad bytes.now (section_name_fields bytes.now at) }
{
    const NAME: &str = ".shstrtab";
    judge(
        bytes,
        &[
            text_field(bytes, at, NAME, b"\0"),
            text_field(bytes, at + 1, NAME, b".text\0"),
            text_field(bytes, at + 7, NAME, b".rela.text\0"),
            text_field(bytes, at + 18, NAME, b".bcj.tab\0"),
            text_field(bytes, at + 27, NAME, b".rela.bcj.tab\0"),
            text_field(bytes, at + 41, NAME, b".bcj.rec\0"),
            text_field(bytes, at + 50, NAME, b".symtab\0"),
            text_field(bytes, at + 58, NAME, b".strtab\0"),
            text_field(bytes, at + 66, NAME, b".shstrtab\0"),
        ],
    )
}

fn front_name(left: &[u8]) -> &[u8]
    ensures { result.now ≡ front_name left.now }
{
    &left[..name_length(left)]
}

/// The name at the front with its zero byte.
#[tactic(auto, unfolding(crate::specs::function::Judging::plain_field))]
fn name_field(at: u32, left: &[u8], is_named: bool) -> Field
    requires { length left.now + 1 < 2 ^ 32 }
    ensures { plain_field result ≡ spec.name_field at left.now is_named }
{
    let size = name_length(left);
    Field {
        what: ".strtab",
        at,
        size: size as u32 + 1,
        is_right: size < left.len() && is_named,
    }
}

/// The names of a class's code and tables, where `left` is what is left of `.strtab`.
#[tactic(auto, unfolding(crate::specs::Places::class_name_fields))]
fn judge_class_names(bytes: &[u8], at: u32, left: &[u8]) -> Result<(), BadField>
    requires { at + length left.now + 1 < 2 ^ 32 }
    ensures place { verdict result ≡ first_bad bytes.now (class_name_fields at left.now) }
    ensures code { OnOk result (name_len left.now < length left.now) }
    ensures tables { OnOk result (name_len (behind_name left.now) < length (behind_name left.now)) }
{
    let others = after_name(left);
    let code = front_name(left);
    let is_tables = is_tables_name(code, front_name(others));
    let tables_at = at + name_length(left) as u32 + 1;
    judge(
        bytes,
        &[
            name_field(at, left, is_code_name(code)),
            name_field(tables_at, others, is_tables),
        ],
    )
}

/// The names of so many classes, where `left` is what is left of `.strtab`.
fn judge_names(bytes: &[u8], at: u32, left: &[u8], classes: u32) -> Result<(), BadField>
    requires { at + length left.now + 1 < 2 ^ 32 }
    ensures { verdict result ≡ first_bad bytes.now (name_fields at left.now classes) }
{
    let mut at = at;
    let mut left = left;
    for _ in 0..classes {
        judge_class_names(bytes, at, left)?;
        let others = after_name(left);
        at += name_length(left) as u32 + 1 + name_length(others) as u32 + 1;
        left = after_name(others);
    }
    judge(
        bytes,
        &[Field {
            what: ".strtab",
            at,
            size: 0,
            is_right: left.is_empty(),
        }],
    )
}

/// The zero byte that begins `.strtab`.
#[tactic(auto, unfolding(crate::specs::Places::zero_field, crate::specs::function::Judging::plain_field))]
fn zero_field(at: u32, strtab: &[u8]) -> Field
    ensures { plain_field result ≡ spec.zero_field at strtab.now }
{
    let size = FIRST_NAME_AT as u32;
    Field {
        what: ".strtab",
        at,
        size,
        is_right: part(strtab, 0, size) == [0].as_slice(),
    }
}

fn judge_strtab(bytes: &[u8], at: u32, s: &Sizes) -> Result<(), BadField>
    requires place { at ≡ strtab_at s.now }
    requires room { at + s.now.strtab + 2 < 2 ^ 32 }
    ensures { verdict result ≡ first_bad bytes.now (strtab_fields bytes.now s.now) }
{
    let strtab = part(bytes, at, s.strtab);
    judge(bytes, &[zero_field(at, strtab)])?;
    let names = behind(strtab, FIRST_NAME_AT);
    judge_names(bytes, at + FIRST_NAME_AT as u32, names, s.classes())
}

/// What the entry of a symbol is judged by.
#[derive(Clone, Copy)]
struct Expected {
    name: usize,
    value: u32,
    is_size: bool,
    info: u8,
    index: usize,
}

/// `st_size` of the entry at an offset.
fn size_of_symbol(bytes: &[u8], at: u32) -> u32
    requires { at + symbol_size < 2 ^ 32 }
    ensures { result ≡ size_of_symbol bytes.now at }
{
    word(bytes, at + ST_SIZE as u32)
}

#[tactic(auto, unfolding(crate::specs::Places::symbol_fields))]
fn judge_symbol(bytes: &[u8], at: u32, e: &Expected) -> Result<(), BadField>
    requires room { at + symbol_size < 2 ^ 32 }
    requires half { e.now.index < 2 ^ 16 }
    ensures place { verdict result ≡ first_bad bytes.now (symbol_fields bytes.now at e.now.name e.now.value e.now.is_size e.now.info e.now.index) }
    ensures size { OnOk result (IsTrue e.now.is_size) }
{
    judge(
        bytes,
        &[
            tested(at, "st_name", word(bytes, at) as usize == e.name),
            word_field(bytes, at + 4, "st_value", e.value),
            tested(at + 8, "st_size", e.is_size),
            byte_field(bytes, at + 12, "st_info", e.info),
            byte_field(bytes, at + 13, "st_other", STV_DEFAULT),
            half_field(bytes, at + 14, "st_shndx", e.index as u16),
        ],
    )
}

#[tactic(auto, unfolding(crate::specs::Places::null_fields))]
fn judge_null(bytes: &[u8], at: u32) -> Result<(), BadField>
    requires { at + symbol_size < 2 ^ 32 }
    ensures { verdict result ≡ first_bad bytes.now (null_fields bytes.now at) }
{
    let expected = Expected {
        name: 0,
        value: 0,
        is_size: size_of_symbol(bytes, at) == 0,
        info: 0,
        index: NULL_INDEX,
    };
    judge_symbol(bytes, at, &expected)
}

/// Whether a region from `from` on may have this size, where the last one of its section ends at `end`.
fn is_region_size(is_last: bool, end: u32, from: u32, size: u32) -> bool
    ensures { result ≡ is_region_size is_last end from size }
{
    let region_end = from as u64 + size as u64;
    let is_end = if is_last {
        region_end == end as u64
    } else {
        region_end <= end as u64
    };
    0 < size && size % WORD_SIZE == 0 && is_end
}

/// Where a class is judged: its first entry, where its first name stands in `.strtab` and what stands there and
/// behind, and where its code and its tables begin.
#[derive(Clone, Copy)]
pub struct Turn<'a> {
    pub at: u32,
    pub name: usize,
    pub left: &'a [u8],
    pub text: u32,
    pub tab: u32,
}

/// The symbols of a class.
#[tactic(auto, unfolding(crate::specs::Places::class_fields, crate::specs::Places::entry_fields, crate::specs::function::Judging::plain_turn))]
fn judge_class(bytes: &[u8], s: &Sizes, is_last: bool, t: &Turn<'_>) -> Result<(), BadField>
    requires room { t.now.at + 2 * symbol_size < 2 ^ 32 }
    requires name { t.now.name + length t.now.left.now + 1 < 2 ^ 64 }
    ensures place { verdict result ≡ first_bad bytes.now (class_fields bytes.now s.now is_last (plain_turn t.now)) }
    ensures text { OnOk result (t.now.text + size_of_symbol bytes.now t.now.at ≤ s.now.text) }
    ensures tab { OnOk result (t.now.tab + size_of_symbol bytes.now (t.now.at + symbol_size) ≤ s.now.tab) }
{
    let code_size = size_of_symbol(bytes, t.at);
    let code = Expected {
        name: t.name,
        value: t.text,
        is_size: is_region_size(is_last, s.text, t.text, code_size),
        info: GLOBAL_FUNC,
        index: TEXT_INDEX,
    };
    judge_symbol(bytes, t.at, &code)?;
    let at = t.at + SYMBOL_SIZE;
    let tables_size = size_of_symbol(bytes, at);
    let tables = Expected {
        name: t.name + name_length(t.left) + 1,
        value: t.tab,
        is_size: is_region_size(is_last, s.tab, t.tab, tables_size),
        info: GLOBAL_OBJECT,
        index: TAB_INDEX,
    };
    judge_symbol(bytes, at, &tables)
}

#[tactic(auto, unfolding(crate::specs::function::Judging::plain_turn))]
fn next_turn<'a>(bytes: &[u8], t: &Turn<'a>) -> Turn<'a>
    requires room { t.now.at + 2 * symbol_size < 2 ^ 32 }
    requires name { t.now.name + length t.now.left.now + 2 < 2 ^ 64 }
    requires text { t.now.text + size_of_symbol bytes.now t.now.at < 2 ^ 32 }
    requires tab { t.now.tab + size_of_symbol bytes.now (t.now.at + symbol_size) < 2 ^ 32 }
    ensures next { plain_turn result ≡ next_turn bytes.now (plain_turn t.now) }
    ensures place { result.at ≡ t.now.at + 2 * symbol_size }
    ensures name { result.name + length result.left.now ≤ t.now.name + length t.now.left.now + 2 }
{
    let others = after_name(t.left);
    let tables_at = t.at + SYMBOL_SIZE;
    Turn {
        at: tables_at + SYMBOL_SIZE,
        name: t.name + name_length(t.left) + 1 + name_length(others) + 1,
        left: after_name(others),
        text: t.text + size_of_symbol(bytes, t.at),
        tab: t.tab + size_of_symbol(bytes, tables_at),
    }
}

fn judge_classes(bytes: &[u8], s: &Sizes, t: &Turn<'_>, classes: u32) -> Result<(), BadField>
    requires room { t.now.at + 2 * symbol_size * classes < 2 ^ 32 }
    requires name { t.now.name + length t.now.left.now < 2 ^ 63 }
    ensures { verdict result ≡ first_bad bytes.now (classes_fields bytes.now s.now (plain_turn t.now) classes) }
{
    let mut turn = *t;
    for index in 0..classes {
        judge_class(bytes, s, index + 1 == classes, &turn)?;
        turn = next_turn(bytes, &turn);
    }
    Ok(())
}

#[tactic(auto, unfolding(crate::specs::Places::symtab_fields, crate::specs::function::Judging::plain_turn))]
fn judge_symtab(bytes: &[u8], s: &Sizes) -> Result<(), BadField>
    requires { file_end s.now < 2 ^ 32 }
    ensures { verdict result ≡ first_bad bytes.now (symtab_fields bytes.now s.now) }
{
    let at = s.symtab_at();
    judge_null(bytes, at)?;
    let strtab = part(bytes, at + s.symtab, s.strtab);
    let turn = Turn {
        at: at + SYMBOL_SIZE,
        name: FIRST_NAME_AT,
        left: behind(strtab, FIRST_NAME_AT),
        text: 0,
        tab: 0,
    };
    judge_classes(bytes, s, &turn, s.classes())
}

/// A section and what its relocations are judged by: its contents, and how many symbols there are.
#[derive(Clone, Copy)]
struct Target<'a> {
    section: Section,
    contents: &'a [u8],
    symbols: u32,
}

/// The relocation at an offset, whose word lies at `least` or behind.
#[tactic(auto, unfolding(crate::specs::Places::relocation_fields))]
fn judge_relocation(bytes: &[u8], at: u32, t: &Target<'_>, least: usize) -> Result<(), BadField>
    requires { at + relocation_size < 2 ^ 32 }
    ensures { verdict result ≡ first_bad bytes.now (relocation_fields bytes.now at t.now.section t.now.contents.now t.now.symbols least) }
{
    let offset = word(bytes, at);
    let info = word(bytes, at + R_INFO as u32);
    let (symbol, number) = (info / R_INFO_SYMBOL, info % R_INFO_SYMBOL);
    let kind = kind_at(number);
    let is_there = least <= offset as usize
        && offset % WORD_SIZE == 0
        && offset as usize + WORD_SIZE as usize <= t.contents.len();
    let is_type = kind as u32 == number && can_relocate(t.section, kind);
    let is_clear = is_clear(kind, word(t.contents, offset));
    judge(
        bytes,
        &[
            tested(at, "r_offset", is_there),
            tested(
                at + 4,
                "r_info",
                is_type && 0 < symbol && symbol <= t.symbols,
            ),
            tested(at, "r_offset", is_clear),
            tested(at + 8, "r_addend", true),
        ],
    )
}

fn judge_relocations(bytes: &[u8], at: u32, t: &Target<'_>, count: u32) -> Result<(), BadField>
    requires { at + relocation_size * count < 2 ^ 32 }
    ensures { verdict result ≡ first_bad bytes.now (relocations_fields bytes.now at t.now.section t.now.contents.now t.now.symbols 0 count) }
{
    let mut at = at;
    let mut least = 0;
    for _ in 0..count {
        judge_relocation(bytes, at, t, least)?;
        least = word(bytes, at) as usize + 1;
        at += RELOCATION_SIZE;
    }
    Ok(())
}

#[tactic(auto, unfolding(crate::specs::Places::rela_fields))]
fn judge_relas(bytes: &[u8], s: &Sizes) -> Result<(), BadField>
    requires { file_end s.now < 2 ^ 32 }
    ensures { verdict result ≡ first_bad bytes.now (rela_fields bytes.now s.now) }
{
    let symbols = 2 * s.classes();
    let text = Target {
        section: Section::Text,
        contents: part(bytes, FILE_HEADER_SIZE, s.text),
        symbols,
    };
    let at = FILE_HEADER_SIZE + s.text;
    judge_relocations(bytes, at, &text, s.rela_text / RELOCATION_SIZE)?;
    let tab_at = at + s.rela_text;
    let tab = Target {
        section: Section::Tab,
        contents: part(bytes, tab_at, s.tab),
        symbols,
    };
    judge_relocations(bytes, tab_at + s.tab, &tab, s.rela_tab / RELOCATION_SIZE)
}

/// The padding behind the records and behind the names.
#[tactic(auto, unfolding(crate::specs::Places::gap_fields))]
fn judge_gaps(bytes: &[u8], s: &Sizes) -> Result<(), BadField>
    requires { file_end s.now < 2 ^ 32 }
    ensures { verdict result ≡ first_bad bytes.now (gap_fields bytes.now s.now) }
{
    judge_padding(bytes, s.rec_at() + s.rec, padding_of(s.rec))?;
    let strtab_end = s.symtab_at() + s.symtab + s.strtab;
    judge_padding(bytes, strtab_end, padding_of(s.strtab))
}

/// What stands between the headers.
#[tactic(auto, unfolding(crate::specs::Places::contents_fields))]
pub fn judge_contents(bytes: &[u8], s: &Sizes) -> Result<(), BadField>
    requires { file_end s.now < 2 ^ 32 }
    ensures { verdict result ≡ first_bad bytes.now (contents_fields bytes.now s.now) }
{
    judge_gaps(bytes, s)?;
    judge_section_names(bytes, s.shstrtab_at())?;
    judge_strtab(bytes, s.symtab_at() + s.symtab, s)?;
    judge_symtab(bytes, s)?;
    judge_relas(bytes, s)
}
