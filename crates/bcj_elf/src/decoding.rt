//! Sections as an object.

ghost use Rattle.std.specs.Prelude.{◌≡◌, ◌+◌, ◌≤◌, ◌/◌, length, drop, IfOk};
ghost use Rattle.bcj_elf.specs.Elf.{symbol_size, relocation_size};
ghost use Rattle.bcj_elf.specs.Plain.{plain, plain_symbol, plain_symbols, kind_at};
ghost use Rattle.bcj_elf.specs.Layout.{name_len};
ghost use Rattle.bcj_elf.specs.function.Reading.{contents, relocation_at, relocations_at, symbol_at, symbols_at, object_of};

use crate::elf::{
    R_ADDEND, R_INFO, R_INFO_SYMBOL, R_OFFSET, R_RISCV_32, R_RISCV_HI20, R_RISCV_LO12_I,
    RELOCATION_SIZE, ST_SHNDX, ST_SIZE, ST_VALUE, SYMBOL_SIZE,
};
use crate::object::{Object, Relocation, RelocationKind, Section, Symbol};
use crate::parts::{Parts, behind, word_of};
use crate::sizes::{FIRST_NAME_AT, TEXT_INDEX};
use std::alloc::{AllocError, Global};

/// The relocation type with this number, where there is one.
pub fn kind_at(number: u32) -> RelocationKind
    ensures { result ≡ kind_at number }
{
    match number {
        R_RISCV_32 => RelocationKind::Word,
        R_RISCV_HI20 => RelocationKind::Hi20,
        R_RISCV_LO12_I => RelocationKind::Lo12I,
        _ => RelocationKind::Lo12S,
    }
}

#[tactic(auto, unfolding(crate::specs::function::Reading::relocation_at))]
fn relocation_of(bytes: &[u8]) -> Relocation
    requires { relocation_size ≤ length bytes.now }
    ensures { result ≡ relocation_at bytes.now }
{
    let info = word_of(bytes, R_INFO);
    Relocation {
        offset: word_of(bytes, R_OFFSET),
        symbol: info / R_INFO_SYMBOL,
        kind: kind_at(info % R_INFO_SYMBOL),
        addend: word_of(bytes, R_ADDEND),
    }
}

fn relocations_of(alloc: Global, bytes: &[u8]) -> Result<Vec<Relocation>, AllocError>
    ensures { IfOk result (λ v. v.items ≡ relocations_at (length bytes.now / relocation_size) bytes.now) }
{
    let mut relocs = Vec::new(alloc);
    let mut rest = bytes;
    while rest.len() >= RELOCATION_SIZE as usize {
        relocs.push(relocation_of(rest))?;
        rest = behind(rest, RELOCATION_SIZE as usize);
    }
    Ok(relocs)
}

/// The bytes before the first zero byte.
pub fn name_length(names: &[u8]) -> usize
    ensures value { result ≡ name_len names.now }
    ensures within { result ≤ length names.now }
{
    for (i, b) in names.iter().enumerate() {
        if *b == 0 {
            return i;
        }
    }
    names.len()
}

/// The names behind the first one.
pub fn after_name(names: &[u8]) -> &[u8]
    ensures { result.now ≡ drop (name_len names.now + 1) names.now }
{
    let len = name_length(names);
    if len < names.len() {
        behind(names, len + 1)
    } else {
        &[]
    }
}

#[tactic(auto, unfolding(crate::specs::function::Reading::symbol_at))]
fn symbol_of(alloc: Global, bytes: &[u8], names: &[u8]) -> Result<Symbol, AllocError>
    requires { symbol_size ≤ length bytes.now }
    ensures { IfOk result (λ s. plain_symbol s ≡ symbol_at bytes.now names.now) }
{
    let name = Vec::from_slice(alloc, &names[..name_length(names)])?;
    let section = if bytes[ST_SHNDX] as usize == TEXT_INDEX {
        Section::Text
    } else {
        Section::Tab
    };
    Ok(Symbol {
        name,
        value: word_of(bytes, ST_VALUE),
        size: word_of(bytes, ST_SIZE),
        section,
    })
}

fn symbols_of(alloc: Global, bytes: &[u8], names: &[u8]) -> Result<Vec<Symbol>, AllocError>
    ensures { IfOk result (λ v. plain_symbols v.items ≡ symbols_at (length bytes.now / symbol_size) bytes.now names.now) }
{
    let mut symbols = Vec::new(alloc);
    let mut rest = bytes;
    let mut names = names;
    while rest.len() >= SYMBOL_SIZE as usize {
        symbols.push(symbol_of(alloc, rest, names)?)?;
        rest = behind(rest, SYMBOL_SIZE as usize);
        names = after_name(names);
    }
    Ok(symbols)
}

/// The object that stands in the sections.
#[tactic(auto, unfolding(crate::specs::function::Reading::object_of))]
pub fn object_in(alloc: Global, parts: &Parts<'_>) -> Result<Object, AllocError>
    ensures { IfOk result (λ o. plain o ≡ object_of (contents parts.now)) }
{
    let entries = behind(parts.symtab, SYMBOL_SIZE as usize);
    let names = behind(parts.strtab, FIRST_NAME_AT);
    Ok(Object {
        text: Vec::from_slice(alloc, parts.text)?,
        text_relocs: relocations_of(alloc, parts.rela_text)?,
        tab: Vec::from_slice(alloc, parts.tab)?,
        tab_relocs: relocations_of(alloc, parts.rela_tab)?,
        rec: Vec::from_slice(alloc, parts.rec)?,
        symbols: symbols_of(alloc, entries, names)?,
    })
}
