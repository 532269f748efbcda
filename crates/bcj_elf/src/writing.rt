//! Objects as bytes.

ghost use Rattle.std.specs.Prelude.{◌≡◌, ◌<◌, ◌+◌, ◌^◌, ◌++◌, All, length, OnOk, IfOk};
ghost use Rattle.std.specs.List.{flat_map};
ghost use Rattle.bcj_elf.specs.Plain.{plain, plain_symbol, plain_symbols};
ghost use Rattle.bcj_elf.specs.Layout.{first_name_at, strings, sizes, file_end};
ghost use Rattle.bcj_elf.specs.Spelling.{word, half, words, halves, zeros, rela, entry, entries, file_header, header_bytes, spelling};
ghost use Rattle.bcj_elf.specs.Rules.{IsObject};

use crate::elf::{
    ELFCLASS32, ELFDATA2LSB, ELFOSABI_NONE, EM_RISCV, ET_REL, EV_CURRENT, FILE_HEADER_SIZE,
    GLOBAL_FUNC, GLOBAL_OBJECT, R_INFO_SYMBOL, RELOCATION_SIZE, SECTION_HEADER_SIZE, STV_DEFAULT,
    SYMBOL_SIZE, UNUSED,
};
use crate::object::{Object, Relocation, Section, Symbol};
use crate::sizes::{
    FIRST_NAME_AT, SECTION_COUNT, SECTION_NAMES_SIZE, SHSTRTAB_INDEX, SectionHeader, Sizes,
    TAB_INDEX, TEXT_INDEX, padding_of,
};
use byteorder::{ByteOrder, LittleEndian};
use std::alloc::{AllocError, Global};

#[tactic(auto, unfolding(crate::specs::Spelling::word))]
fn put_word(out: &mut Vec<u8>, n: u32) -> Result<(), AllocError>
    ensures { OnOk result (out.new.items ≡ out.old.items ++ word n) }
{
    let mut bytes = [0; 4];
    LittleEndian::write_u32(&mut bytes, n);
    out.extend_from_slice(&bytes)
}

#[tactic(auto, unfolding(crate::specs::Spelling::half))]
fn put_half(out: &mut Vec<u8>, n: u16) -> Result<(), AllocError>
    ensures { OnOk result (out.new.items ≡ out.old.items ++ half n) }
{
    let mut bytes = [0; 2];
    LittleEndian::write_u16(&mut bytes, n);
    out.extend_from_slice(&bytes)
}

fn put_words(out: &mut Vec<u8>, numbers: &[u32]) -> Result<(), AllocError>
    ensures { OnOk result (out.new.items ≡ out.old.items ++ words numbers.now) }
{
    for n in numbers {
        put_word(out, *n)?;
    }
    Ok(())
}

fn put_halves(out: &mut Vec<u8>, numbers: &[u16]) -> Result<(), AllocError>
    ensures { OnOk result (out.new.items ≡ out.old.items ++ halves numbers.now) }
{
    for n in numbers {
        put_half(out, *n)?;
    }
    Ok(())
}

fn put_zeros(out: &mut Vec<u8>, count: u32) -> Result<(), AllocError>
    ensures { OnOk result (out.new.items ≡ out.old.items ++ zeros count) }
{
    for _ in 0..count {
        out.push(0)?;
    }
    Ok(())
}

/// The contents of `.shstrtab`.
pub const SECTION_NAMES: [u8; SECTION_NAMES_SIZE] =
    *b"\0.text\0.rela.text\0.bcj.tab\0.rela.bcj.tab\0.bcj.rec\0.symtab\0.strtab\0.shstrtab\0";

/// `e_ident`.
const IDENT: [u8; 16] = [
    0x7f,
    b'E',
    b'L',
    b'F',
    ELFCLASS32,
    ELFDATA2LSB,
    EV_CURRENT,
    ELFOSABI_NONE,
    0,
    0,
    0,
    0,
    0,
    0,
    0,
    0,
];

#[tactic(auto, unfolding(crate::specs::Spelling::file_header))]
fn put_file_header(out: &mut Vec<u8>, s: &Sizes) -> Result<(), AllocError>
    requires { file_end s.now < 2 ^ 32 }
    ensures { OnOk result (out.new.items ≡ out.old.items ++ file_header s.now) }
{
    out.extend_from_slice(&IDENT)?;
    put_halves(out, &[ET_REL, EM_RISCV])?;
    put_words(
        out,
        &[EV_CURRENT as u32, UNUSED, UNUSED, s.headers_at(), UNUSED],
    )?;
    let e_ehsize = FILE_HEADER_SIZE as u16;
    let e_shentsize = SECTION_HEADER_SIZE as u16;
    let (e_shnum, e_shstrndx) = (SECTION_COUNT as u16, SHSTRTAB_INDEX as u16);
    let (e_phentsize, e_phnum) = (UNUSED as u16, UNUSED as u16);
    put_halves(
        out,
        &[
            e_ehsize,
            e_phentsize,
            e_phnum,
            e_shentsize,
            e_shnum,
            e_shstrndx,
        ],
    )?;
    Ok(())
}

#[tactic(auto, unfolding(crate::specs::Spelling::rela))]
fn put_rela(out: &mut Vec<u8>, r: &Relocation) -> Result<(), AllocError>
    requires { r.now.symbol < 2 ^ 24 }
    ensures { OnOk result (out.new.items ≡ out.old.items ++ rela r.now) }
{
    put_words(
        out,
        &[r.offset, r.symbol * R_INFO_SYMBOL + r.kind as u32, r.addend],
    )
}

fn put_relas(out: &mut Vec<u8>, relocs: &[Relocation]) -> Result<(), AllocError>
    requires { All (λ r. r.symbol < 2 ^ 24) relocs.now }
    ensures { OnOk result (out.new.items ≡ out.old.items ++ flat_map rela relocs.now) }
{
    for r in relocs {
        put_rela(out, r)?;
    }
    Ok(())
}

#[tactic(auto, unfolding(crate::specs::Spelling::entry))]
fn put_entry(out: &mut Vec<u8>, at: u32, s: &Symbol) -> Result<(), AllocError>
    ensures { OnOk result (out.new.items ≡ out.old.items ++ entry at (plain_symbol s.now)) }
{
    put_words(out, &[at, s.value, s.size])?;
    let (info, index) = match s.section {
        Section::Text => (GLOBAL_FUNC, TEXT_INDEX),
        Section::Tab => (GLOBAL_OBJECT, TAB_INDEX),
    };
    out.extend_from_slice(&[info, STV_DEFAULT])?;
    put_half(out, index as u16)
}

fn put_entries(out: &mut Vec<u8>, symbols: &[Symbol]) -> Result<(), AllocError>
    requires { length (strings (plain_symbols symbols.now)) < 2 ^ 32 }
    ensures { OnOk result (out.new.items ≡ out.old.items ++ entries first_name_at (plain_symbols symbols.now)) }
{
    let mut at = FIRST_NAME_AT as u32;
    for s in symbols {
        put_entry(out, at, s)?;
        at += s.name.len() as u32 + 1;
    }
    Ok(())
}

/// The contents of `.strtab`.
fn strings_of(alloc: Global, symbols: &[Symbol]) -> Result<Vec<u8>, AllocError>
    ensures { IfOk result (λ v. v.items ≡ strings (plain_symbols symbols.now)) }
{
    let mut out = Vec::new(alloc);
    out.push(0)?;
    for s in symbols {
        out.extend_from_slice(&s.name)?;
        out.push(0)?;
    }
    Ok(out)
}

#[tactic(auto, unfolding(crate::specs::Spelling::header_bytes))]
fn put_header(out: &mut Vec<u8>, h: &SectionHeader) -> Result<(), AllocError>
    ensures { OnOk result (out.new.items ≡ out.old.items ++ header_bytes h.now) }
{
    put_words(out, &h.fields())
}

fn put_headers(out: &mut Vec<u8>, all: &[SectionHeader]) -> Result<(), AllocError>
    ensures { OnOk result (out.new.items ≡ out.old.items ++ flat_map header_bytes all.now) }
{
    for h in all {
        put_header(out, h)?;
    }
    Ok(())
}

/// The sizes of the sections, where `strtab` is that of the names.
fn sizes_of(o: &Object, strtab: usize) -> Sizes
    requires names { strtab ≡ length (strings (plain_symbols o.now.symbols.items)) }
    requires small { file_end (sizes (plain o.now)) < 2 ^ 32 }
    ensures { result ≡ sizes (plain o.now) }
{
    Sizes {
        text: o.text.len() as u32,
        rela_text: RELOCATION_SIZE * o.text_relocs.len() as u32,
        tab: o.tab.len() as u32,
        rela_tab: RELOCATION_SIZE * o.tab_relocs.len() as u32,
        rec: o.rec.len() as u32,
        symtab: SYMBOL_SIZE * (1 + o.symbols.len() as u32),
        strtab: strtab as u32,
    }
}

/// The one spelling of the object.
#[tactic(auto, unfolding(crate::specs::Spelling::spelling))]
pub fn write(alloc: Global, o: &Object) -> Result<Vec<u8>, AllocError>
    requires { IsObject (plain o.now) }
    ensures { IfOk result (λ v. v.items ≡ spelling (plain o.now)) }
{
    let strtab = strings_of(alloc, &o.symbols)?;
    let s = sizes_of(o, strtab.len());
    let mut out = Vec::new(alloc);
    put_file_header(&mut out, &s)?;
    out.extend_from_slice(&o.text)?;
    put_relas(&mut out, &o.text_relocs)?;
    out.extend_from_slice(&o.tab)?;
    put_relas(&mut out, &o.tab_relocs)?;
    out.extend_from_slice(&o.rec)?;
    put_zeros(&mut out, padding_of(s.rec))?;
    put_zeros(&mut out, SYMBOL_SIZE)?;
    put_entries(&mut out, &o.symbols)?;
    out.extend_from_slice(&strtab)?;
    put_zeros(&mut out, padding_of(s.strtab))?;
    out.extend_from_slice(&SECTION_NAMES)?;
    put_headers(&mut out, &s.headers())?;
    Ok(out)
}
