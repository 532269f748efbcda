//! The first bad field of a file's headers.

ghost use Rattle.std.specs.Prelude.{◌≡◌, ◌<◌, ◌≤◌, ◌+◌, ◌^◌, ◌++◌, OnOk, IfOk, length, take, drop, zip};
ghost use Rattle.bcj_elf.specs.Elf.{section_header_size};
ghost use Rattle.bcj_elf.specs.Layout.{section_count, section_headers_size, rec_at, shstrtab_at, headers_at, headers};
ghost use Rattle.bcj_elf.specs.Fields.{first_bad};
ghost use Rattle.bcj_elf.specs.Places.{shoff_of, file_header_fields, section_fields, size_in, sizes_in, is_headers_offset, is_symbol_table, are_sizes, sections_from, section_headers_fields, end_fields};
ghost use Rattle.bcj_elf.specs.function.Judging.{verdict};

use crate::elf::{
    ELFCLASS32, ELFDATA2LSB, ELFMAG, ELFOSABI_NONE, EM_RISCV, ET_REL, EV_CURRENT, FILE_HEADER_SIZE,
    RELOCATION_SIZE, SECTION_HEADER_SIZE, SH_SIZE, SHT_PROGBITS, SHT_STRTAB, SYMBOL_SIZE, UNUSED,
};
use crate::field::{BadField, byte_field, half_field, judge, tested, text_field, word, word_field};
use crate::sizes::{
    CODE_FLAGS, NULL, NULL_INDEX, REC_INDEX, REC_NAME, RELA_TAB_INDEX, RELA_TAB_NAME,
    RELA_TEXT_INDEX, RELA_TEXT_NAME, SECTION_COUNT, SECTION_HEADERS_SIZE, SECTION_NAMES_SIZE,
    SHSTRTAB_INDEX, SHSTRTAB_NAME, STRTAB_INDEX, STRTAB_NAME, SYMTAB_INDEX, SYMTAB_NAME,
    SectionHeader, Sizes, TAB_INDEX, TAB_NAME, TABLES_FLAGS, TEXT_INDEX, TEXT_NAME, WORD_SIZE,
    byte_section, loaded_section, relocation_section, symbol_section,
};

/// How many offsets a word has room for.
const OFFSETS: usize = 0x1_0000_0000;
/// The bytes of `e_ident` behind `EI_OSABI`.
const IDENT_PADDING: [u8; 8] = [0; 8];

const E_SHOFF: u32 = 32;

/// Whether the section headers of a file with so many bytes may begin there.
fn is_headers_offset(file: usize, shoff: u32) -> bool
    ensures { result ≡ is_headers_offset file shoff }
{
    shoff % WORD_SIZE == 0 && shoff as usize + SECTION_HEADERS_SIZE == file && file < OFFSETS
}

/// The fields of the file's header.
#[tactic(auto, unfolding(crate::specs::Places::file_header_fields))]
fn judge_file_header(bytes: &[u8]) -> Result<(), BadField>
    ensures { verdict result ≡ first_bad bytes.now (file_header_fields bytes.now) }
{
    let shoff = word(bytes, E_SHOFF);
    judge(
        bytes,
        &[
            text_field(bytes, 0, "EI_MAG", &ELFMAG),
            byte_field(bytes, 4, "EI_CLASS", ELFCLASS32),
            byte_field(bytes, 5, "EI_DATA", ELFDATA2LSB),
            byte_field(bytes, 6, "EI_VERSION", EV_CURRENT),
            byte_field(bytes, 7, "EI_OSABI", ELFOSABI_NONE),
            text_field(bytes, 8, "EI_PAD", &IDENT_PADDING),
            half_field(bytes, 16, "e_type", ET_REL),
            half_field(bytes, 18, "e_machine", EM_RISCV),
            word_field(bytes, 20, "e_version", EV_CURRENT as u32),
            word_field(bytes, 24, "e_entry", UNUSED),
            word_field(bytes, 28, "e_phoff", UNUSED),
            tested(E_SHOFF, "e_shoff", is_headers_offset(bytes.len(), shoff)),
            word_field(bytes, 36, "e_flags", UNUSED),
            half_field(bytes, 40, "e_ehsize", FILE_HEADER_SIZE as u16),
            half_field(bytes, 42, "e_phentsize", UNUSED as u16),
            half_field(bytes, 44, "e_phnum", UNUSED as u16),
            half_field(bytes, 46, "e_shentsize", SECTION_HEADER_SIZE as u16),
            half_field(bytes, 48, "e_shnum", SECTION_COUNT as u16),
            half_field(bytes, 50, "e_shstrndx", SHSTRTAB_INDEX as u16),
        ],
    )
}

/// The file's header; the answer is where the section headers begin.
pub fn judge_header(bytes: &[u8]) -> Result<u32, BadField>
    ensures place { verdict result ≡ first_bad bytes.now (file_header_fields bytes.now) }
    ensures value { IfOk result (λ n. n ≡ shoff_of bytes.now) }
    ensures ends { IfOk result (λ n. n + section_headers_size ≡ length bytes.now) }
    ensures small { OnOk result (length bytes.now < 2 ^ 32) }
{
    judge_file_header(bytes)?;
    Ok(word(bytes, E_SHOFF))
}

/// The fields of the section header with this index, whose section may have this size.
#[tactic(auto, unfolding(crate::specs::Places::section_fields))]
fn judge_section(
    bytes: &[u8],
    shoff: u32,
    index: usize,
    h: &SectionHeader,
    is_size: bool,
) -> Result<(), BadField>
    requires known { index < section_count }
    requires room { shoff + section_headers_size < 2 ^ 32 }
    ensures place { verdict result ≡ first_bad bytes.now (section_fields bytes.now shoff index h.now is_size) }
    ensures fits { OnOk result (h.now.offset + h.now.size ≤ shoff) }
{
    let at = shoff + SECTION_HEADER_SIZE * index as u32;
    let fits = h.offset as u64 + h.size as u64 <= shoff as u64;
    judge(
        bytes,
        &[
            word_field(bytes, at, "sh_name", h.name),
            word_field(bytes, at + 4, "sh_type", h.kind),
            word_field(bytes, at + 8, "sh_flags", h.flags),
            word_field(bytes, at + 12, "sh_addr", UNUSED),
            word_field(bytes, at + 16, "sh_offset", h.offset),
            tested(
                at + 20,
                "sh_size",
                word(bytes, at + 20) == h.size && is_size && fits,
            ),
            word_field(bytes, at + 24, "sh_link", h.link),
            word_field(bytes, at + 28, "sh_info", h.info),
            word_field(bytes, at + 32, "sh_addralign", h.align),
            word_field(bytes, at + 36, "sh_entsize", h.entsize),
        ],
    )
}

/// `sh_size` of the section header with this index.
fn size_in(bytes: &[u8], shoff: u32, index: usize) -> u32
    requires known { index < section_count }
    requires room { shoff + section_headers_size < 2 ^ 32 }
    requires there { shoff ≡ shoff_of bytes.now }
    ensures { result ≡ size_in bytes.now index }
{
    word(
        bytes,
        shoff + SECTION_HEADER_SIZE * index as u32 + SH_SIZE as u32,
    )
}

/// The sizes in the section headers.
#[tactic(auto, unfolding(crate::specs::Places::sizes_in))]
pub fn sizes_in(bytes: &[u8], shoff: u32) -> Sizes
    requires room { shoff + section_headers_size < 2 ^ 32 }
    requires there { shoff ≡ shoff_of bytes.now }
    ensures { result ≡ sizes_in bytes.now }
{
    Sizes {
        text: size_in(bytes, shoff, TEXT_INDEX),
        rela_text: size_in(bytes, shoff, RELA_TEXT_INDEX),
        tab: size_in(bytes, shoff, TAB_INDEX),
        rela_tab: size_in(bytes, shoff, RELA_TAB_INDEX),
        rec: size_in(bytes, shoff, REC_INDEX),
        symtab: size_in(bytes, shoff, SYMTAB_INDEX),
        strtab: size_in(bytes, shoff, STRTAB_INDEX),
    }
}

/// Whether a symbol table has the null symbol and two symbols for each class.
fn is_symbol_table(s: &Sizes) -> bool
    ensures { result ≡ is_symbol_table s.now }
{
    let is_empty = s.text == 0 && s.tab == 0;
    s.symtab % (2 * SYMBOL_SIZE) == SYMBOL_SIZE && (SYMBOL_SIZE < s.symtab || is_empty)
}

/// The section headers through that of `.rela.bcj.tab`.
#[tactic(auto, unfolding(crate::specs::Layout::headers))]
fn judge_loaded(bytes: &[u8], shoff: u32, s: &Sizes) -> Result<(), BadField>
    requires { shoff + section_headers_size < 2 ^ 32 }
    ensures place { verdict result ≡ first_bad bytes.now (sections_from bytes.now shoff 0 (take 5 (zip (headers s.now) (are_sizes s.now)))) }
    ensures fits { OnOk result (rec_at s.now ≤ shoff) }
{
    judge_section(bytes, shoff, NULL_INDEX, &NULL, true)?;
    let text = loaded_section(TEXT_NAME, CODE_FLAGS, FILE_HEADER_SIZE, s.text);
    judge_section(bytes, shoff, TEXT_INDEX, &text, s.text % WORD_SIZE == 0)?;
    let at = FILE_HEADER_SIZE + s.text;
    let rela_text = relocation_section(RELA_TEXT_NAME, at, s.rela_text, TEXT_INDEX);
    let is_size = s.rela_text % RELOCATION_SIZE == 0;
    judge_section(bytes, shoff, RELA_TEXT_INDEX, &rela_text, is_size)?;
    let at = at + s.rela_text;
    let tab = loaded_section(TAB_NAME, TABLES_FLAGS, at, s.tab);
    judge_section(bytes, shoff, TAB_INDEX, &tab, s.tab % WORD_SIZE == 0)?;
    let at = at + s.tab;
    let rela_tab = relocation_section(RELA_TAB_NAME, at, s.rela_tab, TAB_INDEX);
    let is_size = s.rela_tab % RELOCATION_SIZE == 0;
    judge_section(bytes, shoff, RELA_TAB_INDEX, &rela_tab, is_size)
}

/// The section headers from that of `.bcj.rec` on.
#[tactic(auto, unfolding(crate::specs::Layout::headers))]
fn judge_others(bytes: &[u8], shoff: u32, s: &Sizes) -> Result<(), BadField>
    requires room { shoff + section_headers_size < 2 ^ 32 }
    requires before { rec_at s.now ≤ shoff }
    ensures place { verdict result ≡ first_bad bytes.now (sections_from bytes.now shoff 5 (drop 5 (zip (headers s.now) (are_sizes s.now)))) }
    ensures fits { OnOk result (headers_at s.now ≤ shoff) }
{
    let rec = byte_section(REC_NAME, SHT_PROGBITS, s.rec_at(), s.rec);
    judge_section(bytes, shoff, REC_INDEX, &rec, true)?;
    let symtab = symbol_section(SYMTAB_NAME, s.symtab_at(), s.symtab);
    judge_section(bytes, shoff, SYMTAB_INDEX, &symtab, is_symbol_table(s))?;
    let strtab_at = s.symtab_at() + s.symtab;
    let strtab = byte_section(STRTAB_NAME, SHT_STRTAB, strtab_at, s.strtab);
    judge_section(bytes, shoff, STRTAB_INDEX, &strtab, true)?;
    let names_size = SECTION_NAMES_SIZE as u32;
    let names = byte_section(SHSTRTAB_NAME, SHT_STRTAB, s.shstrtab_at(), names_size);
    judge_section(bytes, shoff, SHSTRTAB_INDEX, &names, true)
}

/// The end of the contents, which is where the section headers begin.
#[tactic(auto, unfolding(crate::specs::Places::end_fields))]
fn judge_end(bytes: &[u8], shoff: u32, s: &Sizes) -> Result<(), BadField>
    requires { headers_at s.now < 2 ^ 32 }
    ensures place { verdict result ≡ first_bad bytes.now (end_fields shoff s.now) }
    ensures ends { OnOk result (headers_at s.now ≡ shoff) }
{
    let is_end = s.headers_at() == shoff;
    judge(bytes, &[tested(E_SHOFF, "e_shoff", is_end)])
}

/// The section headers, and the end of the contents.
pub fn judge_section_headers(bytes: &[u8], shoff: u32, s: &Sizes) -> Result<(), BadField>
    requires { shoff + section_headers_size < 2 ^ 32 }
    ensures place { verdict result ≡ first_bad bytes.now (section_headers_fields bytes.now shoff s.now ++ end_fields shoff s.now) }
    ensures ends { OnOk result (headers_at s.now ≡ shoff) }
{
    judge_loaded(bytes, shoff, s)?;
    judge_others(bytes, shoff, s)?;
    judge_end(bytes, shoff, s)
}
