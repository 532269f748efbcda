//! Where the sections lie in a file.

ghost use Rattle.std.specs.Prelude.{◌≡◌, ◌<◌, ◌^◌};
ghost use Rattle.bcj_elf.specs.Layout.{padding, rec_at, symtab_at, shstrtab_at, headers_at, loaded_section, relocation_section, symbol_section, byte_section, headers, fields};
ghost use Rattle.bcj_elf.specs.Places.{classes_in};

use crate::elf::{
    FILE_HEADER_SIZE, RELOCATION_SIZE, SECTION_HEADER_SIZE, SHF_ALLOC, SHF_EXECINSTR, SHF_WRITE,
    SHT_PROGBITS, SHT_RELA, SHT_STRTAB, SHT_SYMTAB, SYMBOL_SIZE, UNUSED,
};

// The indices of the sections.

pub const NULL_INDEX: usize = 0;

pub const TEXT_INDEX: usize = 1;

pub const RELA_TEXT_INDEX: usize = 2;

pub const TAB_INDEX: usize = 3;

pub const RELA_TAB_INDEX: usize = 4;

pub const REC_INDEX: usize = 5;

pub const SYMTAB_INDEX: usize = 6;

pub const STRTAB_INDEX: usize = 7;

pub const SHSTRTAB_INDEX: usize = 8;

/// The section headers of a file.
pub const SECTION_COUNT: usize = 9;
/// Their bytes.
pub const SECTION_HEADERS_SIZE: usize = SECTION_COUNT * SECTION_HEADER_SIZE as usize;
/// The bytes of the file's header and of the section headers.
pub const ALL_HEADERS_SIZE: usize = FILE_HEADER_SIZE as usize + SECTION_HEADERS_SIZE;
/// The bytes of `.shstrtab`.
pub const SECTION_NAMES_SIZE: usize = 76;

/// Where the first name stands in a string section.
pub const FIRST_NAME_AT: usize = 1;

// Where the names of the sections stand in `.shstrtab`.

pub const TEXT_NAME: u32 = 1;

pub const RELA_TEXT_NAME: u32 = 7;

pub const TAB_NAME: u32 = 18;

pub const RELA_TAB_NAME: u32 = 27;

pub const REC_NAME: u32 = 41;

pub const SYMTAB_NAME: u32 = 50;

pub const STRTAB_NAME: u32 = 58;

pub const SHSTRTAB_NAME: u32 = 66;

/// The bytes of a word. Sections begin at a multiple of it, and so do the words of code and tables.
pub const WORD_SIZE: u32 = 4;
/// The alignment of a section that may begin anywhere.
const BYTE_ALIGNED: u32 = 1;
/// The index of the first global symbol, behind the null symbol.
const FIRST_GLOBAL: u32 = 1;

/// The flags of `.text`.
pub const CODE_FLAGS: u32 = SHF_ALLOC + SHF_EXECINSTR;
/// The flags of `.bcj.tab`.
pub const TABLES_FLAGS: u32 = SHF_WRITE + SHF_ALLOC;

/// The bytes of the sections whose size an object chooses.
#[derive(Clone, Copy)]
pub struct Sizes {
    pub text: u32,
    pub rela_text: u32,
    pub tab: u32,
    pub rela_tab: u32,
    pub rec: u32,
    pub symtab: u32,
    pub strtab: u32,
}

/// A section header of ELF32 without its address, which is 0.
#[derive(Clone, Copy)]
pub struct SectionHeader {
    pub name: u32,
    pub kind: u32,
    pub flags: u32,
    pub offset: u32,
    pub size: u32,
    pub link: u32,
    pub info: u32,
    pub align: u32,
    pub entsize: u32,
}

/// How many zero bytes follow on `size` bytes up to the next multiple of 4.
pub fn padding_of(size: u32) -> u32
    ensures { result ≡ padding size }
{
    (WORD_SIZE - size % WORD_SIZE) % WORD_SIZE
}

impl SectionHeader {
    /// The ten fields in their order.
    pub fn fields(&self) -> [u32; 10]
        ensures { result ≡ fields self.now }
    {
        [
            self.name,
            self.kind,
            self.flags,
            UNUSED,
            self.offset,
            self.size,
            self.link,
            self.info,
            self.align,
            self.entsize,
        ]
    }
}

/// The header of the null section.
pub const NULL: SectionHeader = SectionHeader {
    name: 0,
    kind: 0,
    flags: 0,
    offset: 0,
    size: 0,
    link: 0,
    info: 0,
    align: 0,
    entsize: 0,
};

impl Sizes {
    /// Where the class records begin.
    pub fn rec_at(&self) -> u32
        requires { rec_at self.now < 2 ^ 32 }
        ensures { result ≡ rec_at self.now }
    {
        FILE_HEADER_SIZE + self.text + self.rela_text + self.tab + self.rela_tab
    }

    /// Where the symbol table begins.
    pub fn symtab_at(&self) -> u32
        requires { symtab_at self.now < 2 ^ 32 }
        ensures { result ≡ symtab_at self.now }
    {
        self.rec_at() + self.rec + padding_of(self.rec)
    }

    /// Where the names of the sections begin.
    pub fn shstrtab_at(&self) -> u32
        requires { shstrtab_at self.now < 2 ^ 32 }
        ensures { result ≡ shstrtab_at self.now }
    {
        self.symtab_at() + self.symtab + self.strtab + padding_of(self.strtab)
    }

    /// Where the section headers begin.
    pub fn headers_at(&self) -> u32
        requires { headers_at self.now < 2 ^ 32 }
        ensures { result ≡ headers_at self.now }
    {
        self.shstrtab_at() + SECTION_NAMES_SIZE as u32
    }

    /// How many classes have symbols.
    pub fn classes(&self) -> u32
        ensures { result ≡ classes_in self.now }
    {
        self.symtab.saturating_sub(SYMBOL_SIZE) / (2 * SYMBOL_SIZE)
    }

    /// The nine section headers.
    #[tactic(auto, unfolding(crate::specs::Layout::headers))]
    pub fn headers(&self) -> [SectionHeader; SECTION_COUNT]
        requires { headers_at self.now < 2 ^ 32 }
        ensures { result ≡ headers self.now }
    {
        let rela_text_at = FILE_HEADER_SIZE + self.text;
        let tab_at = rela_text_at + self.rela_text;
        let rela_tab_at = tab_at + self.tab;
        let rec_at = rela_tab_at + self.rela_tab;
        let symtab_at = self.symtab_at();
        let strtab_at = symtab_at + self.symtab;
        [
            NULL,
            loaded_section(TEXT_NAME, CODE_FLAGS, FILE_HEADER_SIZE, self.text),
            relocation_section(RELA_TEXT_NAME, rela_text_at, self.rela_text, TEXT_INDEX),
            loaded_section(TAB_NAME, TABLES_FLAGS, tab_at, self.tab),
            relocation_section(RELA_TAB_NAME, rela_tab_at, self.rela_tab, TAB_INDEX),
            byte_section(REC_NAME, SHT_PROGBITS, rec_at, self.rec),
            symbol_section(SYMTAB_NAME, symtab_at, self.symtab),
            byte_section(STRTAB_NAME, SHT_STRTAB, strtab_at, self.strtab),
            byte_section(
                SHSTRTAB_NAME,
                SHT_STRTAB,
                self.shstrtab_at(),
                SECTION_NAMES_SIZE as u32,
            ),
        ]
    }
}

/// A section that is loaded.
pub fn loaded_section(name: u32, flags: u32, offset: u32, size: u32) -> SectionHeader
    ensures { result ≡ loaded_section name flags offset size }
{
    SectionHeader {
        name,
        kind: SHT_PROGBITS,
        flags,
        offset,
        size,
        align: WORD_SIZE,
        ..NULL
    }
}

/// The relocations of the section with this index.
pub fn relocation_section(name: u32, offset: u32, size: u32, section: usize) -> SectionHeader
    requires { section < 2 ^ 32 }
    ensures { result ≡ relocation_section name offset size section }
{
    SectionHeader {
        name,
        kind: SHT_RELA,
        offset,
        size,
        link: SYMTAB_INDEX as u32,
        info: section as u32,
        align: WORD_SIZE,
        entsize: RELOCATION_SIZE,
        ..NULL
    }
}

/// The symbol table.
pub fn symbol_section(name: u32, offset: u32, size: u32) -> SectionHeader
    ensures { result ≡ symbol_section name offset size }
{
    SectionHeader {
        name,
        kind: SHT_SYMTAB,
        offset,
        size,
        link: STRTAB_INDEX as u32,
        info: FIRST_GLOBAL,
        align: WORD_SIZE,
        entsize: SYMBOL_SIZE,
        ..NULL
    }
}

/// Records or strings.
pub fn byte_section(name: u32, kind: u32, offset: u32, size: u32) -> SectionHeader
    ensures { result ≡ byte_section name kind offset size }
{
    SectionHeader {
        name,
        kind,
        offset,
        size,
        align: BYTE_ALIGNED,
        ..NULL
    }
}
