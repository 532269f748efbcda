//! The numbers of an ELF32 file by ELF's names (System V ABI, "Object Files"; RISC-V ELF psABI).

/// The bytes of an `Elf32_Ehdr`.
pub const FILE_HEADER_SIZE: u32 = 52;
/// The bytes of an `Elf32_Shdr`.
pub const SECTION_HEADER_SIZE: u32 = 40;
/// The bytes of an `Elf32_Sym`.
pub const SYMBOL_SIZE: u32 = 16;
/// The bytes of an `Elf32_Rela`.
pub const RELOCATION_SIZE: u32 = 12;

/// The first bytes of a file.
pub const ELFMAG: [u8; 4] = *b"\x7fELF";

pub const ELFCLASS32: u8 = 1;

pub const ELFDATA2LSB: u8 = 1;

pub const EV_CURRENT: u8 = 1;

pub const ELFOSABI_NONE: u8 = 0;

pub const ET_REL: u16 = 1;

pub const EM_RISCV: u16 = 243;

/// The value of a field that has no use here.
pub const UNUSED: u32 = 0;

pub const SHT_PROGBITS: u32 = 1;

pub const SHT_SYMTAB: u32 = 2;

pub const SHT_STRTAB: u32 = 3;

pub const SHT_RELA: u32 = 4;

pub const SHF_WRITE: u32 = 1;

pub const SHF_ALLOC: u32 = 2;

pub const SHF_EXECINSTR: u32 = 4;

/// `st_info` of a global symbol of the type `STT_OBJECT`.
pub const GLOBAL_OBJECT: u8 = 0x11;
/// `st_info` of a global symbol of the type `STT_FUNC`.
pub const GLOBAL_FUNC: u8 = 0x12;

pub const STV_DEFAULT: u8 = 0;

pub const R_RISCV_32: u32 = 1;

pub const R_RISCV_HI20: u32 = 26;

pub const R_RISCV_LO12_I: u32 = 27;

pub const R_RISCV_LO12_S: u32 = 28;

/// What an index of a symbol counts for in `r_info`; the type is added.
pub const R_INFO_SYMBOL: u32 = 0x100;
/// How many indices of symbols `r_info` has room for.
pub const R_INFO_SYMBOLS: usize = 0x100_0000;

// The offsets of fields in a section header, a relocation and a symbol.

pub const SH_OFFSET: usize = 16;

pub const SH_SIZE: usize = 20;

pub const R_OFFSET: usize = 0;

pub const R_INFO: usize = 4;

pub const R_ADDEND: usize = 8;

pub const ST_VALUE: usize = 4;

pub const ST_SIZE: usize = 8;

pub const ST_SHNDX: usize = 14;
