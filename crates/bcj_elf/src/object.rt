//! What an object file holds.

/// The section that a symbol lies in.
#[derive(Clone, Copy)]
pub enum Section {
    /// `.text`, the code of the classes.
    Text,
    /// `.bcj.tab`, the tables of the classes.
    Tab,
}

/// A relocation type of the RISC-V psABI, with its number there.
#[derive(Clone, Copy)]
pub enum RelocationKind {
    /// `R_RISCV_32`: a word of 32 bits.
    Word = 1,
    /// `R_RISCV_HI20`: the immediate of a U-type instruction.
    Hi20 = 26,
    /// `R_RISCV_LO12_I`: the immediate of an I-type instruction.
    Lo12I = 27,
    /// `R_RISCV_LO12_S`: the immediate of an S-type instruction.
    Lo12S = 28,
}

/// A symbol: the region of one class in one of the two sections.
#[derive(Drop)]
pub struct Symbol {
    /// The class's name with `.text` or `.tab` behind it, in ASCII.
    pub name: Vec<u8>,
    /// The offset of its first byte in its section.
    pub value: u32,
    /// Its bytes.
    pub size: u32,
    pub section: Section,
}

/// A relocation entry with an addend.
#[derive(Clone, Copy)]
pub struct Relocation {
    /// The offset of the changed word in its section.
    pub offset: u32,
    /// The index in the symbol table, where the first of `Object::symbols` is 1.
    pub symbol: u32,
    pub kind: RelocationKind,
    /// The addend modulo 2^32.
    pub addend: u32,
}

/// An object: the contents of its sections.
#[derive(Drop)]
pub struct Object {
    pub text: Vec<u8>,
    pub text_relocs: Vec<Relocation>,
    pub tab: Vec<u8>,
    pub tab_relocs: Vec<Relocation>,
    /// The class records, of `.bcj.rec`.
    pub rec: Vec<u8>,
    /// The symbols behind the null symbol, in order.
    pub symbols: Vec<Symbol>,
}
