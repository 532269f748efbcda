//! The code of a class. Offsets count from its own first word, in bytes.

use bcj_lower_rules::Half;
use bcj_symbolic_measure::EntryTable;
use bcj_symbolic_trees::Name;

/// The immediate of the word at `offset` becomes this half of the address of the class's table region plus `addend` (RISC-V psABI,
/// "Relocations").
#[derive(Clone, Copy)]
pub struct CodeRelocation {
    pub offset: u32,
    pub half: Half,
    pub addend: u32,
}

/// The offset of a method's first word, how many words it has, and how many its frame. A method without code has 0 of each.
#[derive(Clone, Copy)]
pub struct MethodCode {
    pub entry: u32,
    pub words: u32,
    pub frame: u32,
}

/// What is thrown in a method from `start` up to `end` goes to `target`, where it is an object of the class; with no class, whatever
/// it is. Methods are numbered from 0, the class initialiser.
#[derive(Clone, Copy)]
pub struct CodeRange<'a> {
    pub method: u32,
    pub start: u32,
    pub end: u32,
    pub target: u32,
    pub class: Option<&'a Name>,
}

/// The code of a class with the four tables of its region, behind the word of the class initialiser.
#[derive(Drop)]
pub struct ClassCode<'a> {
    pub words: Vec<u32>,
    pub relocs: Vec<CodeRelocation>,
    pub methods: Vec<MethodCode>,
    pub ranges: Vec<CodeRange<'a>>,
    pub ctable: EntryTable<'a>,
    pub otable: EntryTable<'a>,
    pub atable: EntryTable<'a>,
    pub itable: EntryTable<'a>,
}
