//! A line of code.

use bcj_asm::Item;
use bcj_lower_rules::Half;
use bcj_symbolic_measure::Entry;

/// An address that isn't known before linking.
#[derive(Clone, Copy)]
pub enum Address<'a> {
    /// The first word of the class's own table region.
    Region,
    /// The word of an entry in it.
    Entry(Entry<'a>),
}

/// The immediate becomes this half of this address (RISC-V psABI, "Relocations").
#[derive(Clone, Copy)]
pub struct Relocated<'a> {
    pub half: Half,
    pub address: Address<'a>,
}

/// An item for the assembler, and what linking sets in it.
#[derive(Clone, Copy)]
pub struct Line<'a> {
    pub item: Item,
    pub relocated: Option<Relocated<'a>>,
}
