//! What a relocation sets (RISC-V psABI, "Relocations").

ghost use Rattle.std.specs.Prelude.{◌≡◌, ◌+◌, ◌-◌, ◌/◌, Some, IfOk, slice_get};
ghost use Rattle.std.specs.Option.{option_map_or};
ghost use Rattle.bcj_hier_rules.specs.Shapes.{Named};
ghost use Rattle.bcj_layout_rules.specs.Rows.{Classes};
ghost use Rattle.bcj_layout_places.specs.Places.{ArePlaces};
ghost use Rattle.bcj_linker_rules.specs.Relocations as relocations;

use crate::addresses::{UPPER, sum, upper_part};
use bcj_elf::{Relocation, RelocationKind};
use bcj_layout_places::{Places, Words};
use std::alloc::AllocError;

/// What the lowest bit of the immediate of an I-type instruction counts.
const IMMEDIATE: u32 = 1 << 20;

/// What the lowest bit of the upper part of the immediate of an S-type instruction counts.
const STORE_UPPER: u32 = 1 << 25;

/// What the lowest bit of its lower part counts.
const STORE_LOWER: u32 = 1 << 7;

/// How many values its lower part has.
const STORE_LOWER_VALUES: u32 = 1 << 5;

/// The bits that the immediate of a store takes.
fn store_bits(value: u32) -> u32
    ensures { result ≡ relocations.set_in RelocationKind.Lo12S 0 value }
{
    value % UPPER / STORE_LOWER_VALUES * STORE_UPPER + value % STORE_LOWER_VALUES * STORE_LOWER
}

/// A word of clear bits with what a relocation of this kind sets.
fn set_in(kind: RelocationKind, word: u32, value: u32) -> Result<u32, AllocError>
    ensures { IfOk result (λ set. set ≡ relocations.set_in kind word value) }
{
    match kind {
        RelocationKind::Word => Ok(value),
        RelocationKind::Hi20 => sum(word, upper_part(value) * UPPER),
        RelocationKind::Lo12I => sum(word, value % UPPER * IMMEDIATE),
        RelocationKind::Lo12S => sum(word, store_bits(value)),
    }
}

/// The address of the class with this number. There is none past the last one.
fn address_at(addresses: &Words, class: u32) -> Result<u32, AllocError>
    ensures { IfOk result (λ address. slice_get addresses.now class ≡ Some address) }
{
    match addresses.get(class as usize) {
        Some(address) => Ok(*address),
        None => Err(AllocError),
    }
}

/// The number of the class of a symbol, in an object whose first class has this number: two symbols stand for each class, from 1 on.
fn class_of(first: u32, symbol: u32) -> Result<u32, AllocError>
    ensures { IfOk result (λ class. class ≡ first + (symbol - 1) / 2) }
{
    sum(first, symbol.saturating_sub(1) / 2)
}

/// The address of a symbol: odd ones stand for code, the others for tables.
fn symbol_at(places: &Places, first: u32, symbol: u32) -> Result<u32, AllocError>
    ensures { IfOk result (λ address. (cs : Classes) (main : Named) → ArePlaces cs main places.now → address ≡ relocations.symbol_at cs main first symbol) }
{
    let class = class_of(first, symbol)?;
    if symbol % 2 == 1 {
        address_at(&places.text, class)
    } else {
        address_at(&places.regions, class)
    }
}

/// The value that a relocation sets.
fn value_of(places: &Places, first: u32, relocation: Relocation) -> Result<u32, AllocError>
    ensures { IfOk result (λ value. (cs : Classes) (main : Named) → ArePlaces cs main places.now → value ≡ relocations.value_of cs main first relocation) }
{
    let address = symbol_at(places, first, relocation.symbol)?;
    Ok(address.wrapping_add(relocation.addend))
}

/// A word with what its relocation sets, where it has one.
pub fn relocated(
    places: &Places,
    first: u32,
    relocation: Option<Relocation>,
    word: u32,
) -> Result<u32, AllocError>
    ensures { IfOk result (λ set. (cs : Classes) (main : Named) → ArePlaces cs main places.now
        → set ≡ option_map_or (λ r. relocations.set_in r.kind word (relocations.value_of cs main first r)) relocation word) }
{
    match relocation {
        Some(r) => set_in(r.kind, word, value_of(places, first, r)?),
        None => Ok(word),
    }
}
