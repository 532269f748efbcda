//! The relocated code of an object.

ghost use Rattle.std.specs.Prelude.{◌≡◌, ◌+◌, ◌≤◌, ◌==◌, ◌++◌, length, OnOk};
ghost use Rattle.std.specs.List.{find};
ghost use Rattle.bcj_elf.specs.Plain.{plain};
ghost use Rattle.bcj_elf.specs.Rules.{IsObject, word_at};
ghost use Rattle.bcj_hier_rules.specs.Shapes.{Named};
ghost use Rattle.bcj_layout_rules.specs.Rows.{Classes};
ghost use Rattle.bcj_layout_rules.specs.Places.{word_size};
ghost use Rattle.bcj_layout_places.specs.Places.{ArePlaces};
ghost use Rattle.bcj_linker_code.specs.Relocating.{AreParted, object_code};

use crate::relocation::relocated;
use bcj_elf::{Object, Relocation};
use bcj_layout_places::{Places, Words};
use byteorder::{ByteOrder, LittleEndian};
use std::alloc::AllocError;

/// The bytes of a word.
const WORD_SIZE: usize = 4;

/// The little-endian word at an offset.
fn word_at(bytes: &[u8], at: usize) -> u32
    requires { at + word_size ≤ length bytes.now }
    ensures { result ≡ word_at at bytes.now }
{
    LittleEndian::read_u32(&bytes[at..])
}

/// The relocation of the word at an offset, which is the first one that isn't passed, or none. It is passed then.
fn take_relocation(relocations: &[Relocation], passed: &mut usize, at: usize) -> Option<Relocation>
    ensures found { AreParted relocations.now passed.old at → result ≡ find (λ r. r.offset == at) relocations.now }
    ensures parted { AreParted relocations.now passed.old at → AreParted relocations.now passed.new (at + word_size) }
{
    match relocations.get(*passed) {
        Some(r) if r.offset as usize == at => {
            *passed += 1;
            Some(*r)
        }
        _ => None,
    }
}

/// Puts the code of an object whose first class has this number behind the words.
pub fn push_object(
    places: &Places,
    first: u32,
    object: &Object,
    words: &mut Words,
) -> Result<(), AllocError>
    ensures { OnOk result ((cs : Classes) (main : Named) → ArePlaces cs main places.now → IsObject (plain object.now)
        → words.new ≡ words.old ++ object_code cs main first (plain object.now)) }
{
    let text = object.text.as_slice();
    let relocations = object.text_relocs.as_slice();
    let mut passed = 0;
    for index in 0..text.len() / WORD_SIZE {
        let at = WORD_SIZE * index;
        let relocation = take_relocation(relocations, &mut passed, at);
        words.push(relocated(places, first, relocation, word_at(text, at))?)?;
    }
    Ok(())
}
