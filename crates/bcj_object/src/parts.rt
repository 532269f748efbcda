//! The parts of an object.

ghost use Rattle.std.specs.Prelude.{◌≡◌, ◌++◌, map, replicate, IfOk, OnOk};
ghost use Rattle.std.specs.List.{flat_map};
ghost use Rattle.bcj_elf.specs.Plain.{plain};
ghost use Rattle.bcj_elf.specs.Spelling as elf;
ghost use Rattle.bcj_object_rules.specs.Objects as spec;
ghost use Rattle.bcj_object.specs.function.Views.{placed_in};

use crate::placing::{PlacedClass, tab_size};
use crate::records::records;
use crate::relocations::{tab_relocations, text_relocations};
use crate::symbols::symbols;
use bcj_elf::Object;
use byteorder::{ByteOrder, LittleEndian};
use std::alloc::{AllocError, Global};

#[tactic(auto, unfolding(bcj_elf::specs::Spelling::word))]
fn put_word(word: u32, out: &mut Vec<u8>) -> Result<(), AllocError>
    ensures { OnOk result (out.new.items ≡ out.old.items ++ elf.word word) }
{
    let mut bytes = [0; 4];
    LittleEndian::write_u32(&mut bytes, word);
    out.extend_from_slice(&bytes)
}

fn put_words(words: &[u32], out: &mut Vec<u8>) -> Result<(), AllocError>
    ensures { OnOk result (out.new.items ≡ out.old.items ++ flat_map elf.word words.now) }
{
    for word in words {
        put_word(*word, out)?;
    }
    Ok(())
}

/// The contents of `.text`.
fn texts<'a>(alloc: Global, placed: &[PlacedClass<'a>]) -> Result<Vec<u8>, AllocError>
    ensures { IfOk result (λ v. v.items ≡ flat_map spec.class_text (map placed_in placed.now)) }
{
    let mut all = Vec::new(alloc);
    for p in placed {
        put_words(p.code.words.as_slice(), &mut all)?;
    }
    Ok(all)
}

fn put_zeros(count: u32, out: &mut Vec<u8>) -> Result<(), AllocError>
    ensures { OnOk result (out.new.items ≡ out.old.items ++ replicate count 0) }
{
    for _ in 0..count {
        out.push(0)?;
    }
    Ok(())
}

/// The contents of `.bcj.tab`.
fn tables<'a>(alloc: Global, placed: &[PlacedClass<'a>]) -> Result<Vec<u8>, AllocError>
    ensures { IfOk result (λ v. v.items ≡ flat_map spec.class_tab (map placed_in placed.now)) }
{
    let mut all = Vec::new(alloc);
    for p in placed {
        put_zeros(tab_size(&p.code)?, &mut all)?;
    }
    Ok(all)
}

/// The parts of the object of classes.
#[tactic(auto, unfolding(bcj_object_rules::specs::Objects::object_at))]
pub fn object_at<'a>(alloc: Global, placed: &[PlacedClass<'a>]) -> Result<Object, AllocError>
    ensures { IfOk result (λ o. plain o ≡ spec.object_at spec.current_version (map placed_in placed.now)) }
{
    Ok(Object {
        text: texts(alloc, placed)?,
        text_relocs: text_relocations(alloc, placed)?,
        tab: tables(alloc, placed)?,
        tab_relocs: tab_relocations(alloc, placed)?,
        rec: records(alloc, placed)?,
        symbols: symbols(alloc, placed)?,
    })
}
