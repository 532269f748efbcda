//! Object files: what they hold, and where a changed one is bad.

use crate::number::number;
use bcj_elf::{ElfStop, Relocation, Section, Symbol, read, rec_start, write};
use std::alloc::{AllocError, Global};
use std::str;

/// Adds to a file what a row spells: bytes, words of 32 bits with the low byte first, or a name with a zero byte behind it.
pub fn extend(file: &mut Vec<u8>, kind: &str, given: &str) -> Option<()> {
    match kind {
        "name" => {
            file.extend_from_slice(given.as_bytes()).ok()?;
            file.push(0).ok()
        }
        "bytes" => add_bytes(file, given),
        "words" => add_words(file, given),
        _ => None,
    }
}

fn add_bytes(file: &mut Vec<u8>, given: &str) -> Option<()> {
    for piece in given.split_whitespace() {
        let byte = u8::try_from(number(piece)?).ok()?;
        file.push(byte).ok()?;
    }
    Some(())
}

fn add_words(file: &mut Vec<u8>, given: &str) -> Option<()> {
    for piece in given.split_whitespace() {
        let word = number(piece)?;
        file.extend_from_slice(&word.to_le_bytes()).ok()?;
    }
    Some(())
}

/// How a file is read that is changed as `kind` says: one byte, its first bytes alone, or a byte more.
pub fn changed(alloc: Global, file: &[u8], kind: &str, given: &str) -> Option<String> {
    let mut bytes = Vec::from_slice(alloc, file).ok()?;
    match kind {
        "byte" => {
            let (at, value) = given.split_once(" = ")?;
            let at = number(at)? as usize;
            *bytes.get_mut(at)? = u8::try_from(number(value)?).ok()?;
        }
        "front" => bytes.truncate(number(given)? as usize),
        "longer" => bytes.push(u8::try_from(number(given)?).ok()?).ok()?,
        _ => return None,
    }
    verdict(alloc, bytes.as_slice())
}

fn verdict(alloc: Global, bytes: &[u8]) -> Option<String> {
    match read(alloc, bytes) {
        Ok(_) => String::from_str(alloc, "an object").ok(),
        Err(ElfStop::Bad { at, what }) => format!(in alloc; "{at} {what}").ok(),
        Err(ElfStop::NoMemory) => None,
    }
}

/// A part of the object that a file spells.
pub fn part(alloc: Global, file: &[u8], name: &str) -> Option<String> {
    let object = read(alloc, file).ok()?;
    match name {
        "size" => number_text(alloc, file.len()),
        "rec at" => number_text(alloc, rec_start(file) as usize),
        "text" => hexadecimal(alloc, object.text.as_slice()).ok(),
        "tab" => hexadecimal(alloc, object.tab.as_slice()).ok(),
        "rec" => hexadecimal(alloc, object.rec.as_slice()).ok(),
        "rela.text" => relocations(alloc, object.text_relocs.as_slice()).ok(),
        "rela.tab" => relocations(alloc, object.tab_relocs.as_slice()).ok(),
        "symbols" => symbols(alloc, object.symbols.as_slice()),
        "written again" => again(alloc, file),
        _ => None,
    }
}

fn number_text(alloc: Global, n: usize) -> Option<String> {
    format!(in alloc; "{n}").ok()
}

/// Bytes as digits.
pub fn hexadecimal(alloc: Global, bytes: &[u8]) -> Result<String, AllocError> {
    let mut text = String::new(alloc);
    for byte in bytes {
        text.push_str(format!(in alloc; "{byte:02x}")?.as_str())?;
    }
    Ok(text)
}

fn relocations(alloc: Global, all: &[Relocation]) -> Result<String, AllocError> {
    let mut text = String::new(alloc);
    for r in all {
        let number = r.kind as u32;
        let (offset, symbol, addend) = (r.offset, r.symbol, r.addend);
        let told = format!(in alloc; "({offset} {symbol} {number} {addend})")?;
        text.push_str(told.as_str())?;
    }
    Ok(text)
}

fn symbols(alloc: Global, all: &[Symbol]) -> Option<String> {
    let mut text = String::new(alloc);
    for s in all {
        let name = str::from_utf8(s.name.as_slice()).ok()?;
        let section = match s.section {
            Section::Text => "text",
            Section::Tab => "tab",
        };
        let (value, size) = (s.value, s.size);
        let told = format!(in alloc; "({name} {value} {size} {section})").ok()?;
        text.push_str(told.as_str()).ok()?;
    }
    Some(text)
}

/// How the object that a file spells is written.
fn again(alloc: Global, file: &[u8]) -> Option<String> {
    let object = read(alloc, file).ok()?;
    let written = write(alloc, &object).ok()?;
    let told = if written.as_slice() == file {
        "the same"
    } else {
        "another file"
    };
    String::from_str(alloc, told).ok()
}
