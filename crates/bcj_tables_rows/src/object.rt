//! Objects and the class records in them.

ghost use Rattle.std.specs.Prelude.{◌≤◌, length};
ghost use Rattle.bcj_elf.specs.Plain.{plain};
ghost use Rattle.bcj_elf.specs.Rules.{IsObject};

use crate::number::number;
use bcj_elf::{Object, read};
use bcj_tables::{Records, TableStop, read_class, write_classes};
use std::alloc::Global;

/// Adds to a file or to records what a row spells: bytes, words of 32 bits with the low byte first, a name with a zero byte
/// behind it, a text behind its length, or zeros.
pub fn extend(bytes: &mut Vec<u8>, kind: &str, given: &str) -> Option<()> {
    match kind {
        "bytes" | "u8" => add_bytes(bytes, given),
        "words" | "u32" => add_words(bytes, given),
        "name" => {
            bytes.extend_from_slice(given.as_bytes()).ok()?;
            bytes.push(0).ok()
        }
        "str" => {
            let length = u32::try_from(given.len()).ok()?;
            bytes.extend_from_slice(&length.to_le_bytes()).ok()?;
            bytes.extend_from_slice(given.as_bytes()).ok()
        }
        "zeros" => add_zeros(bytes, number(given)?),
        _ => None,
    }
}

fn add_bytes(bytes: &mut Vec<u8>, given: &str) -> Option<()> {
    for piece in given.split_whitespace() {
        bytes.push(u8::try_from(number(piece)?).ok()?).ok()?;
    }
    Some(())
}

fn add_words(bytes: &mut Vec<u8>, given: &str) -> Option<()> {
    for piece in given.split_whitespace() {
        bytes.extend_from_slice(&number(piece)?.to_le_bytes()).ok()?;
    }
    Some(())
}

fn add_zeros(bytes: &mut Vec<u8>, count: u32) -> Option<()> {
    for _turn in 0..count {
        bytes.push(0).ok()?;
    }
    Some(())
}

/// The bytes that are changed as `kind` says: one byte, the first bytes alone, or a byte more.
pub fn changed(alloc: Global, bytes: &[u8], kind: &str, given: &str) -> Option<Vec<u8>> {
    let mut other = Vec::from_slice(alloc, bytes).ok()?;
    match kind {
        "byte" | "file" => {
            let (at, value) = given.split_once(" = ")?;
            let at = number(at)? as usize;
            *other.get_mut(at)? = u8::try_from(number(value)?).ok()?;
        }
        "front" => other.truncate(number(given)? as usize),
        "longer" => other.push(u8::try_from(number(given)?).ok()?).ok()?,
        _ => return None,
    }
    Some(other)
}

/// The object with other records, which aren't longer.
fn with_records(mut o: Object, rec: Vec<u8>) -> Object
    requires object { IsObject (plain o) }
    requires shorter { length rec.items ≤ length o.rec.items }
    ensures { IsObject (plain result) }
{
    o.rec = rec;
    o
}

/// What comes of these records in the object that the file spells.
pub fn verdict(alloc: Global, file: &[u8], records: Vec<u8>) -> Option<String> {
    let o = read(alloc, file).ok()?;
    if records.len() > o.rec.len() {
        return None;
    }
    let o = with_records(o, records);
    match read_class(alloc, &o) {
        Ok(r) => told(alloc, &r, o.rec.as_slice()),
        Err(TableStop::Bad { at }) => format!(in alloc; "bad at {at}").ok(),
        Err(TableStop::NoMemory) => None,
    }
}

/// How these bytes were read, and how what was read is written.
fn told(alloc: Global, r: &Records, bytes: &[u8]) -> Option<String> {
    let written = write_classes(alloc, r).ok()?;
    let version = r.version;
    let classes = r.classes.len();
    if written.as_slice() == bytes {
        return format!(in alloc; "version {version}, {classes} classes").ok();
    }
    String::from_str(alloc, "written as other bytes").ok()
}
