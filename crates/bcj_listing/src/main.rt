//! Lists the code of object files: of each word its offset, the word, and the instruction as an assembler reads it.
#![tactic(auto)]

use bcj_edge::{Files, HostFiles};
use bcj_elf::{Object, read};
use rv_isa::decode;
use rv_isa_text::text;
use std::alloc::Global;
use std::env::{self, Env};
use std::io;
use std::process::ExitCode;

/// The most bytes of an object file.
const MAX_BYTES: u32 = 4_194_304;

/// The status where a file is no object or can't be read.
const REFUSED: u8 = 1;

/// The instruction of a word.
fn told(alloc: Global, word: u32) -> io::Result<String> {
    match decode(word) {
        Some(instr) => Ok(text(alloc, instr)?),
        None => Ok(String::from_str(alloc, "no instruction")?),
    }
}

/// The object of a file, where it is one.
fn object_of<R: Env + AllocGlobal + std::rt::Files>(rt: &R, name: &str) -> Option<Object> {
    let mut files = HostFiles::new(rt);
    let bytes = files.read(rt.alloc(), name, MAX_BYTES).ok()?;
    read(rt.alloc(), bytes.as_slice()).ok()
}

/// Prints the words of an object.
fn list<R: Print + AllocGlobal>(rt: &R, object: &Object) -> io::Result<()> {
    let mut at = 0usize;
    for word in object.text.as_slice().chunks_exact(4) {
        let word = u32::from_le_bytes([word[0], word[1], word[2], word[3]]);
        let told = told(rt.alloc(), word)?;
        println!(rt; "{at} {word:08x} {told}")?;
        at = at.saturating_add(4);
    }
    Ok(())
}

fn main(rt: HostRuntime) -> io::Result<ExitCode> {
    for name in env::args(&rt)?.skip(1) {
        match object_of(&rt, name.as_str()) {
            Some(object) => list(&rt, &object)?,
            None => return Ok(ExitCode::from(REFUSED)),
        }
    }
    Ok(ExitCode::SUCCESS)
}
