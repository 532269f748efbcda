//! One step of the machine.

use crate::number::{number, register};
use crate::object::hexadecimal;
use bcj_edge::Bytes;
use rv_machine::{FaultKind, Machine, Step};
use std::alloc::{AllocError, Global};

/// What each row's machine holds at its read-only end.
const DATA: [u8; 8] = [0x80, 0xff, 0x7f, 0x01, 0, 0, 0, 0];

/// The bytes of a row's machine.
const SIZE: usize = 64;

const READ_ONLY_END: u32 = 32;

/// The address of the word.
const START: u32 = 16;

/// A machine with a word at the pc, and 9 in x7.
fn prepared(alloc: Global, word: u32) -> Result<Machine, AllocError> {
    let mut memory = vec![in alloc; 0u8; SIZE]?;
    put(memory.as_mut_slice(), START as usize, &word.to_le_bytes());
    put(memory.as_mut_slice(), READ_ONLY_END as usize, &DATA);
    let memory = Bytes::of(memory);
    let mut machine = Machine::new(memory, READ_ONLY_END, START);
    machine.set_reg(7, 9);
    Ok(machine)
}

/// Writes bytes where there is room for them.
fn put(memory: &mut [u8], at: usize, bytes: &[u8]) {
    if at < memory.len() && bytes.len() <= memory.len() - at {
        memory[at..at + bytes.len()].copy_from_slice(bytes);
    }
}

/// Sets what a row gives, as `x5=7` or `pc=28`.
fn set(machine: &mut Machine, given: &str) -> Option<()> {
    let (name, value) = given.split_once('=')?;
    let value = number(value)?;
    if name == "pc" {
        machine.set_pc(value);
    } else {
        machine.set_reg(register(name)?, value);
    }
    Some(())
}

/// What a step of this word does to a machine that is set as given.
pub fn step(alloc: Global, word: u32, given: &str) -> Option<String> {
    let mut machine = prepared(alloc, word).ok()?;
    for piece in given.split_whitespace() {
        set(&mut machine, piece)?;
    }
    let step = machine.step();
    after(alloc, name(step), &machine).ok()
}

fn name(step: Step) -> &'static str {
    match step {
        Step::Went => "went",
        Step::Call => "call",
        Step::Fault(FaultKind::Illegal) => "illegal",
        Step::Fault(FaultKind::Unaligned) => "unaligned",
        Step::Fault(FaultKind::Outside) => "outside",
        Step::Fault(FaultKind::ReadOnly) => "read only",
        Step::Fault(FaultKind::Break) => "break",
        Step::Fault(FaultKind::BadCall) => "bad call",
    }
}

/// The answer, x7, the pc and the count of retired instructions, and the data where it isn't as it was.
fn after(alloc: Global, answer: &str, machine: &Machine) -> Result<String, AllocError> {
    let x7 = machine.reg(7);
    let pc = machine.pc();
    let retired = machine.retired();
    let mut text = format!(in alloc; "{answer} x7={x7:#x} pc={pc:#x} retired={retired}")?;
    let data = machine.memory().get(32..40).unwrap_or(b"");
    if data != DATA.as_slice() {
        text.push_str(" data=")?;
        text.push_str(hexadecimal(alloc, data)?.as_str())?;
    }
    Ok(text)
}
