//! Items with labels and the words that they are assembled to.

ghost use Rattle.std.specs.Prelude.{◌<◌, IfSome, OnSome};
ghost use Rattle.bcj_asm.specs.Assembly.{AreItems, IsItem};

use crate::number::{number, register};
use bcj_asm::{AsmStop, Item, Items, Label, assemble};
use rv_isa::{Instr, decode};
use std::alloc::{AllocError, Global};

/// The most words that are told one by one.
const FEW_WORDS: usize = 8;

/// The most items that a list of them holds.
const MAX_ITEMS: usize = 4_294_967_295;

/// The words of items with semicolons between them.
pub fn assembled(alloc: Global, given: &str) -> Option<String> {
    let items = items_of(alloc, given)?;
    match assemble(alloc, &items) {
        Ok(code) => told(alloc, code.as_slice()).ok(),
        Err(AsmStop::TooLong) => String::from_str(alloc, "too long").ok(),
        Err(AsmStop::NoMemory) => None,
    }
}

/// A few words one by one, and of more their number, the first and the last.
fn told(alloc: Global, words: &[u32]) -> Result<String, AllocError> {
    let count = words.len();
    if count > FEW_WORDS {
        let first = words.first().copied().unwrap_or(0);
        let last = words.last().copied().unwrap_or(0);
        return format!(in alloc; "{count} words from {first:#010x} to {last:#010x}");
    }
    let mut text = String::new(alloc);
    for word in words {
        if !text.is_empty() {
            text.push(' ')?;
        }
        text.push_str(format!(in alloc; "{word:#010x}")?.as_str())?;
    }
    Ok(text)
}

fn items_of(alloc: Global, given: &str) -> Option<Items>
    ensures { IfSome result (λ items. AreItems items) }
{
    let mut items = Items::new(alloc);
    for piece in given.split(';') {
        let piece = piece.trim();
        if !piece.is_empty() {
            let (count, piece) = counted(piece)?;
            add(&mut items, item(piece)?, count)?;
        }
    }
    Some(items)
}

/// How often an item stands, where that is said before it.
fn counted(piece: &str) -> Option<(u32, &str)> {
    match piece.split_once(" * ") {
        Some((count, item)) => Some((number(count)?, item)),
        None => Some((1, piece)),
    }
}

/// Adds an item so many times.
fn add(items: &mut Items, item: Item, count: u32) -> Option<()>
    requires items { AreItems items.old }
    requires item { IsItem item }
    ensures { OnSome result (AreItems items.new) }
{
    for _turn in 0..count {
        if items.len() >= MAX_ITEMS {
            return None;
        }
        items.push(item).ok()?;
    }
    Some(())
}

/// `label 1`, `word 0x00700513`, `jal x1, 2` or a branch, as `beq x10, x0, 3`; what stands last is the label.
fn item(piece: &str) -> Option<Item>
    ensures { IfSome result (λ item. IsItem item) }
{
    let (name, rest) = piece.split_once(' ')?;
    match name {
        "label" => Some(Item::Place(Label(number(rest)?))),
        "word" => Some(Item::Word(decode(number(rest)?)?)),
        "jal" => jump(rest),
        _ => branch(name, rest),
    }
}

fn jump(rest: &str) -> Option<Item>
    ensures { IfSome result (λ item. IsItem item) }
{
    let (rd, to) = rest.split_once(", ")?;
    Some(Item::Jump {
        rd: register(rd)?,
        to: Label(number(to)?),
    })
}

fn branch(name: &str, rest: &str) -> Option<Item>
    ensures { IfSome result (λ item. IsItem item) }
{
    let (rs1, rest) = rest.split_once(", ")?;
    let (rs2, to) = rest.split_once(", ")?;
    let to = Label(number(to)?);
    comparing(name, register(rs1)?, register(rs2)?, to)
}

fn comparing(name: &str, rs1: u8, rs2: u8, to: Label) -> Option<Item>
    requires rs1 { rs1 < 32 }
    requires rs2 { rs2 < 32 }
    ensures { IfSome result (λ item. IsItem item) }
{
    let imm = 0;
    let instr = match name {
        "beq" => Instr::Beq { rs1, rs2, imm },
        "bne" => Instr::Bne { rs1, rs2, imm },
        "blt" => Instr::Blt { rs1, rs2, imm },
        "bge" => Instr::Bge { rs1, rs2, imm },
        "bltu" => Instr::Bltu { rs1, rs2, imm },
        "bgeu" => Instr::Bgeu { rs1, rs2, imm },
        _ => return None,
    };
    Some(Item::Branch { instr, to })
}
