// The words of items.
ghost use Rattle.std.specs.Prelude.{◌≡◌, ℕ, ◌+◌, ◌≤◌, ◌<◌, List, ◌++◌, length, IfOk, OnOk, IsErrOf};
ghost use Rattle.std.specs.List.{All, AllZip};
ghost use Rattle.rv_isa.specs.declared.instruction.Instr.{Instr};
ghost use Rattle.rv_isa.specs.Registers.{IsRegister};
ghost use Rattle.rv_isa.specs.Words.{branch_bits, HasBits, InRange, IsEven, jump_bits, Spells};
ghost use Rattle.bcj_asm.specs.Forms.{branch_size, distance, formed, places_of, size, sizes};
ghost use Rattle.bcj_asm.specs.Assembly.{
  aimed,
  all_emitted,
  AreItems,
  Assembles,
  branch_by,
  emitted,
  IsBranch,
  max_words,
  opposite,
  over_next,
};
ghost use Rattle.bcj_asm.specs.function.Emitting.{AllFit, BranchFits, Fits, IsFormed};
ghost use Rattle.bcj_asm.specs.function.Places.{named_place};

use crate::forms::{Form, Formed};
use crate::item::{Code, Item, Items, Places};
use crate::places::{Labels, find_places, item_places};
use crate::rounds::form_all;
use rv_isa::registers::ZERO;
use rv_isa::{Instr, encode};
use std::alloc::{AllocError, Global};
use thiserror::Error;

/// The most words that code may have: a JAL reaches each of them from each.
const MAX_WORDS: usize = 200_000;

/// The bytes of a word.
const WORD_SIZE: i32 = 4;

/// Why items weren't assembled.
#[derive(Debug, Drop, Error)]
pub enum AsmStop {
    /// There are more than 200,000 words.
    #[error("TooLong")]
    TooLong,
    /// Memory ran out.
    #[error("NoMemory")]
    NoMemory,
}

impl From<AllocError> for AsmStop {
    ghost use Rattle.std.specs.Prelude.{◌≡◌};
    ghost use Rattle.bcj_asm.specs.declared.assembling.AsmStop.TheVariants.{NoMemory};

    ghost from_gives = { λ _ result. result ≡ NoMemory };

    fn from(_: AllocError) -> AsmStop {
        AsmStop::NoMemory
    }
}

/// The words of items, and the place of each item among them.
#[derive(Drop)]
pub struct Assembled {
    pub code: Code,
    pub places: Places,
}

/// The words of a list of items.
///
/// A `Word` gives its own word and a `Jump` a JAL. A `Branch` is one word where it reaches its label, from 4,096 bytes before it
/// to 4,094 behind it. All others are two words, the opposite branch over the second, a JAL to the label. A label that several
/// items place stands for the last of these places, and one that no item places for the first word. RISC-V Instruction Set
/// Manual, volume I, "Control Transfer Instructions".
pub fn assemble(alloc: Global, items: &Items) -> Result<Code, AsmStop>
    requires { AreItems items.now }
    ensures ok { IfOk result (λ code. Assembles items.now code) }
    ensures within { OnOk result (sizes (formed items.now) ≤ max_words) }
    ensures too_long { IsErrOf result AsmStop.TooLong → max_words < sizes (formed items.now) }
{
    match assemble_with_places(alloc, items) {
        Ok(assembled) => Ok(assembled.code),
        Err(stop) => Err(stop),
    }
}

/// The words of a list of items as `assemble` gives them, and the place of each item, counted in words from the first.
pub fn assemble_with_places(alloc: Global, items: &Items) -> Result<Assembled, AsmStop>
    requires { AreItems items.now }
    ensures ok { IfOk result (λ assembled. Assembles items.now assembled.code) }
    ensures places { IfOk result (λ assembled. assembled.places ≡ places_of items.now) }
    ensures within { OnOk result (sizes (formed items.now) ≤ max_words) }
    ensures too_long { IsErrOf result AsmStop.TooLong → max_words < sizes (formed items.now) }
{
    let forms = form_all(alloc, items.as_slice())?;
    let forms = forms.as_slice();
    let labels = find_places(alloc, forms)?;
    if labels.words > MAX_WORDS {
        return Err(AsmStop::TooLong);
    }
    let places = item_places(alloc, forms)?;
    let code = emit_all(alloc, &labels, forms)?;
    Ok(Assembled { code, places })
}

/// The words of items whose labels have these places.
fn emit_all(alloc: Global, labels: &Labels, forms: &[Formed]) -> Result<Code, AllocError>
    requires items { All IsFormed forms.now }
    requires words { sizes forms.now ≤ max_words }
    requires places { (l : ℕ) → named_place labels.now.named l ≤ max_words }
    requires fit { AllFit (named_place labels.now.named) forms.now }
    ensures { IfOk result (λ code. AllZip Spells (all_emitted (named_place labels.now.named) 0 forms.now) code) }
{
    let mut code = Code::new(alloc);
    for formed in forms {
        emit(&mut code, labels, formed)?;
    }
    Ok(code)
}

/// Adds the words of an item behind the words so far.
fn emit(code: &mut Code, labels: &Labels, formed: &Formed) -> Result<(), AllocError>
    requires item { IsFormed formed.now }
    requires room { length code.old + size formed.now.form formed.now.item ≤ max_words }
    requires places { (l : ℕ) → named_place labels.now.named l ≤ max_words }
    requires fits { Fits (named_place labels.now.named) (length code.old) formed.now.form formed.now.item }
    ensures words { OnOk result ((before : List Instr) → AllZip Spells before code.old
        → AllZip Spells
        (before ++ emitted (named_place labels.now.named) (length code.old) formed.now.form formed.now.item)
        code.new) }
    ensures len { OnOk result (length code.new ≡ length code.old + size formed.now.form formed.now.item) }
{
    match formed.item {
        Item::Word(instr) => code.push(encode(instr)),
        Item::Jump { rd, to } => code.push(encode(jump(rd, code.len(), labels.target(to)))),
        Item::Branch { instr, to } => emit_branch(code, formed.form, instr, labels.target(to)),
        Item::Place(_) => Ok(()),
    }
}

/// Adds a branch to a place.
fn emit_branch(code: &mut Code, form: Form, instr: Instr, to: usize) -> Result<(), AllocError>
    requires branch { IsBranch instr }
    requires in_range { InRange instr }
    requires room { length code.old + branch_size form ≤ max_words }
    requires to { to ≤ max_words }
    requires fits { BranchFits form (length code.old) to }
    ensures words { OnOk result ((before : List Instr) → AllZip Spells before code.old
        → AllZip Spells (before ++ branch_by form instr (length code.old) to) code.new) }
    ensures len { OnOk result (length code.new ≡ length code.old + branch_size form) }
{
    let here = code.len();
    match form {
        Form::Short => code.push(encode(aimed(instr, distance(here, to)))),
        Form::Long => {
            code.push(encode(turned(instr)))?;
            code.push(encode(jump(ZERO, here + 1, to)))
        }
    }
}

/// The JAL from one place to another.
fn jump(rd: u8, here: usize, to: usize) -> Instr
    requires register { IsRegister rd }
    requires here { here ≤ max_words }
    requires to { to ≤ max_words }
    ensures exact { result ≡ Instr.Jal rd (distance here to) }
    ensures in_range { InRange result }
{
    Instr::Jal {
        rd,
        imm: distance(here, to),
    }
}

/// The bytes from one place to another.
fn distance(here: usize, to: usize) -> i32
    requires here { here ≤ max_words }
    requires to { to ≤ max_words }
    ensures exact { result ≡ distance here to }
    ensures bits { HasBits jump_bits result }
    ensures even { IsEven result }
{
    (to as i32 - here as i32) * WORD_SIZE
}

/// The opposite branch, over one instruction.
fn turned(instr: Instr) -> Instr
    requires branch { IsBranch instr }
    requires in_range { InRange instr }
    ensures exact { result ≡ aimed (opposite instr) over_next }
    ensures in_range { InRange result }
{
    let imm = 2 * WORD_SIZE;
    match instr {
        Instr::Beq { rs1, rs2, .. } => Instr::Bne { rs1, rs2, imm },
        Instr::Bne { rs1, rs2, .. } => Instr::Beq { rs1, rs2, imm },
        Instr::Blt { rs1, rs2, .. } => Instr::Bge { rs1, rs2, imm },
        Instr::Bge { rs1, rs2, .. } => Instr::Blt { rs1, rs2, imm },
        Instr::Bltu { rs1, rs2, .. } => Instr::Bgeu { rs1, rs2, imm },
        Instr::Bgeu { rs1, rs2, .. } => Instr::Bltu { rs1, rs2, imm },
        other => other,
    }
}

/// A branch with another immediate.
fn aimed(instr: Instr, imm: i32) -> Instr
    requires branch { IsBranch instr }
    requires in_range { InRange instr }
    requires bits { HasBits branch_bits imm }
    requires even { IsEven imm }
    ensures exact { result ≡ aimed instr imm }
    ensures in_range { InRange result }
{
    match instr {
        Instr::Beq { rs1, rs2, .. } => Instr::Beq { rs1, rs2, imm },
        Instr::Bne { rs1, rs2, .. } => Instr::Bne { rs1, rs2, imm },
        Instr::Blt { rs1, rs2, .. } => Instr::Blt { rs1, rs2, imm },
        Instr::Bge { rs1, rs2, .. } => Instr::Bge { rs1, rs2, imm },
        Instr::Bltu { rs1, rs2, .. } => Instr::Bltu { rs1, rs2, imm },
        Instr::Bgeu { rs1, rs2, .. } => Instr::Bgeu { rs1, rs2, imm },
        other => other,
    }
}
