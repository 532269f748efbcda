//! Whether the registers and immediates of an item are in range.

ghost use Rattle.std.specs.Prelude.{◌≡◌, true};
ghost use Rattle.rv_isa.specs.Registers.{IsRegister};
ghost use Rattle.rv_isa.specs.Words.{
  amount_bits,
  branch_bits,
  HasBits,
  HasUnsignedBits,
  immediate_bits,
  InRange,
  IsEven,
  jump_bits,
  upper_bits,
};
ghost use Rattle.bcj_asm.specs.Assembly.{IsBranch, IsItem};

use bcj_asm::Item;
use rv_isa::Instr;

/// How many registers there are.
const REGISTERS: u8 = 32;

fn is_register(r: u8) -> bool
    ensures { result ≡ true → IsRegister r }
{
    r < REGISTERS
}

fn are_registers(r: u8, s: u8) -> bool
    ensures { result ≡ true → IsRegister r × IsRegister s }
{
    is_register(r) && is_register(s)
}

fn is_even(imm: i32) -> bool
    ensures { result ≡ true → IsEven imm }
{
    imm / 2 * 2 == imm
}

fn has_upper(rd: u8, imm: i32) -> bool
    ensures { result ≡ true → IsRegister rd × HasUnsignedBits upper_bits imm }
{
    is_register(rd) && imm >= 0 && imm < 1 << 20
}

fn has_jump(rd: u8, imm: i32) -> bool
    ensures { result ≡ true → IsRegister rd × HasBits jump_bits imm × IsEven imm }
{
    is_register(rd) && imm >= -(1 << 20) && imm < 1 << 20 && is_even(imm)
}

fn has_branch(r: u8, s: u8, imm: i32) -> bool
    ensures { result ≡ true → IsRegister r × IsRegister s × HasBits branch_bits imm × IsEven imm }
{
    are_registers(r, s) && imm >= -(1 << 12) && imm < 1 << 12 && is_even(imm)
}

fn has_immediate(r: u8, s: u8, imm: i32) -> bool
    ensures { result ≡ true → IsRegister r × IsRegister s × HasBits immediate_bits imm }
{
    are_registers(r, s) && imm >= -(1 << 11) && imm < 1 << 11
}

fn has_amount(r: u8, s: u8, imm: i32) -> bool
    ensures { result ≡ true → IsRegister r × IsRegister s × HasUnsignedBits amount_bits imm }
{
    are_registers(r, s) && imm >= 0 && imm < 1 << 5
}

fn is_branch(instr: Instr) -> bool
    ensures { result ≡ true → IsBranch instr }
{
    match instr {
        Instr::Beq { .. }
        | Instr::Bne { .. }
        | Instr::Blt { .. }
        | Instr::Bge { .. }
        | Instr::Bltu { .. }
        | Instr::Bgeu { .. } => true,
        _ => false,
    }
}

/// `is_in_range` of what works on registers alone.
fn is_operation(instr: Instr) -> bool
    ensures { result ≡ true → InRange instr }
{
    match instr {
        Instr::Add { rd, rs1, rs2 }
        | Instr::Sub { rd, rs1, rs2 }
        | Instr::Sll { rd, rs1, rs2 }
        | Instr::Slt { rd, rs1, rs2 }
        | Instr::Sltu { rd, rs1, rs2 }
        | Instr::Xor { rd, rs1, rs2 }
        | Instr::Srl { rd, rs1, rs2 }
        | Instr::Sra { rd, rs1, rs2 }
        | Instr::Or { rd, rs1, rs2 }
        | Instr::And { rd, rs1, rs2 }
        | Instr::Mul { rd, rs1, rs2 }
        | Instr::Mulh { rd, rs1, rs2 }
        | Instr::Mulhsu { rd, rs1, rs2 }
        | Instr::Mulhu { rd, rs1, rs2 }
        | Instr::Div { rd, rs1, rs2 }
        | Instr::Divu { rd, rs1, rs2 }
        | Instr::Rem { rd, rs1, rs2 }
        | Instr::Remu { rd, rs1, rs2 } => are_registers(rd, rs1) && is_register(rs2),
        Instr::Ecall | Instr::Ebreak => true,
        _ => false,
    }
}

/// `is_in_range` of what neither jumps nor reaches memory.
fn is_straight(instr: Instr) -> bool
    ensures { result ≡ true → InRange instr }
{
    match instr {
        Instr::Lui { rd, imm } => has_upper(rd, imm),
        Instr::Auipc { rd, imm } => has_upper(rd, imm),
        Instr::Addi { rd, rs1, imm } => has_immediate(rd, rs1, imm),
        Instr::Slti { rd, rs1, imm } => has_immediate(rd, rs1, imm),
        Instr::Sltiu { rd, rs1, imm } => has_immediate(rd, rs1, imm),
        Instr::Xori { rd, rs1, imm } => has_immediate(rd, rs1, imm),
        Instr::Ori { rd, rs1, imm } => has_immediate(rd, rs1, imm),
        Instr::Andi { rd, rs1, imm } => has_immediate(rd, rs1, imm),
        Instr::Fence { rd, rs1, imm } => has_immediate(rd, rs1, imm),
        Instr::Slli { rd, rs1, imm } => has_amount(rd, rs1, imm),
        Instr::Srli { rd, rs1, imm } => has_amount(rd, rs1, imm),
        Instr::Srai { rd, rs1, imm } => has_amount(rd, rs1, imm),
        _ => is_operation(instr),
    }
}

/// The registers of an instruction are below 32, and its format has room for its immediate (RISC-V Instruction Set Manual, volume I,
/// "Base Instruction Formats").
fn is_in_range(instr: Instr) -> bool
    ensures { result ≡ true → InRange instr }
{
    match instr {
        Instr::Jal { rd, imm } => has_jump(rd, imm),
        Instr::Jalr { rd, rs1, imm } => has_immediate(rd, rs1, imm),
        Instr::Beq { rs1, rs2, imm } => has_branch(rs1, rs2, imm),
        Instr::Bne { rs1, rs2, imm } => has_branch(rs1, rs2, imm),
        Instr::Blt { rs1, rs2, imm } => has_branch(rs1, rs2, imm),
        Instr::Bge { rs1, rs2, imm } => has_branch(rs1, rs2, imm),
        Instr::Bltu { rs1, rs2, imm } => has_branch(rs1, rs2, imm),
        Instr::Bgeu { rs1, rs2, imm } => has_branch(rs1, rs2, imm),
        Instr::Lb { rd, rs1, imm } => has_immediate(rd, rs1, imm),
        Instr::Lh { rd, rs1, imm } => has_immediate(rd, rs1, imm),
        Instr::Lw { rd, rs1, imm } => has_immediate(rd, rs1, imm),
        Instr::Lbu { rd, rs1, imm } => has_immediate(rd, rs1, imm),
        Instr::Lhu { rd, rs1, imm } => has_immediate(rd, rs1, imm),
        Instr::Sb { rs1, rs2, imm } => has_immediate(rs1, rs2, imm),
        Instr::Sh { rs1, rs2, imm } => has_immediate(rs1, rs2, imm),
        Instr::Sw { rs1, rs2, imm } => has_immediate(rs1, rs2, imm),
        _ => is_straight(instr),
    }
}

/// Whether the assembler takes an item. Lines have no other ones, which isn't proved.
pub fn is_item(item: Item) -> bool
    ensures { result ≡ true → IsItem item }
{
    match item {
        Item::Word(instr) => is_in_range(instr),
        Item::Jump { rd, to: _ } => is_register(rd),
        Item::Branch { instr, to: _ } => is_branch(instr) && is_in_range(instr),
        Item::Place(_) => true,
    }
}
