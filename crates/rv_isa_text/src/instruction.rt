//! The text of an instruction, as an assembler reads it, with the distance of a jump or a branch as a number.

use rv_isa::Instr;
use std::alloc::{AllocError, Global};

/// The operands of an instruction, in the order of their text.
#[derive(Clone, Copy)]
enum Operands {
    None,
    /// A register and the upper bits of a number.
    Upper(u8, i32),
    /// A register and a number.
    One(u8, i32),
    /// Two registers and a number.
    Two(u8, u8, i32),
    /// A register, a base and an offset.
    Address(u8, u8, i32),
    Three(u8, u8, u8),
    Fence(u8, u8, i32),
}

fn parts(i: Instr) -> (&'static str, Operands) {
    match i {
        Instr::Lui { rd, imm } => ("lui", Operands::Upper(rd, imm)),
        Instr::Auipc { rd, imm } => ("auipc", Operands::Upper(rd, imm)),
        Instr::Jal { rd, imm } => ("jal", Operands::One(rd, imm)),
        Instr::Jalr { rd, rs1, imm } => ("jalr", Operands::Address(rd, rs1, imm)),
        Instr::Beq { rs1, rs2, imm } => ("beq", Operands::Two(rs1, rs2, imm)),
        Instr::Bne { rs1, rs2, imm } => ("bne", Operands::Two(rs1, rs2, imm)),
        Instr::Blt { rs1, rs2, imm } => ("blt", Operands::Two(rs1, rs2, imm)),
        Instr::Bge { rs1, rs2, imm } => ("bge", Operands::Two(rs1, rs2, imm)),
        Instr::Bltu { rs1, rs2, imm } => ("bltu", Operands::Two(rs1, rs2, imm)),
        Instr::Bgeu { rs1, rs2, imm } => ("bgeu", Operands::Two(rs1, rs2, imm)),
        Instr::Lb { rd, rs1, imm } => ("lb", Operands::Address(rd, rs1, imm)),
        Instr::Lh { rd, rs1, imm } => ("lh", Operands::Address(rd, rs1, imm)),
        Instr::Lw { rd, rs1, imm } => ("lw", Operands::Address(rd, rs1, imm)),
        Instr::Lbu { rd, rs1, imm } => ("lbu", Operands::Address(rd, rs1, imm)),
        Instr::Lhu { rd, rs1, imm } => ("lhu", Operands::Address(rd, rs1, imm)),
        Instr::Sb { rs1, rs2, imm } => ("sb", Operands::Address(rs2, rs1, imm)),
        Instr::Sh { rs1, rs2, imm } => ("sh", Operands::Address(rs2, rs1, imm)),
        Instr::Sw { rs1, rs2, imm } => ("sw", Operands::Address(rs2, rs1, imm)),
        Instr::Addi { rd, rs1, imm } => ("addi", Operands::Two(rd, rs1, imm)),
        Instr::Slti { rd, rs1, imm } => ("slti", Operands::Two(rd, rs1, imm)),
        Instr::Sltiu { rd, rs1, imm } => ("sltiu", Operands::Two(rd, rs1, imm)),
        Instr::Xori { rd, rs1, imm } => ("xori", Operands::Two(rd, rs1, imm)),
        Instr::Ori { rd, rs1, imm } => ("ori", Operands::Two(rd, rs1, imm)),
        Instr::Andi { rd, rs1, imm } => ("andi", Operands::Two(rd, rs1, imm)),
        Instr::Slli { rd, rs1, imm } => ("slli", Operands::Two(rd, rs1, imm)),
        Instr::Srli { rd, rs1, imm } => ("srli", Operands::Two(rd, rs1, imm)),
        Instr::Srai { rd, rs1, imm } => ("srai", Operands::Two(rd, rs1, imm)),
        Instr::Add { rd, rs1, rs2 } => ("add", Operands::Three(rd, rs1, rs2)),
        Instr::Sub { rd, rs1, rs2 } => ("sub", Operands::Three(rd, rs1, rs2)),
        Instr::Sll { rd, rs1, rs2 } => ("sll", Operands::Three(rd, rs1, rs2)),
        Instr::Slt { rd, rs1, rs2 } => ("slt", Operands::Three(rd, rs1, rs2)),
        Instr::Sltu { rd, rs1, rs2 } => ("sltu", Operands::Three(rd, rs1, rs2)),
        Instr::Xor { rd, rs1, rs2 } => ("xor", Operands::Three(rd, rs1, rs2)),
        Instr::Srl { rd, rs1, rs2 } => ("srl", Operands::Three(rd, rs1, rs2)),
        Instr::Sra { rd, rs1, rs2 } => ("sra", Operands::Three(rd, rs1, rs2)),
        Instr::Or { rd, rs1, rs2 } => ("or", Operands::Three(rd, rs1, rs2)),
        Instr::And { rd, rs1, rs2 } => ("and", Operands::Three(rd, rs1, rs2)),
        Instr::Mul { rd, rs1, rs2 } => ("mul", Operands::Three(rd, rs1, rs2)),
        Instr::Mulh { rd, rs1, rs2 } => ("mulh", Operands::Three(rd, rs1, rs2)),
        Instr::Mulhsu { rd, rs1, rs2 } => ("mulhsu", Operands::Three(rd, rs1, rs2)),
        Instr::Mulhu { rd, rs1, rs2 } => ("mulhu", Operands::Three(rd, rs1, rs2)),
        Instr::Div { rd, rs1, rs2 } => ("div", Operands::Three(rd, rs1, rs2)),
        Instr::Divu { rd, rs1, rs2 } => ("divu", Operands::Three(rd, rs1, rs2)),
        Instr::Rem { rd, rs1, rs2 } => ("rem", Operands::Three(rd, rs1, rs2)),
        Instr::Remu { rd, rs1, rs2 } => ("remu", Operands::Three(rd, rs1, rs2)),
        Instr::Fence { rd, rs1, imm } => ("fence", Operands::Fence(rd, rs1, imm)),
        Instr::Ecall => ("ecall", Operands::None),
        Instr::Ebreak => ("ebreak", Operands::None),
    }
}

pub fn text(alloc: Global, i: Instr) -> Result<String, AllocError> {
    let (name, operands) = parts(i);
    match operands {
        Operands::None => String::from_str(alloc, name),
        Operands::Upper(a, imm) => format!(in alloc; "{name} x{a}, {imm:#x}"),
        Operands::One(a, imm) => format!(in alloc; "{name} x{a}, {imm}"),
        Operands::Address(a, b, imm) => format!(in alloc; "{name} x{a}, {imm}(x{b})"),
        Operands::Three(a, b, c) => format!(in alloc; "{name} x{a}, x{b}, x{c}"),
        Operands::Two(a, b, imm) => format!(in alloc; "{name} x{a}, x{b}, {imm}"),
        Operands::Fence(a, b, imm) => fence(alloc, a, b, imm),
    }
}

/// A FENCE with its sets of accesses, where an assembler has a name for them.
fn fence(alloc: Global, rd: u8, rs1: u8, imm: i32) -> Result<String, AllocError> {
    match (rd, rs1, imm) {
        (0, 0, 255) => String::from_str(alloc, "fence iorw, iorw"),
        (0, 0, -1997) => String::from_str(alloc, "fence.tso"),
        _ => format!(in alloc; "fence of x{rd}, x{rs1}, {imm}"),
    }
}
