//! From an instruction to its word.

ghost use Rattle.std.specs.Prelude.{◌≡◌, ◌<◌, ◌^◌};
ghost use Rattle.rv_isa.specs.Opcode as opcode;
ghost use Rattle.rv_isa.specs.Words.{
  bits,
  branch_bits,
  branch_form,
  fields_of,
  HasBits,
  HasUnsignedBits,
  immediate_bits,
  immediate_form,
  InBits,
  InRange,
  IsEven,
  jump_bits,
  jump_form,
  register_form,
  Spells,
  store_form,
  upper_bits,
  upper_form,
};

use crate::fields::{self, Fields};
use crate::instruction::Instr;
use crate::registers::ZERO;
use crate::{funct3, funct7, funct12, opcode};

/// The word of an instruction: RISC-V Instruction Set Manual, volume I, "RV32/64G Instruction Set Listings".
pub fn encode(i: Instr) -> u32
    requires { InRange i }
    ensures { Spells i result }
{
    fields::join(as_fields(i))
}

/// The fields of an instruction's word.
fn as_fields(i: Instr) -> Fields
    requires { InRange i }
    ensures bits { InBits result }
    ensures table { result ≡ fields_of i }
{
    match i {
        Instr::Lui { rd, imm } => upper(opcode::LUI, rd, imm),
        Instr::Auipc { rd, imm } => upper(opcode::AUIPC, rd, imm),
        Instr::Jal { rd, imm } => jump(rd, imm),
        Instr::Jalr { rd, rs1, imm } => immediate(opcode::JALR, funct3::JALR, rd, rs1, imm),
        Instr::Beq { rs1, rs2, imm } => branch(funct3::BEQ, rs1, rs2, imm),
        Instr::Bne { rs1, rs2, imm } => branch(funct3::BNE, rs1, rs2, imm),
        Instr::Blt { rs1, rs2, imm } => branch(funct3::BLT, rs1, rs2, imm),
        Instr::Bge { rs1, rs2, imm } => branch(funct3::BGE, rs1, rs2, imm),
        Instr::Bltu { rs1, rs2, imm } => branch(funct3::BLTU, rs1, rs2, imm),
        Instr::Bgeu { rs1, rs2, imm } => branch(funct3::BGEU, rs1, rs2, imm),
        Instr::Lb { rd, rs1, imm } => immediate(opcode::LOAD, funct3::LB, rd, rs1, imm),
        Instr::Lh { rd, rs1, imm } => immediate(opcode::LOAD, funct3::LH, rd, rs1, imm),
        Instr::Lw { rd, rs1, imm } => immediate(opcode::LOAD, funct3::LW, rd, rs1, imm),
        Instr::Lbu { rd, rs1, imm } => immediate(opcode::LOAD, funct3::LBU, rd, rs1, imm),
        Instr::Lhu { rd, rs1, imm } => immediate(opcode::LOAD, funct3::LHU, rd, rs1, imm),
        Instr::Sb { rs1, rs2, imm } => store(funct3::SB, rs1, rs2, imm),
        Instr::Sh { rs1, rs2, imm } => store(funct3::SH, rs1, rs2, imm),
        Instr::Sw { rs1, rs2, imm } => store(funct3::SW, rs1, rs2, imm),
        Instr::Addi { rd, rs1, imm } => immediate(opcode::OP_IMM, funct3::ADD, rd, rs1, imm),
        Instr::Slti { rd, rs1, imm } => immediate(opcode::OP_IMM, funct3::SLT, rd, rs1, imm),
        Instr::Sltiu { rd, rs1, imm } => immediate(opcode::OP_IMM, funct3::SLTU, rd, rs1, imm),
        Instr::Xori { rd, rs1, imm } => immediate(opcode::OP_IMM, funct3::XOR, rd, rs1, imm),
        Instr::Ori { rd, rs1, imm } => immediate(opcode::OP_IMM, funct3::OR, rd, rs1, imm),
        Instr::Andi { rd, rs1, imm } => immediate(opcode::OP_IMM, funct3::AND, rd, rs1, imm),
        Instr::Slli { rd, rs1, imm } => register(
            opcode::OP_IMM,
            funct3::SLL,
            funct7::BASE,
            rd,
            rs1,
            imm as u8,
        ),
        Instr::Srli { rd, rs1, imm } => register(
            opcode::OP_IMM,
            funct3::SRL,
            funct7::BASE,
            rd,
            rs1,
            imm as u8,
        ),
        Instr::Srai { rd, rs1, imm } => register(
            opcode::OP_IMM,
            funct3::SRL,
            funct7::ALTERNATE,
            rd,
            rs1,
            imm as u8,
        ),
        Instr::Add { rd, rs1, rs2 } => register(
            opcode::OP,
            funct3::ADD,
            funct7::BASE,
            rd,
            rs1,
            rs2,
        ),
        Instr::Sub { rd, rs1, rs2 } => register(
            opcode::OP,
            funct3::ADD,
            funct7::ALTERNATE,
            rd,
            rs1,
            rs2,
        ),
        Instr::Sll { rd, rs1, rs2 } => register(
            opcode::OP,
            funct3::SLL,
            funct7::BASE,
            rd,
            rs1,
            rs2,
        ),
        Instr::Slt { rd, rs1, rs2 } => register(
            opcode::OP,
            funct3::SLT,
            funct7::BASE,
            rd,
            rs1,
            rs2,
        ),
        Instr::Sltu { rd, rs1, rs2 } => register(
            opcode::OP,
            funct3::SLTU,
            funct7::BASE,
            rd,
            rs1,
            rs2,
        ),
        Instr::Xor { rd, rs1, rs2 } => register(
            opcode::OP,
            funct3::XOR,
            funct7::BASE,
            rd,
            rs1,
            rs2,
        ),
        Instr::Srl { rd, rs1, rs2 } => register(
            opcode::OP,
            funct3::SRL,
            funct7::BASE,
            rd,
            rs1,
            rs2,
        ),
        Instr::Sra { rd, rs1, rs2 } => register(
            opcode::OP,
            funct3::SRL,
            funct7::ALTERNATE,
            rd,
            rs1,
            rs2,
        ),
        Instr::Or { rd, rs1, rs2 } => register(opcode::OP, funct3::OR, funct7::BASE, rd, rs1, rs2),
        Instr::And { rd, rs1, rs2 } => register(
            opcode::OP,
            funct3::AND,
            funct7::BASE,
            rd,
            rs1,
            rs2,
        ),
        Instr::Mul { rd, rs1, rs2 } => register(
            opcode::OP,
            funct3::MUL,
            funct7::MULDIV,
            rd,
            rs1,
            rs2,
        ),
        Instr::Mulh { rd, rs1, rs2 } => register(
            opcode::OP,
            funct3::MULH,
            funct7::MULDIV,
            rd,
            rs1,
            rs2,
        ),
        Instr::Mulhsu { rd, rs1, rs2 } => register(
            opcode::OP,
            funct3::MULHSU,
            funct7::MULDIV,
            rd,
            rs1,
            rs2,
        ),
        Instr::Mulhu { rd, rs1, rs2 } => register(
            opcode::OP,
            funct3::MULHU,
            funct7::MULDIV,
            rd,
            rs1,
            rs2,
        ),
        Instr::Div { rd, rs1, rs2 } => register(
            opcode::OP,
            funct3::DIV,
            funct7::MULDIV,
            rd,
            rs1,
            rs2,
        ),
        Instr::Divu { rd, rs1, rs2 } => register(
            opcode::OP,
            funct3::DIVU,
            funct7::MULDIV,
            rd,
            rs1,
            rs2,
        ),
        Instr::Rem { rd, rs1, rs2 } => register(
            opcode::OP,
            funct3::REM,
            funct7::MULDIV,
            rd,
            rs1,
            rs2,
        ),
        Instr::Remu { rd, rs1, rs2 } => register(
            opcode::OP,
            funct3::REMU,
            funct7::MULDIV,
            rd,
            rs1,
            rs2,
        ),
        Instr::Fence { rd, rs1, imm } => immediate(opcode::MISC_MEM, funct3::FENCE, rd, rs1, imm),
        Instr::Ecall => immediate(
            opcode::SYSTEM,
            funct3::PRIV,
            ZERO,
            ZERO,
            funct12::ECALL as i32,
        ),
        Instr::Ebreak => immediate(
            opcode::SYSTEM,
            funct3::PRIV,
            ZERO,
            ZERO,
            funct12::EBREAK as i32,
        ),
    }
}

/// The low 12 bits of an immediate in two's complement.
fn low_12_bits(imm: i32) -> u32
    requires { HasBits immediate_bits imm }
    ensures value { result ≡ bits immediate_bits imm }
    ensures bound { result < 2 ^ immediate_bits }
{
    imm.cast_unsigned() & 0xfff
}

/// The R format.
fn register(opcode: u8, funct3: u8, funct7: u8, rd: u8, rs1: u8, rs2: u8) -> Fields
    ensures { result ≡ register_form opcode funct3 funct7 rd rs1 rs2 }
{
    Fields {
        opcode,
        rd,
        funct3,
        rs1,
        rs2,
        funct7,
    }
}

/// The I format.
fn immediate(opcode: u8, funct3: u8, rd: u8, rs1: u8, imm: i32) -> Fields
    requires { HasBits immediate_bits imm }
    ensures form { result ≡ immediate_form opcode funct3 rd rs1 (bits immediate_bits imm) }
    ensures rs2 { result.rs2 < 2 ^ 5 }
    ensures funct7 { result.funct7 < 2 ^ 7 }
{
    let bits = low_12_bits(imm);
    Fields {
        opcode,
        rd,
        funct3,
        rs1,
        rs2: (bits & 0x1f) as u8,
        funct7: (bits >> 5) as u8,
    }
}

/// The S format, of a store.
fn store(funct3: u8, rs1: u8, rs2: u8, imm: i32) -> Fields
    requires { HasBits immediate_bits imm }
    ensures form { result ≡ store_form opcode.store funct3 rs1 rs2 (bits immediate_bits imm) }
    ensures rd { result.rd < 2 ^ 5 }
    ensures funct7 { result.funct7 < 2 ^ 7 }
{
    let bits = low_12_bits(imm);
    Fields {
        opcode: opcode::STORE,
        rd: (bits & 0x1f) as u8,
        funct3,
        rs1,
        rs2,
        funct7: (bits >> 5) as u8,
    }
}

/// The B format, of a conditional branch.
fn branch(funct3: u8, rs1: u8, rs2: u8, imm: i32) -> Fields
    requires fits { HasBits branch_bits imm }
    requires even { IsEven imm }
    ensures form { result ≡ branch_form opcode.branch funct3 rs1 rs2 (bits branch_bits imm) }
    ensures rd { result.rd < 2 ^ 5 }
    ensures funct7 { result.funct7 < 2 ^ 7 }
{
    let bits = imm.cast_unsigned() & 0x1fff;
    Fields {
        opcode: opcode::BRANCH,
        rd: ((bits >> 1 & 0xf) << 1 | bits >> 11 & 1) as u8,
        funct3,
        rs1,
        rs2,
        funct7: (bits >> 12 << 6 | bits >> 5 & 0x3f) as u8,
    }
}

/// The U format.
fn upper(opcode: u8, rd: u8, imm: i32) -> Fields
    requires { HasUnsignedBits upper_bits imm }
    ensures form { result ≡ upper_form opcode rd (bits upper_bits imm) }
    ensures funct3 { result.funct3 < 2 ^ 3 }
    ensures rs1 { result.rs1 < 2 ^ 5 }
    ensures rs2 { result.rs2 < 2 ^ 5 }
    ensures funct7 { result.funct7 < 2 ^ 7 }
{
    let bits = imm as u32;
    Fields {
        opcode,
        rd,
        funct3: (bits & 7) as u8,
        rs1: (bits >> 3 & 0x1f) as u8,
        rs2: (bits >> 8 & 0x1f) as u8,
        funct7: (bits >> 13) as u8,
    }
}

/// The J format, of JAL.
fn jump(rd: u8, imm: i32) -> Fields
    requires fits { HasBits jump_bits imm }
    requires even { IsEven imm }
    ensures form { result ≡ jump_form opcode.jal rd (bits jump_bits imm) }
    ensures funct3 { result.funct3 < 2 ^ 3 }
    ensures rs1 { result.rs1 < 2 ^ 5 }
    ensures rs2 { result.rs2 < 2 ^ 5 }
    ensures funct7 { result.funct7 < 2 ^ 7 }
{
    let bits = imm.cast_unsigned() & 0x1f_ffff;
    Fields {
        opcode: opcode::JAL,
        rd,
        funct3: (bits >> 12 & 7) as u8,
        rs1: (bits >> 15 & 0x1f) as u8,
        rs2: ((bits >> 1 & 0xf) << 1 | bits >> 11 & 1) as u8,
        funct7: (bits >> 20 << 6 | bits >> 5 & 0x3f) as u8,
    }
}
