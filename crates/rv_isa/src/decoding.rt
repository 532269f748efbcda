//! From a word to its instruction.

ghost use Rattle.std.specs.Prelude.{◌≡◌, ◌⊎◌, IfNone, IfSome};
ghost use Rattle.rv_isa.specs.function.Reading.{
  base_operation_of,
  branch_of,
  fence_of,
  Has,
  instr_of,
  jump_register_of,
  load_of,
  multiplication_of,
  operation_immediate_of,
  operation_of,
  other_operation_of,
  shift_of,
  store_of,
  system_of,
};
ghost use Rattle.rv_isa.specs.Funct3 as funct3;
ghost use Rattle.rv_isa.specs.Funct7 as funct7;
ghost use Rattle.rv_isa.specs.Opcode as opcode;
ghost use Rattle.rv_isa.specs.Words.{InBits, Spells};
ghost use Rattle.rv_isa.specs.declared.instruction.Instr.{Instr};

use crate::fields::{self, Fields};
use crate::immediates::{
    branch_immediate, immediate, jump_immediate, store_immediate, upper_immediate,
};
use crate::instruction::Instr;
use crate::registers::ZERO;
use crate::{funct3, funct7, funct12, opcode};

/// The instruction of a word, and `None` exactly where no instruction of RV32I or of the M extension has that word. FENCE.I,
/// the CSR instructions and every other extension have none. RISC-V Instruction Set Manual, volume I, "RV32/64G Instruction
/// Set Listings".
pub fn decode(w: u32) -> Option<Instr>
    ensures found { IfSome result (λ i. Spells i w) }
    ensures only { (i : Instr) → Spells i w → result ≡ Some i }
    ensures none { IfNone result ((i : Instr) → Spells i w → ⊥) }
{
    read(fields::split(w))
}

/// The instruction that has these fields.
#[tactic(auto, unfolding(crate::specs::function::Reading::instr_of))]
fn read(f: Fields) -> Option<Instr>
    requires { InBits f }
    ensures exact { result ≡ instr_of f }
    ensures found { IfSome result (λ i. Has f i) }
{
    match f.opcode {
        opcode::LUI => Some(Instr::Lui {
            rd: f.rd,
            imm: upper_immediate(f),
        }),
        opcode::AUIPC => Some(Instr::Auipc {
            rd: f.rd,
            imm: upper_immediate(f),
        }),
        opcode::JAL => Some(Instr::Jal {
            rd: f.rd,
            imm: jump_immediate(f),
        }),
        opcode::JALR => jump_register(f),
        opcode::BRANCH => branch(f),
        opcode::LOAD => load(f),
        opcode::STORE => store(f),
        opcode::OP_IMM => operation_immediate(f),
        opcode::OP => operation(f),
        opcode::MISC_MEM => fence(f),
        opcode::SYSTEM => system(f),
        _ => None,
    }
}

/// Opcode JALR.
#[tactic(auto, unfolding(crate::specs::function::Reading::jump_register_of))]
fn jump_register(f: Fields) -> Option<Instr>
    requires bits { InBits f }
    requires opcode { f.opcode ≡ opcode.jalr }
    ensures exact { result ≡ jump_register_of f }
    ensures found { IfSome result (λ i. Has f i) }
{
    match f.funct3 {
        funct3::JALR => Some(Instr::Jalr {
            rd: f.rd,
            rs1: f.rs1,
            imm: immediate(f),
        }),
        _ => None,
    }
}

/// Opcode BRANCH: the conditional branches.
#[tactic(auto, unfolding(crate::specs::function::Reading::branch_of))]
fn branch(f: Fields) -> Option<Instr>
    requires bits { InBits f }
    requires opcode { f.opcode ≡ opcode.branch }
    ensures exact { result ≡ branch_of f }
    ensures found { IfSome result (λ i. Has f i) }
{
    let imm = branch_immediate(f);
    match f.funct3 {
        funct3::BEQ => Some(Instr::Beq {
            rs1: f.rs1,
            rs2: f.rs2,
            imm,
        }),
        funct3::BNE => Some(Instr::Bne {
            rs1: f.rs1,
            rs2: f.rs2,
            imm,
        }),
        funct3::BLT => Some(Instr::Blt {
            rs1: f.rs1,
            rs2: f.rs2,
            imm,
        }),
        funct3::BGE => Some(Instr::Bge {
            rs1: f.rs1,
            rs2: f.rs2,
            imm,
        }),
        funct3::BLTU => Some(Instr::Bltu {
            rs1: f.rs1,
            rs2: f.rs2,
            imm,
        }),
        funct3::BGEU => Some(Instr::Bgeu {
            rs1: f.rs1,
            rs2: f.rs2,
            imm,
        }),
        _ => None,
    }
}

/// Opcode LOAD: the loads.
#[tactic(auto, unfolding(crate::specs::function::Reading::load_of))]
fn load(f: Fields) -> Option<Instr>
    requires bits { InBits f }
    requires opcode { f.opcode ≡ opcode.load }
    ensures exact { result ≡ load_of f }
    ensures found { IfSome result (λ i. Has f i) }
{
    let imm = immediate(f);
    match f.funct3 {
        funct3::LB => Some(Instr::Lb {
            rd: f.rd,
            rs1: f.rs1,
            imm,
        }),
        funct3::LH => Some(Instr::Lh {
            rd: f.rd,
            rs1: f.rs1,
            imm,
        }),
        funct3::LW => Some(Instr::Lw {
            rd: f.rd,
            rs1: f.rs1,
            imm,
        }),
        funct3::LBU => Some(Instr::Lbu {
            rd: f.rd,
            rs1: f.rs1,
            imm,
        }),
        funct3::LHU => Some(Instr::Lhu {
            rd: f.rd,
            rs1: f.rs1,
            imm,
        }),
        _ => None,
    }
}

/// Opcode STORE: the stores.
#[tactic(auto, unfolding(crate::specs::function::Reading::store_of))]
fn store(f: Fields) -> Option<Instr>
    requires bits { InBits f }
    requires opcode { f.opcode ≡ opcode.store }
    ensures exact { result ≡ store_of f }
    ensures found { IfSome result (λ i. Has f i) }
{
    let imm = store_immediate(f);
    match f.funct3 {
        funct3::SB => Some(Instr::Sb {
            rs1: f.rs1,
            rs2: f.rs2,
            imm,
        }),
        funct3::SH => Some(Instr::Sh {
            rs1: f.rs1,
            rs2: f.rs2,
            imm,
        }),
        funct3::SW => Some(Instr::Sw {
            rs1: f.rs1,
            rs2: f.rs2,
            imm,
        }),
        _ => None,
    }
}

/// Opcode OP-IMM: the operations on a register and an immediate.
#[tactic(auto, unfolding(crate::specs::function::Reading::operation_immediate_of))]
fn operation_immediate(f: Fields) -> Option<Instr>
    requires bits { InBits f }
    requires opcode { f.opcode ≡ opcode.op_imm }
    ensures exact { result ≡ operation_immediate_of f }
    ensures found { IfSome result (λ i. Has f i) }
{
    let imm = immediate(f);
    match f.funct3 {
        funct3::ADD => Some(Instr::Addi {
            rd: f.rd,
            rs1: f.rs1,
            imm,
        }),
        funct3::SLT => Some(Instr::Slti {
            rd: f.rd,
            rs1: f.rs1,
            imm,
        }),
        funct3::SLTU => Some(Instr::Sltiu {
            rd: f.rd,
            rs1: f.rs1,
            imm,
        }),
        funct3::XOR => Some(Instr::Xori {
            rd: f.rd,
            rs1: f.rs1,
            imm,
        }),
        funct3::OR => Some(Instr::Ori {
            rd: f.rd,
            rs1: f.rs1,
            imm,
        }),
        funct3::AND => Some(Instr::Andi {
            rd: f.rd,
            rs1: f.rs1,
            imm,
        }),
        _ => shift(f),
    }
}

/// Opcode OP-IMM: the shifts by an immediate.
#[tactic(auto, unfolding(crate::specs::function::Reading::shift_of))]
fn shift(f: Fields) -> Option<Instr>
    requires bits { InBits f }
    requires opcode { f.opcode ≡ opcode.op_imm }
    requires funct3 { f.funct3 ≡ funct3.sll ⊎ f.funct3 ≡ funct3.srl }
    ensures exact { result ≡ shift_of f }
    ensures found { IfSome result (λ i. Has f i) }
{
    let imm = f.rs2 as i32;
    match (f.funct3, f.funct7) {
        (funct3::SLL, funct7::BASE) => Some(Instr::Slli {
            rd: f.rd,
            rs1: f.rs1,
            imm,
        }),
        (funct3::SRL, funct7::BASE) => Some(Instr::Srli {
            rd: f.rd,
            rs1: f.rs1,
            imm,
        }),
        (funct3::SRL, funct7::ALTERNATE) => Some(Instr::Srai {
            rd: f.rd,
            rs1: f.rs1,
            imm,
        }),
        _ => None,
    }
}

/// Opcode OP: the operations on two registers.
#[tactic(auto, unfolding(crate::specs::function::Reading::operation_of))]
fn operation(f: Fields) -> Option<Instr>
    requires bits { InBits f }
    requires opcode { f.opcode ≡ opcode.op }
    ensures exact { result ≡ operation_of f }
    ensures found { IfSome result (λ i. Has f i) }
{
    match f.funct7 {
        funct7::BASE => base_operation(f),
        funct7::ALTERNATE => other_operation(f),
        funct7::MULDIV => multiplication(f),
        _ => None,
    }
}

/// Opcode OP: the operations of RV32I but SUB and SRA.
#[tactic(auto, unfolding(crate::specs::function::Reading::base_operation_of))]
fn base_operation(f: Fields) -> Option<Instr>
    requires bits { InBits f }
    requires opcode { f.opcode ≡ opcode.op }
    requires funct7 { f.funct7 ≡ funct7.base }
    ensures exact { result ≡ base_operation_of f }
    ensures found { IfSome result (λ i. Has f i) }
{
    let Fields { rd, rs1, rs2, .. } = f;
    Some(match f.funct3 {
        funct3::ADD => Instr::Add { rd, rs1, rs2 },
        funct3::SLL => Instr::Sll { rd, rs1, rs2 },
        funct3::SLT => Instr::Slt { rd, rs1, rs2 },
        funct3::SLTU => Instr::Sltu { rd, rs1, rs2 },
        funct3::XOR => Instr::Xor { rd, rs1, rs2 },
        funct3::SRL => Instr::Srl { rd, rs1, rs2 },
        funct3::OR => Instr::Or { rd, rs1, rs2 },
        _ => Instr::And { rd, rs1, rs2 },
    })
}

/// Opcode OP: SUB and SRA.
#[tactic(auto, unfolding(crate::specs::function::Reading::other_operation_of))]
fn other_operation(f: Fields) -> Option<Instr>
    requires bits { InBits f }
    requires opcode { f.opcode ≡ opcode.op }
    requires funct7 { f.funct7 ≡ funct7.alternate }
    ensures exact { result ≡ other_operation_of f }
    ensures found { IfSome result (λ i. Has f i) }
{
    match f.funct3 {
        funct3::ADD => Some(Instr::Sub {
            rd: f.rd,
            rs1: f.rs1,
            rs2: f.rs2,
        }),
        funct3::SRL => Some(Instr::Sra {
            rd: f.rd,
            rs1: f.rs1,
            rs2: f.rs2,
        }),
        _ => None,
    }
}

/// Opcode OP: the M extension.
#[tactic(auto, unfolding(crate::specs::function::Reading::multiplication_of))]
fn multiplication(f: Fields) -> Option<Instr>
    requires bits { InBits f }
    requires opcode { f.opcode ≡ opcode.op }
    requires funct7 { f.funct7 ≡ funct7.muldiv }
    ensures exact { result ≡ multiplication_of f }
    ensures found { IfSome result (λ i. Has f i) }
{
    let Fields { rd, rs1, rs2, .. } = f;
    Some(match f.funct3 {
        funct3::MUL => Instr::Mul { rd, rs1, rs2 },
        funct3::MULH => Instr::Mulh { rd, rs1, rs2 },
        funct3::MULHSU => Instr::Mulhsu { rd, rs1, rs2 },
        funct3::MULHU => Instr::Mulhu { rd, rs1, rs2 },
        funct3::DIV => Instr::Div { rd, rs1, rs2 },
        funct3::DIVU => Instr::Divu { rd, rs1, rs2 },
        funct3::REM => Instr::Rem { rd, rs1, rs2 },
        _ => Instr::Remu { rd, rs1, rs2 },
    })
}

/// Opcode MISC-MEM: FENCE, with all its other fields kept.
#[tactic(auto, unfolding(crate::specs::function::Reading::fence_of))]
fn fence(f: Fields) -> Option<Instr>
    requires bits { InBits f }
    requires opcode { f.opcode ≡ opcode.misc_mem }
    ensures exact { result ≡ fence_of f }
    ensures found { IfSome result (λ i. Has f i) }
{
    match f.funct3 {
        funct3::FENCE => Some(Instr::Fence {
            rd: f.rd,
            rs1: f.rs1,
            imm: immediate(f),
        }),
        _ => None,
    }
}

/// Opcode SYSTEM: ECALL and EBREAK.
#[tactic(auto, unfolding(crate::specs::function::Reading::system_of))]
fn system(f: Fields) -> Option<Instr>
    requires bits { InBits f }
    requires opcode { f.opcode ≡ opcode.system }
    ensures exact { result ≡ system_of f }
    ensures found { IfSome result (λ i. Has f i) }
{
    if f.funct3 != funct3::PRIV || f.rd != ZERO || f.rs1 != ZERO {
        return None;
    }
    match f.rs2 as u32 | (f.funct7 as u32) << 5 {
        funct12::ECALL => Some(Instr::Ecall),
        funct12::EBREAK => Some(Instr::Ebreak),
        _ => None,
    }
}
