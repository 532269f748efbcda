//! The field funct3 by the instruction that it tells from others of its opcode: RISC-V Instruction Set Manual, volume I,
//! "RV32/64G Instruction Set Listings".

// opcode JALR
pub const JALR: u8 = 0;

// opcode BRANCH
pub const BEQ: u8 = 0;

pub const BNE: u8 = 1;

pub const BLT: u8 = 4;

pub const BGE: u8 = 5;

pub const BLTU: u8 = 6;

pub const BGEU: u8 = 7;

// opcode LOAD
pub const LB: u8 = 0;

pub const LH: u8 = 1;

pub const LW: u8 = 2;

pub const LBU: u8 = 4;

pub const LHU: u8 = 5;

// opcode STORE
pub const SB: u8 = 0;

pub const SH: u8 = 1;

pub const SW: u8 = 2;

// opcodes OP-IMM and OP: ADD, SUB and ADDI; SLL and SLLI; SLT and SLTI; SLTU and SLTIU; XOR and XORI; SRL, SRA, SRLI
// and SRAI; OR and ORI; AND and ANDI
pub const ADD: u8 = 0;

pub const SLL: u8 = 1;

pub const SLT: u8 = 2;

pub const SLTU: u8 = 3;

pub const XOR: u8 = 4;

pub const SRL: u8 = 5;

pub const OR: u8 = 6;

pub const AND: u8 = 7;

// opcode OP with the funct7 of the M extension
pub const MUL: u8 = 0;

pub const MULH: u8 = 1;

pub const MULHSU: u8 = 2;

pub const MULHU: u8 = 3;

pub const DIV: u8 = 4;

pub const DIVU: u8 = 5;

pub const REM: u8 = 6;

pub const REMU: u8 = 7;

// opcode MISC-MEM
pub const FENCE: u8 = 0;

// opcode SYSTEM: ECALL and EBREAK
pub const PRIV: u8 = 0;
