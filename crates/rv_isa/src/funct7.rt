//! The field funct7 of the opcodes OP and OP-IMM: RISC-V Instruction Set Manual, volume I, "RV32/64G Instruction Set
//! Listings".

// each instruction but those below
pub const BASE: u8 = 0;

// SUB, SRA and SRAI
pub const ALTERNATE: u8 = 0x20;

// the M extension
pub const MULDIV: u8 = 1;
