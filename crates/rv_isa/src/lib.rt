//! Instructions of RV32IM and their words, one to one.
//!
//! `Spells i w` of `specs/Words.antt` says that `w` is the word of the instruction `i`: RISC-V Instruction Set Manual,
//! volume I, chapters "RV32I", "M" and "RV32/64G Instruction Set Listings". `is_taken` of `specs/Branches.antt` says when a
//! conditional branch is taken, and `registers` has the registers by their names. No call takes memory.
#![tactic(auto)]

mod decoding;
mod encoding;
mod fields;
mod funct12;
mod funct3;
mod funct7;
mod immediates;
mod instruction;
mod laws;
mod opcode;
pub mod registers;

pub use decoding::decode;
pub use encoding::encode;
pub use instruction::Instr;
pub use laws::one_to_one;
