//! A machine of RV32IM that takes one step at a time: RISC-V Instruction Set Manual, volume I, chapters "RV32I" and "M".
//!
//! `exec` of `specs/Machine.antt` says what each instruction does. No call takes memory.
#![tactic(auto)]

mod answers;
mod arithmetic;
mod hart;
mod laws;
mod memory;

pub use answers::{FaultKind, Step};
pub use hart::Machine;
