//! What stands in the place of an I format's immediate in ECALL and EBREAK: RISC-V Instruction Set Manual, volume I,
//! "Environment Call and Breakpoints".

pub const ECALL: u32 = 0;

pub const EBREAK: u32 = 1;
