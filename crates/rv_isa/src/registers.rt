//! The integer registers of RV32I by the names of the RISC-V psABI, "Integer Register Convention".

/// x0, which reads zero.
pub const ZERO: u8 = 0;

/// The address to return to.
pub const RA: u8 = 1;

/// The stack pointer.
pub const SP: u8 = 2;

/// A temporary.
pub const T1: u8 = 6;

/// An argument, and the result.
pub const A0: u8 = 10;

/// An argument.
pub const A1: u8 = 11;

/// An argument, and the number of the service of an environment call.
pub const A7: u8 = 17;

/// Saved by who is called.
pub const S10: u8 = 26;

/// Saved by who is called.
pub const S11: u8 = 27;
