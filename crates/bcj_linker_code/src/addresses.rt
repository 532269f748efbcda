//! Addresses in two parts, as LUI and the instruction behind it hold them (RISC-V Instruction Set Manual, volume I, "Integer Computational Instructions").

ghost use Rattle.std.specs.Prelude.{◌≡◌, ◌+◌, ◌<◌, ◌^◌, pos, IfOk};
ghost use Rattle.rv_isa.specs.Words.{HasBits, immediate_bits, HasUnsignedBits, upper_bits};
ghost use Rattle.rv_steps.specs.Arithmetic as arithmetic;

use std::alloc::AllocError;

/// What the lowest of the upper 20 bits counts, and how many values the low 12 bits have.
pub const UPPER: u32 = 1 << 12;

/// Half of it, by which the upper part is rounded, since the lower part is a signed number.
const HALF: u32 = 1 << 11;

/// The upper 20 bits of an address, rounded for the low ones.
pub fn upper_part(address: u32) -> u32
    ensures value { result ≡ arithmetic.upper_part address }
    ensures bits { result < 2 ^ upper_bits }
{
    address.wrapping_add(HALF) / UPPER
}

/// The immediate of a LUI for an address.
pub fn upper_immediate(address: u32) -> i32
    ensures value { result ≡ pos (arithmetic.upper_part address) }
    ensures bits { HasUnsignedBits upper_bits result }
{
    upper_part(address) as i32
}

/// The immediate of the instruction behind it, which adds what is left.
pub fn lower_immediate(address: u32) -> i32
    ensures value { result ≡ arithmetic.lower_part address }
    ensures bits { HasBits immediate_bits result }
{
    let low = address % UPPER;
    if low < HALF {
        low as i32
    } else {
        low as i32 - UPPER as i32
    }
}

/// A sum of addresses, numbers or bits. One past 32 bits fits no memory.
pub fn sum(first: u32, second: u32) -> Result<u32, AllocError>
    ensures { IfOk result (λ sum. sum ≡ first + second) }
{
    first.checked_add(second).ok_or(AllocError)
}
