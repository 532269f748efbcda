//! The immediates of a word, from its fields.

ghost use Rattle.std.specs.Prelude.{◌≡◌, ◌^◌, ◌<◌};
ghost use Rattle.rv_isa.specs.function.Reading.{
  branch_immediate_of,
  immediate_of,
  jump_immediate_of,
  store_immediate_of,
  upper_immediate_of,
};
ghost use Rattle.rv_isa.specs.Words.{branch_bits, HasBits, HasUnsignedBits, immediate_bits, InBits, IsEven, jump_bits, signed, upper_bits};

use crate::fields::Fields;

/// The immediate of the I format.
pub fn immediate(f: Fields) -> i32
    requires { InBits f }
    ensures value { result ≡ immediate_of f }
    ensures fits { HasBits immediate_bits result }
{
    signed_12_bits(f.rs2 as u32 | (f.funct7 as u32) << 5)
}

/// The immediate of the S format.
pub fn store_immediate(f: Fields) -> i32
    requires { InBits f }
    ensures value { result ≡ store_immediate_of f }
    ensures fits { HasBits immediate_bits result }
{
    signed_12_bits(f.rd as u32 | (f.funct7 as u32) << 5)
}

/// The immediate of the B format.
pub fn branch_immediate(f: Fields) -> i32
    requires { InBits f }
    ensures value { result ≡ branch_immediate_of f }
    ensures fits { HasBits branch_bits result }
    ensures even { IsEven result }
{
    let rd = f.rd as u32;
    let funct7 = f.funct7 as u32;
    let bits = (rd >> 1) << 1 | (funct7 & 0x3f) << 5 | (rd & 1) << 11 | (funct7 >> 6) << 12;
    if bits < 1 << 12 {
        bits as i32
    } else {
        bits as i32 - (1 << 13)
    }
}

/// The immediate of the U format.
pub fn upper_immediate(f: Fields) -> i32
    requires { InBits f }
    ensures value { result ≡ upper_immediate_of f }
    ensures fits { HasUnsignedBits upper_bits result }
{
    let bits = f.funct3 as u32
        | (f.rs1 as u32) << 3
        | (f.rs2 as u32) << 8
        | (f.funct7 as u32) << 13;
    bits as i32
}

/// The immediate of the J format.
pub fn jump_immediate(f: Fields) -> i32
    requires { InBits f }
    ensures value { result ≡ jump_immediate_of f }
    ensures fits { HasBits jump_bits result }
    ensures even { IsEven result }
{
    let rs2 = f.rs2 as u32;
    let funct7 = f.funct7 as u32;
    let low = ((rs2 >> 1) << 1) + ((funct7 & 0x3f) << 5) + ((rs2 & 1) << 11);
    let high = ((f.funct3 as u32) << 12) + ((f.rs1 as u32) << 15) + ((funct7 >> 6) << 20);
    let bits = low + high;
    if bits < 1 << 20 {
        bits as i32
    } else {
        bits as i32 - (1 << 21)
    }
}

/// The number whose 12 bits in two's complement are these.
fn signed_12_bits(bits: u32) -> i32
    requires { bits < 2 ^ immediate_bits }
    ensures value { result ≡ signed immediate_bits bits }
    ensures fits { HasBits immediate_bits result }
{
    if bits < 1 << 11 {
        bits as i32
    } else {
        bits as i32 - (1 << 12)
    }
}
