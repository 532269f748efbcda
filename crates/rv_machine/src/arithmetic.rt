//! Arithmetic on registers: RISC-V Instruction Set Manual, volume I, chapters "RV32I" and "M".

ghost use Rattle.std.specs.Prelude.{◌≡◌, ◌*ℤ◌};
ghost use Rattle.rv_isa.specs.Words.{HasUnsignedBits, upper_bits};
ghost use Rattle.rv_machine.specs.Arithmetic.{
  difference,
  less,
  less_unsigned,
  product,
  quotient,
  quotient_unsigned,
  remainder,
  remainder_unsigned,
  shift_left,
  shift_right,
  shift_right_signed,
  signed_byte,
  signed_half,
  sum,
  upper_half,
  upper_product,
  upper_product_mixed,
  upper_product_unsigned,
  upper_value,
};

/// The value of an immediate of LUI and AUIPC.
pub fn upper_value(imm: i32) -> u32
    requires { HasUnsignedBits upper_bits imm }
    ensures { result ≡ upper_value imm }
{
    imm.cast_unsigned() << 12
}

#[tactic(auto, unfolding(crate::specs::Arithmetic::sum))]
pub fn sum(a: u32, b: u32) -> u32
    ensures { result ≡ sum a b }
{
    a.wrapping_add(b)
}

#[tactic(auto, unfolding(crate::specs::Arithmetic::difference))]
pub fn difference(a: u32, b: u32) -> u32
    ensures { result ≡ difference a b }
{
    a.wrapping_sub(b)
}

/// SLT and SLTI: 1 where a is below b as signed numbers, otherwise 0.
#[tactic(auto, unfolding(crate::specs::Arithmetic::less))]
pub fn less(a: u32, b: u32) -> u32
    ensures { result ≡ less a b }
{
    if a.cast_signed() < b.cast_signed() {
        1
    } else {
        0
    }
}

/// SLTU and SLTIU: 1 where a is below b, otherwise 0.
#[tactic(auto, unfolding(crate::specs::Arithmetic::less_unsigned))]
pub fn less_unsigned(a: u32, b: u32) -> u32
    ensures { result ≡ less_unsigned a b }
{
    if a < b { 1 } else { 0 }
}

#[tactic(auto, unfolding(crate::specs::Arithmetic::shift_left))]
pub fn shift_left(a: u32, n: u32) -> u32
    ensures { result ≡ shift_left a n }
{
    a << (n % u32::BITS)
}

#[tactic(auto, unfolding(crate::specs::Arithmetic::shift_right))]
pub fn shift_right(a: u32, n: u32) -> u32
    ensures { result ≡ shift_right a n }
{
    a >> (n % u32::BITS)
}

/// SRA and SRAI.
#[tactic(auto, unfolding(crate::specs::Arithmetic::shift_right_signed))]
pub fn shift_right_signed(a: u32, n: u32) -> u32
    ensures { result ≡ shift_right_signed a n }
{
    (a.cast_signed() >> (n % u32::BITS)).cast_unsigned()
}

#[tactic(auto, unfolding(crate::specs::Arithmetic::product))]
pub fn product(a: u32, b: u32) -> u32
    ensures { result ≡ product a b }
{
    a.wrapping_mul(b)
}

/// MULH.
#[tactic(auto, unfolding(crate::specs::Arithmetic::upper_product))]
pub fn upper_product(a: u32, b: u32) -> u32
    ensures { result ≡ upper_product a b }
{
    upper_half(signed_product(a.cast_signed(), b.cast_signed()))
}

/// MULHSU: a is signed and b is not.
#[tactic(auto, unfolding(crate::specs::Arithmetic::upper_product_mixed))]
pub fn upper_product_mixed(a: u32, b: u32) -> u32
    ensures { result ≡ upper_product_mixed a b }
{
    upper_half(a.cast_signed() as i64 * b as i64)
}

/// The whole product.
fn signed_product(a: i32, b: i32) -> i64
    ensures { result ≡ a *ℤ b }
{
    a as i64 * b as i64
}

/// Bits 32 to 63.
fn upper_half(product: i64) -> u32
    ensures { result ≡ upper_half product }
{
    ((product >> u32::BITS) as i32).cast_unsigned()
}

/// MULHU.
#[tactic(auto, unfolding(crate::specs::Arithmetic::upper_product_unsigned))]
pub fn upper_product_unsigned(a: u32, b: u32) -> u32
    ensures { result ≡ upper_product_unsigned a b }
{
    (a as u64 * b as u64 >> u32::BITS) as u32
}

/// DIV.
#[tactic(auto, unfolding(crate::specs::Arithmetic::quotient))]
pub fn quotient(a: u32, b: u32) -> u32
    ensures { result ≡ quotient a b }
{
    if b == 0 {
        return u32::MAX;
    }
    a.cast_signed()
        .wrapping_div(b.cast_signed())
        .cast_unsigned()
}

/// DIVU.
#[tactic(auto, unfolding(crate::specs::Arithmetic::quotient_unsigned))]
pub fn quotient_unsigned(a: u32, b: u32) -> u32
    ensures { result ≡ quotient_unsigned a b }
{
    if b == 0 { u32::MAX } else { a / b }
}

/// REM.
#[tactic(auto, unfolding(crate::specs::Arithmetic::remainder))]
pub fn remainder(a: u32, b: u32) -> u32
    ensures { result ≡ remainder a b }
{
    if b == 0 {
        a
    } else {
        a.cast_signed()
            .wrapping_rem(b.cast_signed())
            .cast_unsigned()
    }
}

/// REMU.
#[tactic(auto, unfolding(crate::specs::Arithmetic::remainder_unsigned))]
pub fn remainder_unsigned(a: u32, b: u32) -> u32
    ensures { result ≡ remainder_unsigned a b }
{
    if b == 0 { a } else { a % b }
}

/// The value of a byte that LB loads.
#[tactic(auto, unfolding(crate::specs::Arithmetic::signed_byte))]
pub fn signed_byte(n: u8) -> u32
    ensures { result ≡ signed_byte n }
{
    (n.cast_signed() as i32).cast_unsigned()
}

/// The value of a halfword that LH loads.
#[tactic(auto, unfolding(crate::specs::Arithmetic::signed_half))]
pub fn signed_half(n: u16) -> u32
    ensures { result ≡ signed_half n }
{
    (n.cast_signed() as i32).cast_unsigned()
}
