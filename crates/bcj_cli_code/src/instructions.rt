//! The instructions that the code is made of.

ghost use Rattle.std.specs.Prelude.{◌≡◌, ◌+◌, ◌-◌, ◌<◌, ◌≤◌, ◌∷◌, ◌++◌, [], length, pos, slice_set, IfOk, OnOk};
ghost use Rattle.rv_isa.specs.Registers.{a0};
ghost use Rattle.bcj_cli_language.specs.Bounds.{max_temporaries};
ghost use Rattle.bcj_cli_code.specs.function.Room.{max_jump};
ghost use Rattle.bcj_cli_code.specs.function.Code.{operation, temporary, place, upper, lower, ahead, back, service, turn, print_code, comparison_code, joined, number_code, save_word, store_word, load_word, skip};

use bcj_cli_language::{Comparison, Operator};
use rv_isa::Instr;
use rv_isa::registers::{A0, A1, A7, S11, SP, ZERO};
use rv_steps::services;
use std::alloc::AllocError;

/// The bytes of a word.
pub const WORD_SIZE: usize = 4;

/// The words of a frame.
pub const FRAME_WORDS: usize = 508;

pub fn put(code: &mut Vec<Instr>, i: Instr) -> Result<(), AllocError>
    ensures { OnOk result (code.new.items ≡ code.old.items ++ i ∷ []) }
{
    code.push(i)?;
    Ok(())
}

/// The upper 20 bits of a number, rounded for `lower_bits`.
fn upper_bits(n: u32) -> i32
    ensures { result ≡ upper n }
{
    (n.wrapping_add(1 << 11) >> 12) as i32
}

/// The low 12 bits of a number, as a signed number.
fn lower_bits(n: u32) -> i32
    ensures { result ≡ lower n }
{
    let low = (n % (1 << 12)) as i32;
    if low < 1 << 11 { low } else { low - (1 << 12) }
}

/// `a0` takes a number.
pub fn put_number(code: &mut Vec<Instr>, n: u32) -> Result<(), AllocError>
    ensures { OnOk result (code.new.items ≡ code.old.items ++ number_code n) }
{
    put(
        code,
        Instr::Lui {
            rd: A0,
            imm: upper_bits(n),
        },
    )?;
    put(
        code,
        Instr::Addi {
            rd: A0,
            rs1: A0,
            imm: lower_bits(n),
        },
    )
}

/// The offset of a temporary.
fn temporary_offset(d: usize) -> i32
    requires { d ≤ max_temporaries + 1 }
    ensures { result ≡ temporary d }
{
    (WORD_SIZE + WORD_SIZE * d) as i32
}

/// The offset of a local.
fn place_offset(i: usize) -> i32
    ensures { result ≡ place i }
{
    (WORD_SIZE * (FRAME_WORDS - 1).saturating_sub(i)) as i32
}

/// `a0` goes to a temporary.
pub fn save(d: usize) -> Instr
    requires { d ≤ max_temporaries + 1 }
    ensures { result ≡ save_word d }
{
    Instr::Sw {
        rs1: SP,
        rs2: A0,
        imm: temporary_offset(d),
    }
}

/// `a0` goes to a local.
pub fn store(i: usize) -> Instr
    ensures { result ≡ store_word i }
{
    Instr::Sw {
        rs1: SP,
        rs2: A0,
        imm: place_offset(i),
    }
}

/// `a0` takes a local's value.
pub fn load(i: usize) -> Instr
    ensures { result ≡ load_word i }
{
    Instr::Lw {
        rd: A0,
        rs1: SP,
        imm: place_offset(i),
    }
}

/// `a0` goes to `a1`, and a temporary to `a0`.
pub fn put_joined(code: &mut Vec<Instr>, d: usize) -> Result<(), AllocError>
    requires { d ≤ max_temporaries + 1 }
    ensures { OnOk result (code.new.items ≡ code.old.items ++ joined d []) }
{
    put(
        code,
        Instr::Addi {
            rd: A1,
            rs1: A0,
            imm: 0,
        },
    )?;
    put(
        code,
        Instr::Lw {
            rd: A0,
            rs1: SP,
            imm: temporary_offset(d),
        },
    )
}

/// `a0` takes the result of an operator on `a0` and `a1`.
pub fn operate(operator: Operator) -> Instr
    ensures { result ≡ operation operator }
{
    match operator {
        Operator::Add => Instr::Add {
            rd: A0,
            rs1: A0,
            rs2: A1,
        },
        Operator::Sub => Instr::Sub {
            rd: A0,
            rs1: A0,
            rs2: A1,
        },
        Operator::Mul => Instr::Mul {
            rd: A0,
            rs1: A0,
            rs2: A1,
        },
    }
}

/// `a0` becomes 1 where the comparison of `a0` and `a1` holds, and 0 otherwise.
pub fn put_comparison(code: &mut Vec<Instr>, comparison: Comparison) -> Result<(), AllocError>
    ensures { OnOk result (code.new.items ≡ code.old.items ++ comparison_code comparison) }
{
    match comparison {
        Comparison::Less => put_less(code, A0, A1),
        Comparison::LessEqual => put_not_less(code, A1, A0),
        Comparison::Greater => put_less(code, A1, A0),
        Comparison::GreaterEqual => put_not_less(code, A0, A1),
        Comparison::Equal => {
            put(
                code,
                Instr::Sub {
                    rd: A0,
                    rs1: A0,
                    rs2: A1,
                },
            )?;
            put(
                code,
                Instr::Sltiu {
                    rd: A0,
                    rs1: A0,
                    imm: 1,
                },
            )
        }
        Comparison::NotEqual => {
            put(
                code,
                Instr::Sub {
                    rd: A0,
                    rs1: A0,
                    rs2: A1,
                },
            )?;
            put(
                code,
                Instr::Sltu {
                    rd: A0,
                    rs1: ZERO,
                    rs2: A0,
                },
            )
        }
    }
}

/// `a0` becomes 1 where one register is less than another.
fn put_less(code: &mut Vec<Instr>, left: u8, right: u8) -> Result<(), AllocError>
    ensures { OnOk result (code.new.items ≡ code.old.items ++ Instr.Slt a0 left right ∷ []) }
{
    put(
        code,
        Instr::Slt {
            rd: A0,
            rs1: left,
            rs2: right,
        },
    )
}

/// `a0` becomes 1 where one register is not less than another.
#[tactic(auto, using(crate::proofs::Rules::code_rules))]
fn put_not_less(code: &mut Vec<Instr>, left: u8, right: u8) -> Result<(), AllocError>
    ensures { OnOk result (code.new.items ≡ code.old.items ++ Instr.Slt a0 left right ∷ Instr.Xori a0 a0 (pos 1) ∷ []) }
{
    put(
        code,
        Instr::Slt {
            rd: A0,
            rs1: left,
            rs2: right,
        },
    )?;
    put(
        code,
        Instr::Xori {
            rd: A0,
            rs1: A0,
            imm: 1,
        },
    )
}

/// A call of the service with this number.
pub fn put_service(code: &mut Vec<Instr>, n: u8) -> Result<(), AllocError>
    ensures { OnOk result (code.new.items ≡ code.old.items ++ service n) }
{
    put(
        code,
        Instr::Addi {
            rd: A7,
            rs1: ZERO,
            imm: n as i32,
        },
    )?;
    put(code, Instr::Ecall)
}

/// A turn is spent, or a service ends the run.
#[tactic(auto, using(crate::proofs::Rules::code_rules), unfolding(crate::specs::function::Code::turn))]
pub fn put_turn(code: &mut Vec<Instr>) -> Result<(), AllocError>
    ensures { OnOk result (code.new.items ≡ code.old.items ++ turn) }
{
    put(
        code,
        Instr::Bne {
            rs1: S11,
            rs2: ZERO,
            imm: 4 * WORD_SIZE as i32,
        },
    )?;
    put(
        code,
        Instr::Addi {
            rd: A0,
            rs1: ZERO,
            imm: 0,
        },
    )?;
    put(
        code,
        Instr::Addi {
            rd: A7,
            rs1: ZERO,
            imm: services::STOP as i32,
        },
    )?;
    put(code, Instr::Ecall)?;
    put(
        code,
        Instr::Addi {
            rd: S11,
            rs1: S11,
            imm: -1,
        },
    )
}

/// The number in `a0` is printed, and a line end.
#[tactic(auto, using(crate::proofs::Rules::code_rules), unfolding(crate::specs::function::Code::print_code))]
pub fn put_print(code: &mut Vec<Instr>) -> Result<(), AllocError>
    ensures { OnOk result (code.new.items ≡ code.old.items ++ print_code) }
{
    put_turn(code)?;
    put_service(code, services::PRINT_INT)?;
    put_service(code, services::PRINT_LINE_END)
}

/// The place of the instruction that is put next.
pub fn here(code: &Vec<Instr>) -> usize
    ensures { result ≡ length code.now.items }
{
    code.len()
}

/// A jump over `words` words.
pub fn jump_ahead(words: usize) -> Instr
    requires { words < max_jump }
    ensures { result ≡ ahead words }
{
    Instr::Jal {
        rd: ZERO,
        imm: (WORD_SIZE * words + WORD_SIZE) as i32,
    }
}

/// A jump back by `words` words.
pub fn jump_back(words: usize) -> Instr
    requires above { 0 < words }
    requires near { words < max_jump }
    ensures { result ≡ back words }
{
    let bytes = (WORD_SIZE * words) as i32;
    Instr::Jal {
        rd: ZERO,
        imm: -bytes,
    }
}

/// A jump that is taken where `a0` is 0. `jump_to` gives it its target; the result is its place.
#[tactic(auto, using(crate::proofs::Rules::code_rules), unfolding(crate::specs::function::Code::skip))]
pub fn put_skip(code: &mut Vec<Instr>) -> Result<usize, AllocError>
    ensures code { OnOk result (code.new.items ≡ code.old.items ++ skip 0) }
    ensures place { IfOk result (λ at. at ≡ length code.old.items + 1) }
{
    put(
        code,
        Instr::Bne {
            rs1: A0,
            rs2: ZERO,
            imm: 2 * WORD_SIZE as i32,
        },
    )?;
    put_jump(code)
}

/// A jump. `jump_to` gives it its target; the result is its place.
pub fn put_jump(code: &mut Vec<Instr>) -> Result<usize, AllocError>
    ensures code { OnOk result (code.new.items ≡ code.old.items ++ ahead 0 ∷ []) }
    ensures place { IfOk result (λ at. at ≡ length code.old.items) }
{
    let at = here(code);
    put(code, jump_ahead(0))?;
    Ok(at)
}

/// The jump at `at` goes to the word at `to`.
pub fn jump_to(code: &mut Vec<Instr>, at: usize, to: usize)
    requires ahead { at < to }
    requires inside { to ≤ length code.old.items }
    requires near { length code.old.items ≤ max_jump }
    ensures { code.new.items ≡ slice_set code.old.items at (ahead (to - at - 1)) }
{
    code[at] = jump_ahead(to - at - 1);
}
