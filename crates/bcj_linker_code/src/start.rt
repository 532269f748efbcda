//! The start code.
#![tactic(auto, using(crate::proofs::Encoded::encoded_rules))]

ghost use Rattle.std.specs.Prelude.{◌≡◌, ◌<◌, ◌++◌, ◌∷◌, [], pos, OnOk};
ghost use Rattle.rv_isa.specs.Registers.{IsRegister, ra, t1};
ghost use Rattle.rv_steps.specs.Services as services;
ghost use Rattle.bcj_hier_rules.specs.Shapes.{Named};
ghost use Rattle.bcj_layout_rules.specs.Rows.{Classes};
ghost use Rattle.bcj_layout_places.specs.Places.{ArePlaces};
ghost use Rattle.bcj_lower_rules.specs.Words.{service_words};
ghost use Rattle.bcj_linker_rules.specs.Start as start;
ghost use Rattle.bcj_linker_rules.specs.Start.{start_code_words};
ghost use Rattle.bcj_linker_code.specs.Instructions.{encoded};

use crate::addresses::{lower_immediate, sum, upper_immediate};
use crate::instructions::push_instructions;
use bcj_layout_places::{Places, Words};
use rv_isa::Instr;
use rv_isa::registers::{A0, A1, A7, RA, SP, T1, ZERO};
use rv_steps::services;
use std::alloc::AllocError;

/// The bytes of a word.
const WORD_SIZE: u32 = 4;

/// A register takes an address.
fn push_address(words: &mut Words, register: u8, address: u32) -> Result<(), AllocError>
    requires { IsRegister register }
    ensures { OnOk result (words.new ≡ words.old ++ encoded (start.address_in register address)) }
{
    push_instructions(
        words,
        &[
            Instr::Lui {
                rd: register,
                imm: upper_immediate(address),
            },
            Instr::Addi {
                rd: register,
                rs1: register,
                imm: lower_immediate(address),
            },
        ],
    )
}

/// A service is called.
fn push_service(words: &mut Words, service: u8) -> Result<(), AllocError>
    requires { service < 32 }
    ensures { OnOk result (words.new ≡ words.old ++ encoded (service_words service)) }
{
    push_instructions(
        words,
        &[
            Instr::Addi {
                rd: A7,
                rs1: ZERO,
                imm: i32::from(service),
            },
            Instr::Ecall,
        ],
    )
}

/// The use of the entry at an address: where it says nothing, linking fails.
fn push_use(words: &mut Words, entry: u32) -> Result<(), AllocError>
    ensures { OnOk result (words.new ≡ words.old ++ encoded (start.use_at entry)) }
{
    push_address(words, A0, entry)?;
    push_instructions(
        words,
        &[
            Instr::Lw {
                rd: T1,
                rs1: A0,
                imm: 0,
            },
            Instr::Bne {
                rs1: T1,
                rs2: ZERO,
                imm: 12,
            },
        ],
    )?;
    push_service(words, services::LINK_FAILURE)
}

/// The class of the entry at `a0` is initialised.
fn push_initialise(words: &mut Words) -> Result<(), AllocError>
    ensures { OnOk result (words.new ≡ words.old ++ encoded start.initialise) }
{
    push_service(words, services::INIT_BEGIN)?;
    push_instructions(
        words,
        &[
            Instr::Beq {
                rs1: A0,
                rs2: ZERO,
                imm: 8,
            },
            Instr::Jalr {
                rd: RA,
                rs1: A0,
                imm: 0,
            },
        ],
    )
}

/// `t1` takes what the entry at an address says.
fn push_fetch(words: &mut Words, entry: u32) -> Result<(), AllocError>
    ensures { OnOk result (words.new ≡ words.old ++ encoded (start.fetch_at entry)) }
{
    push_instructions(
        words,
        &[
            Instr::Lui {
                rd: T1,
                imm: upper_immediate(entry),
            },
            Instr::Lw {
                rd: T1,
                rs1: T1,
                imm: lower_immediate(entry),
            },
        ],
    )
}

/// An array without elements, of the type whose row the entry says, becomes the argument of main.
fn push_array(words: &mut Words, entry: u32) -> Result<(), AllocError>
    ensures { OnOk result (words.new ≡ words.old ++ encoded (start.arguments_at entry)) }
{
    push_fetch(words, entry)?;
    push_instructions(
        words,
        &[
            Instr::Addi {
                rd: A0,
                rs1: T1,
                imm: 0,
            },
            Instr::Addi {
                rd: A1,
                rs1: ZERO,
                imm: 0,
            },
        ],
    )?;
    push_service(words, services::NEW_ARRAY)?;
    push_instructions(
        words,
        &[Instr::Sw {
            rs1: SP,
            rs2: A0,
            imm: -4,
        }],
    )
}

/// The argument of main, where it takes one.
fn push_arguments(words: &mut Words, takes: bool, entry: u32) -> Result<(), AllocError>
    ensures { OnOk result (words.new ≡ words.old ++ encoded (start.arguments_where takes entry)) }
{
    if takes {
        push_array(words, entry)
    } else {
        Ok(())
    }
}

/// The method at `t1` is called, and the run ends.
fn push_run(words: &mut Words) -> Result<(), AllocError>
    ensures { OnOk result (words.new ≡ words.old ++ encoded (Instr.Jalr ra t1 (pos 0) ∷ service_words services.exit)) }
{
    push_instructions(
        words,
        &[Instr::Jalr {
            rd: RA,
            rs1: T1,
            imm: 0,
        }],
    )?;
    push_service(words, services::EXIT)
}

/// Puts the start code behind the words. An address past 32 bits fits no memory.
pub fn push_start(places: &Places, words: &mut Words) -> Result<(), AllocError>
    ensures { OnOk result ((cs : Classes) (main : Named) → ArePlaces cs main places.now → words.new ≡ words.old ++ start_code_words cs main) }
{
    let class = places.tables;
    let arguments = sum(class, WORD_SIZE)?;
    let method = sum(arguments, WORD_SIZE)?;
    push_use(words, class)?;
    push_use(words, method)?;
    push_address(words, A0, class)?;
    push_initialise(words)?;
    push_arguments(words, places.takes_arguments, arguments)?;
    push_fetch(words, method)?;
    push_run(words)
}
