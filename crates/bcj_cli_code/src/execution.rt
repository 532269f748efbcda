//! The run of words on the machine.

ghost use Rattle.std.specs.Prelude.{◌≡◌, ℕ, ◌+◌, ◌*◌, ◌<◌, ◌≤◌, ◌^◌, length, flat_map, IfOk, string_bytes};
ghost use Rattle.std.specs.Int.{w32, cast_signed};
ghost use Rattle.std.specs.Fmt.{signed_decimal};
ghost use Rattle.byteorder.specs.Endian.{little_bytes};
ghost use Rattle.bcj_cli_language.specs.Tree.{Acts};
ghost use Rattle.rv_isa.specs.Registers.{xlen};
ghost use Rattle.rv_isa.specs.Words.{instruction_size};
ghost use Rattle.bcj_cli_language.specs.Bounds.{IsBounded, max_turns};
ghost use Rattle.bcj_cli_language.specs.Meaning.{meaning, printed};
ghost use Rattle.bcj_cli_code.specs.function.Code.{program_words};
ghost use Rattle.bcj_cli_code.specs.Frames.{frame_bytes};
ghost use Rattle.bcj_cli_code.specs.Sizes.{max_words};
ghost use Rattle.bcj_cli_code.specs.Correct.{answer, memory_of, start_state, ending};
ghost use Rattle.bcj_cli_code.specs.function.Execution.{IsAnswered, IsAdvanced, IsRun};

use crate::ending::{Answered, Cause, Ending, Ran};
use crate::instructions::{FRAME_WORDS, WORD_SIZE};
use bcj_edge::Bytes;
use rv_isa::registers::{A0, A7, S11, SP};
use rv_machine::{FaultKind, Machine, Step};
use rv_steps::services;
use std::alloc::{AllocError, Global};

const FRAME_BYTES: usize = WORD_SIZE * FRAME_WORDS;

const PRINT_INT: u32 = services::PRINT_INT as u32;

const PRINT_LINE_END: u32 = services::PRINT_LINE_END as u32;

const STOP: u32 = services::STOP as u32;

const EXIT: u32 = services::EXIT as u32;

/// Runs words from address 0, with one frame behind them, at most (`turns` + 1) times as many instructions
/// as there are words.
pub fn execute(alloc: Global, words: &[u32], turns: u32) -> Result<Ran, AllocError>
    requires { instruction_size * length words.now + frame_bytes < 2 ^ xlen }
    ensures run { IfOk result (λ r. IsRun words.now turns r) }
    ensures meant { (p : Acts) → IsBounded p → length (program_words p) ≤ max_words → turns < max_turns + 1 → words.now ≡ program_words p
        → IfOk result (λ r. (r.cause ≡ Cause.Ended (ending (meaning p turns))) × (r.out.items ≡ printed (meaning p turns))) }
{
    let mut machine = load(alloc, words, turns)?;
    let mut out = Vec::new(alloc);
    let limit = (turns as u64 + 1) * words.len() as u64;
    for _taken in 0..limit {
        if let Some(cause) = advance(alloc, &mut machine, &mut out)? {
            return Ok(Ran { cause, out });
        }
    }
    Ok(Ran {
        cause: Cause::OutOfInstructions,
        out,
    })
}

/// One instruction, and the answer to a call. The cause is that of the run's end.
fn advance(
    alloc: Global,
    machine: &mut Machine,
    out: &mut Vec<u8>,
) -> Result<Option<Cause>, AllocError>
    ensures { IfOk result (λ r. IsAdvanced machine.old out.old.items r machine.new out.new.items) }
{
    match machine.step() {
        Step::Went => Ok(None),
        Step::Fault(kind) => Ok(Some(Cause::Faulted(kind))),
        Step::Call => match respond(alloc, machine, out)? {
            Answered::Resumed => Ok(None),
            Answered::Ended(ending) => Ok(Some(Cause::Ended(ending))),
            Answered::Refused => Ok(Some(Cause::Faulted(FaultKind::BadCall))),
        },
    }
}

/// The services.
fn respond(alloc: Global, machine: &Machine, out: &mut Vec<u8>) -> Result<Answered, AllocError>
    ensures { IfOk result (λ r. IsAnswered (answer machine.now out.old.items) r machine.now out.old.items out.new.items) }
{
    match machine.reg(A7) {
        PRINT_INT => {
            let text = decimal(alloc, machine.reg(A0))?;
            out.extend_from_slice(text.as_bytes())?;
            Ok(Answered::Resumed)
        }
        PRINT_LINE_END => {
            out.push(b'\n')?;
            Ok(Answered::Resumed)
        }
        STOP => Ok(Answered::Ended(Ending::TurnsSpent)),
        EXIT => Ok(Answered::Ended(Ending::Done)),
        _ => Ok(Answered::Refused),
    }
}

/// The decimal digits of a number of 32 bits in two's complement.
fn decimal(alloc: Global, n: u32) -> Result<String, AllocError>
    ensures { IfOk result (λ text. string_bytes text ≡ signed_decimal (cast_signed w32 n)) }
{
    let signed = n.cast_signed();
    format!(in alloc; "{signed}")
}

/// The machine before its first instruction.
fn load(alloc: Global, words: &[u32], turns: u32) -> Result<Machine, AllocError>
    requires { instruction_size * length words.now + frame_bytes < 2 ^ xlen }
    ensures { IfOk result (λ machine. machine ≡ start_state words.now turns) }
{
    let memory = memory(alloc, words)?;
    let end = (WORD_SIZE * words.len()) as u32;
    let mut machine = Machine::new(Bytes::of(memory), end, 0);
    machine.set_reg(SP, end);
    machine.set_reg(S11, turns);
    Ok(machine)
}

/// The words' bytes, and one frame of zeros.
fn memory(alloc: Global, words: &[u32]) -> Result<Vec<u8>, AllocError>
    ensures { IfOk result (λ bytes. bytes.items ≡ memory_of words.now) }
{
    let mut bytes = word_bytes(alloc, words)?;
    bytes.extend_from_slice(&[0; FRAME_BYTES])?;
    Ok(bytes)
}

/// The bytes of words, the lowest of each first.
fn word_bytes(alloc: Global, words: &[u32]) -> Result<Vec<u8>, AllocError>
    ensures { IfOk result (λ bytes. bytes.items ≡ flat_map (λ w. little_bytes instruction_size w) words.now) }
{
    let mut bytes = Vec::new(alloc);
    for word in words {
        bytes.extend_from_slice(&word.to_le_bytes())?;
    }
    Ok(bytes)
}
