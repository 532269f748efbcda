//! The words of instructions.

ghost use Rattle.std.specs.Prelude.{◌≡◌, ◌++◌, OnOk};
ghost use Rattle.bcj_linker_code.specs.Instructions.{AreInRange, encoded};

use bcj_layout_places::Words;
use rv_isa::{Instr, encode};
use std::alloc::AllocError;

/// Puts the words of instructions behind the words.
pub fn push_instructions(words: &mut Words, instructions: &[Instr]) -> Result<(), AllocError>
    requires { AreInRange instructions.now }
    ensures { OnOk result (words.new ≡ words.old ++ encoded instructions.now) }
{
    for instruction in instructions {
        words.push(encode(*instruction))?;
    }
    Ok(())
}
