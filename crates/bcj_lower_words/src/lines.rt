//! The lines of a method as a list.

ghost use Rattle.std.specs.Prelude.{◌≡◌, ◌++◌, ◌∷◌, [], map, OnOk};
ghost use Rattle.bcj_lower_rules.specs.Lines as spec;
ghost use Rattle.bcj_lower_words.specs.Views.{address_of, line_of, lines_of};

use crate::line::{Address, Line, Relocated};
use bcj_asm::{Item, Label};
use bcj_lower_rules::Half;
use rv_isa::Instr;
use rv_isa::registers::{A0, ZERO};
use std::alloc::{AllocError, Global};

/// The lines so far.
#[derive(Drop)]
pub struct Lines<'a> {
    lines: Vec<Line<'a>>,
}

impl<'a> Lines<'a> {
    /// No lines yet.
    pub fn new(alloc: Global) -> Lines<'a>
        ensures { lines_of result ≡ [] }
    {
        Lines {
            lines: Vec::new(alloc),
        }
    }

    /// The lines in order. It takes no memory.
    pub fn as_slice(&self) -> &[Line<'a>]
        ensures { map line_of result.now ≡ lines_of self.now }
    {
        self.lines.as_slice()
    }

    /// An instruction as it stands.
    pub fn word(&mut self, instr: Instr) -> Result<(), AllocError>
        ensures { OnOk result (lines_of self.new ≡ lines_of self.old ++ spec.word instr ∷ []) }
    {
        self.lines.push(Line {
            item: Item::Word(instr),
            relocated: None,
        })?;
        Ok(())
    }

    /// Instructions as they stand.
    #[tactic(auto, using(crate::proofs::Rules::words_rules))]
    pub fn words(&mut self, instrs: &[Instr]) -> Result<(), AllocError>
        ensures { OnOk result (lines_of self.new ≡ lines_of self.old ++ spec.words instrs.now) }
    {
        for instr in instrs {
            self.word(*instr)?;
        }
        Ok(())
    }

    /// An instruction whose immediate is the half of an address.
    pub(crate) fn with_half(
        &mut self,
        half: Half,
        address: Address<'a>,
        instr: Instr,
    ) -> Result<(), AllocError>
        ensures { OnOk result (lines_of self.new ≡ lines_of self.old ++ spec.with_half half (address_of address.entry) instr ∷ []) }
    {
        self.lines.push(Line {
            item: Item::Word(instr),
            relocated: Some(Relocated { half, address }),
        })?;
        Ok(())
    }

    /// A label stands here.
    pub fn place(&mut self, label: u32) -> Result<(), AllocError>
        ensures { OnOk result (lines_of self.new ≡ lines_of self.old ++ spec.place label) }
    {
        self.lines.push(Line {
            item: Item::Place(Label(label)),
            relocated: None,
        })?;
        Ok(())
    }

    /// A jump to a label.
    pub fn jump(&mut self, label: u32) -> Result<(), AllocError>
        ensures { OnOk result (lines_of self.new ≡ lines_of self.old ++ spec.jump label) }
    {
        self.lines.push(Line {
            item: Item::Jump {
                rd: ZERO,
                to: Label(label),
            },
            relocated: None,
        })?;
        Ok(())
    }

    /// A branch to a label where `a0` is 0.
    pub fn jump_if_zero(&mut self, label: u32) -> Result<(), AllocError>
        ensures { OnOk result (lines_of self.new ≡ lines_of self.old ++ spec.jump_if_zero label) }
    {
        self.lines.push(Line {
            item: Item::Branch {
                instr: Instr::Beq {
                    rs1: A0,
                    rs2: ZERO,
                    imm: 0,
                },
                to: Label(label),
            },
            relocated: None,
        })?;
        Ok(())
    }

    /// A branch to a label where `a0` isn't 0.
    pub fn jump_unless_zero(&mut self, label: u32) -> Result<(), AllocError>
        ensures { OnOk result (lines_of self.new ≡ lines_of self.old ++ spec.jump_unless_zero label) }
    {
        self.lines.push(Line {
            item: Item::Branch {
                instr: Instr::Bne {
                    rs1: A0,
                    rs2: ZERO,
                    imm: 0,
                },
                to: Label(label),
            },
            relocated: None,
        })?;
        Ok(())
    }
}
