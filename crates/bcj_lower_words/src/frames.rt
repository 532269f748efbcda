//! Frames: a method begins and ends, and its locals.
#![tactic(auto, using(crate::proofs::Rules::line_rules))]

ghost use Rattle.std.specs.Prelude.{◌≡◌, ◌+◌, ◌++◌, OnOk};
ghost use Rattle.bcj_lower_rules.specs.Lines as spec;
ghost use Rattle.bcj_lower_rules.specs.Words as w;
ghost use Rattle.bcj_lower_rules.specs.Bodies as b;
ghost use Rattle.bcj_lower_words.specs.function.Pieces.{frame_words};
ghost use Rattle.bcj_lower_words.specs.Views.{lines_of};

use crate::instructions::{addi, jalr, lw, sw};
use crate::lines::Lines;
use crate::offsets::{below, local, size};
use rv_isa::registers::{A0, RA, S10, SP, ZERO};
use std::alloc::AllocError;

impl<'a> Lines<'a> {
    /// `a0` goes to a local.
    #[tactic(auto, using(crate::proofs::Rules::line_rules), unfolding(bcj_lower_rules::specs::Words::set_local_word))]
    pub fn set_local(&mut self, frame: u16, i: u32) -> Result<(), AllocError>
        ensures { OnOk result (lines_of self.new ≡ lines_of self.old ++ w.set_local_word frame i) }
    {
        self.word(sw(SP, A0, local(frame, i as usize)))
    }

    /// `a0` takes a local.
    #[tactic(auto, using(crate::proofs::Rules::line_rules), unfolding(bcj_lower_rules::specs::Words::get_local_word))]
    pub fn get_local(&mut self, frame: u16, i: u32) -> Result<(), AllocError>
        ensures { OnOk result (lines_of self.new ≡ lines_of self.old ++ w.get_local_word frame i) }
    {
        self.word(lw(A0, SP, local(frame, i as usize)))
    }

    /// A frame of so many words begins, and takes the address to return to.
    fn open_frame(&mut self, frame: u16) -> Result<(), AllocError>
        ensures { OnOk result (lines_of self.new ≡ lines_of self.old ++ spec.words (frame_words frame)) }
    {
        self.words(&[addi(SP, SP, below(frame)), sw(SP, RA, 0)])
    }

    /// A depth is spent, where one is left.
    fn depth(&mut self) -> Result<(), AllocError>
        ensures { OnOk result (lines_of self.new ≡ lines_of self.old ++ spec.words w.depth_words) }
    {
        self.spend(S10, 1)
    }

    /// A method begins, with a frame of so many words.
    #[tactic(auto, using(crate::proofs::Rules::line_rules), unfolding(bcj_lower_rules::specs::Words::enter, bcj_lower_rules::specs::Words::turn))]
    pub fn enter(&mut self, frame: u16) -> Result<(), AllocError>
        ensures { OnOk result (lines_of self.new ≡ lines_of self.old ++ w.enter frame) }
    {
        self.open_frame(frame)?;
        self.turn()?;
        self.depth()
    }

    /// And it returns.
    #[tactic(auto, using(crate::proofs::Rules::line_rules), unfolding(bcj_lower_rules::specs::Words::exit))]
    pub fn exit(&mut self, frame: u16) -> Result<(), AllocError>
        ensures { OnOk result (lines_of self.new ≡ lines_of self.old ++ w.exit frame) }
    {
        self.words(&[
            lw(RA, SP, 0),
            addi(SP, SP, size(frame)),
            addi(S10, S10, 1),
            jalr(ZERO, RA, 0),
        ])
    }

    /// The local so many behind `i` becomes zero.
    fn zero_local(&mut self, frame: u16, i: usize, k: usize) -> Result<(), AllocError>
        ensures { OnOk result (lines_of self.new ≡ lines_of self.old ++ b.zero_locals frame (i + k) 1) }
    {
        let i = i.checked_add(k).ok_or(AllocError)?;
        self.word(sw(SP, ZERO, local(frame, i)))
    }

    /// So many locals from `i` on become zero.
    #[tactic(auto, using(crate::proofs::Rules::zero_rules))]
    pub fn zero_locals(&mut self, frame: u16, i: usize, n: usize) -> Result<(), AllocError>
        ensures { OnOk result (lines_of self.new ≡ lines_of self.old ++ b.zero_locals frame i n) }
    {
        for k in 0..n {
            self.zero_local(frame, i, k)?;
        }
        Ok(())
    }
}
