//! Calls.
#![tactic(auto, using(crate::proofs::Rules::line_rules))]

ghost use Rattle.std.specs.Prelude.{◌≡◌, ◌++◌, OnOk};
ghost use Rattle.bcj_lower_rules.specs.Lines as spec;
ghost use Rattle.bcj_lower_rules.specs.Words as w;
ghost use Rattle.bcj_lower_words.specs.function.Pieces.{dispatch_row_words, dispatched_words, row_lines};
ghost use Rattle.bcj_lower_words.specs.Views.{lines_of};

use crate::exceptions;
use crate::instructions::{add, addi, bgeu, bne, jalr, lw, sw};
use crate::lines::Lines;
use crate::offsets::{argument, temporary};
use rv_isa::registers::{A0, A1, RA, SP, T1, ZERO};
use std::alloc::AllocError;

impl<'a> Lines<'a> {
    /// The method at `t1` is called.
    #[tactic(auto, using(crate::proofs::Rules::line_rules), unfolding(bcj_lower_rules::specs::Words::call))]
    pub fn call(&mut self) -> Result<(), AllocError>
        ensures { OnOk result (lines_of self.new ≡ lines_of self.old ++ w.call) }
    {
        self.word(jalr(RA, T1, 0))
    }

    /// The temporary so many behind `d` becomes that argument of a callee.
    fn copy_one(&mut self, d: u16, j: usize) -> Result<(), AllocError>
        ensures { OnOk result (lines_of self.new ≡ lines_of self.old ++ w.copy_from d j 1) }
    {
        let j = u16::try_from(j).or(Err(AllocError))?;
        let from = d.checked_add(j).ok_or(AllocError)?;
        self.words(&[lw(A0, SP, temporary(from)), sw(SP, A0, argument(j))])
    }

    /// So many temporaries from `d` on become the arguments of a callee.
    #[tactic(auto, using(crate::proofs::Rules::copy_rules), unfolding(bcj_lower_rules::specs::Words::copy))]
    pub fn copy(&mut self, d: u16, n: usize) -> Result<(), AllocError>
        ensures { OnOk result (lines_of self.new ≡ lines_of self.old ++ w.copy d n) }
    {
        for j in 0..n {
            self.copy_one(d, j)?;
        }
        Ok(())
    }

    /// `a0` takes the row of the object in a temporary, which is tested for null before.
    fn row(&mut self, d: u16) -> Result<(), AllocError>
        ensures { OnOk result (lines_of self.new ≡ lines_of self.old ++ row_lines d) }
    {
        self.load(d)?;
        self.null_test()?;
        self.word(lw(A0, A0, 0))
    }

    /// The method of the object in a temporary whose place in the object's row is in `t1`.
    #[tactic(auto, using(crate::proofs::Rules::line_rules), unfolding(bcj_lower_rules::specs::Words::select_method))]
    pub fn select_method(&mut self, d: u16) -> Result<(), AllocError>
        ensures { OnOk result (lines_of self.new ≡ lines_of self.old ++ w.select_method d) }
    {
        self.row(d)?;
        self.words(&[add(A0, A0, T1), lw(T1, A0, 0), bne(T1, ZERO, 16)])?;
        self.fail(exceptions::ABSTRACT)
    }

    /// `a0` takes the dispatch row of the row in `a0`; where the place in `t1` isn't in it, an error is thrown.
    fn dispatch_row(&mut self) -> Result<(), AllocError>
        ensures { OnOk result (lines_of self.new ≡ lines_of self.old ++ spec.words dispatch_row_words) }
    {
        self.words(&[lw(A0, A0, 12), lw(A1, A0, 0), bgeu(A1, T1, 16)])?;
        self.fail(exceptions::CHANGE)
    }

    /// `t1` takes the method at its place in the dispatch row in `a0`; where there is none, or none with code, an error is thrown.
    fn dispatched(&mut self) -> Result<(), AllocError>
        ensures { OnOk result (lines_of self.new ≡ lines_of self.old ++ spec.words dispatched_words) }
    {
        self.words(&[add(A0, A0, T1), lw(T1, A0, 0), bne(T1, ZERO, 16)])?;
        self.fail(exceptions::CHANGE)?;
        self.words(&[addi(A1, ZERO, 1), bne(T1, A1, 16)])?;
        self.fail(exceptions::ABSTRACT)
    }

    /// The method of the object in a temporary whose place in the object's dispatch row is in `t1`.
    #[tactic(auto, using(crate::proofs::Rules::line_rules), unfolding(bcj_lower_rules::specs::Words::select_interface_method))]
    pub fn select_interface_method(&mut self, d: u16) -> Result<(), AllocError>
        ensures { OnOk result (lines_of self.new ≡ lines_of self.old ++ w.select_interface_method d) }
    {
        self.row(d)?;
        self.dispatch_row()?;
        self.dispatched()
    }
}
