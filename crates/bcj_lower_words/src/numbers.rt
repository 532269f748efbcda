//! Numbers, temporaries and services.

ghost use Rattle.std.specs.Prelude.{◌≡◌, ◌++◌, OnOk, IfOk, ◌+◌, pos};
ghost use Rattle.rv_steps.specs.Arithmetic.{upper_part, lower_part};
ghost use Rattle.bcj_lower_rules.specs.Lines as spec;
ghost use Rattle.bcj_lower_rules.specs.Words as w;
ghost use Rattle.bcj_lower_rules.specs.Nodes as n;
ghost use Rattle.bcj_lower_words.specs.Views.{lines_of};
ghost use Rattle.bcj_lower_words.specs.function.Pieces.{spent_words};

use crate::instructions::{addi, bne, lui, lw, sw};
use crate::lines::Lines;
use crate::offsets::temporary;
use rv_isa::Instr;
use rv_isa::registers::{A0, A1, A7, S11, SP, T1, ZERO};
use rv_steps::services;
use std::alloc::AllocError;

/// One temporary further.
pub fn deeper(d: u16) -> Result<u16, AllocError>
    ensures { IfOk result (λ n. n ≡ d + 1) }
{
    d.checked_add(1).ok_or(AllocError)
}

/// The upper 20 bits of a number, rounded for the low ones.
fn upper(n: u32) -> i32
    ensures { result ≡ pos (upper_part n) }
{
    (n.wrapping_add(1 << 11) >> 12) as i32
}

/// The low 12 bits of a number, as a signed number.
fn lower(n: u32) -> i32
    ensures { result ≡ lower_part n }
{
    let low = (n % (1 << 12)) as i32;
    if low < 1 << 11 { low } else { low - (1 << 12) }
}

impl<'a> Lines<'a> {
    /// `a0` goes to a temporary.
    #[tactic(auto, using(crate::proofs::Rules::line_rules), unfolding(bcj_lower_rules::specs::Words::save))]
    pub fn save(&mut self, d: u16) -> Result<(), AllocError>
        ensures { OnOk result (lines_of self.new ≡ lines_of self.old ++ w.save d) }
    {
        self.word(sw(SP, A0, temporary(d)))
    }

    /// `a0` takes a temporary.
    #[tactic(auto, using(crate::proofs::Rules::line_rules), unfolding(bcj_lower_rules::specs::Words::load))]
    pub fn load(&mut self, d: u16) -> Result<(), AllocError>
        ensures { OnOk result (lines_of self.new ≡ lines_of self.old ++ w.load d) }
    {
        self.word(lw(A0, SP, temporary(d)))
    }

    /// `a1` takes a temporary.
    #[tactic(auto, using(crate::proofs::Rules::line_rules), unfolding(bcj_lower_rules::specs::Words::load_second))]
    pub fn load_second(&mut self, d: u16) -> Result<(), AllocError>
        ensures { OnOk result (lines_of self.new ≡ lines_of self.old ++ w.load_second d) }
    {
        self.word(lw(A1, SP, temporary(d)))
    }

    /// `a0` takes a small number.
    #[tactic(auto, using(crate::proofs::Rules::line_rules), unfolding(bcj_lower_rules::specs::Words::small_number))]
    pub fn small_number(&mut self, n: u8) -> Result<(), AllocError>
        ensures { OnOk result (lines_of self.new ≡ lines_of self.old ++ w.small_number n) }
    {
        self.word(addi(A0, ZERO, i32::from(n)))
    }

    /// `a0` takes the word so many bytes behind `t1`.
    #[tactic(auto, using(crate::proofs::Rules::line_rules), unfolding(bcj_lower_rules::specs::Words::read_at))]
    pub fn read_at(&mut self, n: u8) -> Result<(), AllocError>
        ensures { OnOk result (lines_of self.new ≡ lines_of self.old ++ w.read_at n) }
    {
        self.word(lw(A0, T1, i32::from(n)))
    }

    /// `a0` goes so many bytes behind `t1`.
    #[tactic(auto, using(crate::proofs::Rules::line_rules), unfolding(bcj_lower_rules::specs::Words::write_at))]
    pub fn write_at(&mut self, n: u8) -> Result<(), AllocError>
        ensures { OnOk result (lines_of self.new ≡ lines_of self.old ++ w.write_at n) }
    {
        self.word(sw(T1, A0, i32::from(n)))
    }

    /// `a1` takes `a0`.
    #[tactic(auto, using(crate::proofs::Rules::line_rules), unfolding(bcj_lower_rules::specs::Words::move_second))]
    pub fn move_second(&mut self) -> Result<(), AllocError>
        ensures { OnOk result (lines_of self.new ≡ lines_of self.old ++ w.move_second) }
    {
        self.word(addi(A1, A0, 0))
    }

    /// `a0` takes `t1`.
    #[tactic(auto, using(crate::proofs::Rules::line_rules), unfolding(bcj_lower_rules::specs::Words::take_entry))]
    pub fn take_entry(&mut self) -> Result<(), AllocError>
        ensures { OnOk result (lines_of self.new ≡ lines_of self.old ++ w.take_entry) }
    {
        self.word(addi(A0, T1, 0))
    }

    /// `a0` takes a number, always by two words.
    #[tactic(auto, using(crate::proofs::Rules::line_rules), unfolding(bcj_lower_rules::specs::Words::number))]
    pub fn number(&mut self, n: i32) -> Result<(), AllocError>
        ensures { OnOk result (lines_of self.new ≡ lines_of self.old ++ w.number n) }
    {
        let bits = n.cast_unsigned();
        self.words(&[lui(A0, upper(bits)), addi(A0, A0, lower(bits))])
    }

    /// A service of this number is called.
    #[tactic(auto, using(crate::proofs::Rules::line_rules), unfolding(bcj_lower_rules::specs::Words::service))]
    pub fn service(&mut self, n: u8) -> Result<(), AllocError>
        ensures { OnOk result (lines_of self.new ≡ lines_of self.old ++ w.service n) }
    {
        self.words(&[addi(A7, ZERO, i32::from(n)), Instr::Ecall])
    }

    /// An exception of this number is thrown.
    #[tactic(auto, using(crate::proofs::Rules::line_rules), unfolding(bcj_lower_rules::specs::Words::small_number, bcj_lower_rules::specs::Words::service))]
    pub(crate) fn fail(&mut self, exception: u8) -> Result<(), AllocError>
        ensures { OnOk result (lines_of self.new ≡ lines_of self.old ++ spec.words (w.fail_words exception)) }
    {
        self.small_number(exception)?;
        self.service(services::THROW)
    }

    /// A null in `a0` throws.
    #[tactic(auto, using(crate::proofs::Rules::line_rules), unfolding(bcj_lower_rules::specs::Words::null_test, bcj_lower_rules::specs::Words::service))]
    pub fn null_test(&mut self) -> Result<(), AllocError>
        ensures { OnOk result (lines_of self.new ≡ lines_of self.old ++ w.null_test) }
    {
        self.word(bne(A0, ZERO, 12))?;
        self.service(services::THROW)
    }

    /// One of what a register counts is spent, where one is left; else code stops, and says of what nothing is left.
    #[tactic(auto, using(crate::proofs::Rules::line_rules), unfolding(bcj_lower_rules::specs::Words::small_number, bcj_lower_rules::specs::Words::service))]
    pub(crate) fn spend(&mut self, register: u8, what: u8) -> Result<(), AllocError>
        ensures { OnOk result (lines_of self.new ≡ lines_of self.old ++ spec.words (spent_words register what)) }
    {
        self.word(bne(register, ZERO, 16))?;
        self.small_number(what)?;
        self.service(services::STOP)?;
        self.word(addi(register, register, -1))
    }

    /// A turn is spent, where one is left.
    #[tactic(auto, using(crate::proofs::Rules::line_rules), unfolding(bcj_lower_rules::specs::Words::turn))]
    pub fn turn(&mut self) -> Result<(), AllocError>
        ensures { OnOk result (lines_of self.new ≡ lines_of self.old ++ w.turn) }
    {
        self.spend(S11, 0)
    }

    /// A truth value.
    pub fn truth(&mut self, value: bool) -> Result<(), AllocError>
        ensures { OnOk result (lines_of self.new ≡ lines_of self.old ++ n.truth value) }
    {
        if value {
            self.small_number(1)
        } else {
            self.small_number(0)
        }
    }

    /// A null test where it is said.
    pub fn tested(&mut self, said: bool) -> Result<(), AllocError>
        ensures { OnOk result (lines_of self.new ≡ lines_of self.old ++ n.tested said) }
    {
        if said { self.null_test() } else { Ok(()) }
    }

    /// With `post` the old value, which a temporary has, is the result.
    pub fn old_value(&mut self, post: bool, d: u16) -> Result<(), AllocError>
        ensures { OnOk result (lines_of self.new ≡ lines_of self.old ++ n.old_value post d) }
    {
        if post { self.load(d) } else { Ok(()) }
    }
}
