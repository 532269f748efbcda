//! Operators.
#![tactic(auto, using(crate::proofs::Rules::line_rules))]

ghost use Rattle.std.specs.Prelude.{◌≡◌, ◌++◌, OnOk};
ghost use Rattle.bcj_lower_rules.specs.Lines as spec;
ghost use Rattle.bcj_lower_rules.specs.Words as w;
ghost use Rattle.bcj_lower_words.specs.Views.{lines_of};
ghost use Rattle.bcj_lower_words.specs.function.Pieces.{dividing_words};

use crate::exceptions;
use crate::instructions::{
    add, and, bne, div, mul, or, rem, sll, slt, sltiu, sltu, sra, srl, sub, xor, xori,
};
use crate::lines::Lines;
use bcj_symbolic_trees::{BinaryOp, PrintKind, UnaryOp};
use rv_isa::Instr;
use rv_isa::registers::{A0, A1, ZERO};
use rv_steps::services;
use std::alloc::AllocError;

/// The number of the service that prints.
pub fn print_service(kind: PrintKind) -> u8
    ensures { result ≡ w.print_service kind }
{
    match kind {
        PrintKind::Int => services::PRINT_INT,
        PrintKind::Bool => services::PRINT_BOOLEAN,
        PrintKind::Line => services::PRINT_LINE_END,
        PrintKind::Byte => services::PRINT_BYTE,
    }
}

/// The operator on `a0`.
fn unary_word(op: UnaryOp) -> Instr
    ensures { result ≡ w.unary_word op }
{
    match op {
        UnaryOp::Minus => sub(A0, ZERO, A0),
        UnaryOp::Flip => xori(A0, A0, -1),
        UnaryOp::Not => xori(A0, A0, 1),
    }
}

impl<'a> Lines<'a> {
    /// An instruction that divides by `a1`, where a divisor of 0 throws.
    fn divide(&mut self, instr: Instr) -> Result<(), AllocError>
        ensures { OnOk result (lines_of self.new ≡ lines_of self.old ++ spec.words (dividing_words instr)) }
    {
        self.word(bne(A1, ZERO, 16))?;
        self.fail(exceptions::ARITHMETIC)?;
        self.word(instr)
    }

    /// The operator, with the operands in `a0` and `a1`.
    fn operator_words(&mut self, op: BinaryOp) -> Result<(), AllocError>
        ensures { OnOk result (lines_of self.new ≡ lines_of self.old ++ spec.words (w.operator_words op)) }
    {
        match op {
            BinaryOp::Or => self.word(or(A0, A0, A1)),
            BinaryOp::Xor => self.word(xor(A0, A0, A1)),
            BinaryOp::And => self.word(and(A0, A0, A1)),
            BinaryOp::Eq => self.words(&[sub(A0, A0, A1), sltiu(A0, A0, 1)]),
            BinaryOp::Ne => self.words(&[sub(A0, A0, A1), sltu(A0, ZERO, A0)]),
            BinaryOp::Lt => self.word(slt(A0, A0, A1)),
            BinaryOp::Gt => self.word(slt(A0, A1, A0)),
            BinaryOp::Le => self.words(&[slt(A0, A1, A0), xori(A0, A0, 1)]),
            BinaryOp::Ge => self.words(&[slt(A0, A0, A1), xori(A0, A0, 1)]),
            BinaryOp::Shl => self.word(sll(A0, A0, A1)),
            BinaryOp::Shr => self.word(sra(A0, A0, A1)),
            BinaryOp::Ushr => self.word(srl(A0, A0, A1)),
            BinaryOp::Add => self.word(add(A0, A0, A1)),
            BinaryOp::Sub => self.word(sub(A0, A0, A1)),
            BinaryOp::Mul => self.word(mul(A0, A0, A1)),
            BinaryOp::Div => self.divide(div(A0, A0, A1)),
            BinaryOp::Rem => self.divide(rem(A0, A0, A1)),
        }
    }

    /// The operator on `a0`.
    #[tactic(auto, using(crate::proofs::Rules::line_rules), unfolding(bcj_lower_rules::specs::Words::unary_words))]
    pub fn unary_words(&mut self, op: UnaryOp) -> Result<(), AllocError>
        ensures { OnOk result (lines_of self.new ≡ lines_of self.old ++ w.unary_words op) }
    {
        self.word(unary_word(op))
    }

    /// The operator, with the left operand in a temporary and the right one in `a0`.
    #[tactic(auto, using(crate::proofs::Rules::line_rules), unfolding(bcj_lower_rules::specs::Words::operate))]
    pub fn operate(&mut self, op: BinaryOp, d: u16) -> Result<(), AllocError>
        ensures { OnOk result (lines_of self.new ≡ lines_of self.old ++ w.operate op d) }
    {
        self.move_second()?;
        self.load(d)?;
        self.operator_words(op)
    }
}
