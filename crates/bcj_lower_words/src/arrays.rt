//! Objects and arrays.

ghost use Rattle.std.specs.Prelude.{◌≡◌, ◌++◌, OnOk};
ghost use Rattle.bcj_lower_rules.specs.Words as w;
ghost use Rattle.bcj_lower_rules.specs.Nodes as n;
ghost use Rattle.bcj_lower_words.specs.function.Pieces as pieces;
ghost use Rattle.bcj_lower_words.specs.Views.{lines_of};

use crate::exceptions;
use crate::instructions::{add, addi, beq, bltu, bne, jal, lw, slli, sltu};
use crate::lines::Lines;
use crate::offsets::temporary;
use rv_isa::registers::{A0, A1, SP, T1, ZERO};
use rv_steps::services;
use std::alloc::AllocError;

impl<'a> Lines<'a> {
    /// The object in a temporary is tested for null, and a register takes the address of the field whose offset is in `t1`.
    #[tactic(auto, using(crate::proofs::Rules::line_rules), unfolding(bcj_lower_rules::specs::Words::field_of_object))]
    pub fn field_of_object(&mut self, r: u8, d: u16) -> Result<(), AllocError>
        ensures { OnOk result (lines_of self.new ≡ lines_of self.old ++ w.field_of_object r d) }
    {
        self.load(d)?;
        self.null_test()?;
        self.word(add(r, A0, T1))
    }

    /// The address of the element at index `a1` of the array in `a0`, less the two words before the elements, into `t1`.
    #[tactic(auto, using(crate::proofs::Rules::line_rules), unfolding(bcj_lower_rules::specs::Words::element_address, bcj_lower_rules::specs::Words::null_test))]
    pub fn element_address(&mut self) -> Result<(), AllocError>
        ensures { OnOk result (lines_of self.new ≡ lines_of self.old ++ w.element_address) }
    {
        self.null_test()?;
        self.words(&[lw(T1, A0, 4), bltu(A1, T1, 16)])?;
        self.fail(exceptions::INDEX)?;
        self.words(&[slli(A1, A1, 2), add(T1, A0, A1)])
    }

    /// An element of the array in a temporary is about to be read or written, with its index in `a0`.
    #[tactic(auto, using(crate::proofs::Rules::line_rules), unfolding(bcj_lower_rules::specs::Nodes::index_of_saved))]
    pub fn index_of_saved(&mut self, d: u16) -> Result<(), AllocError>
        ensures { OnOk result (lines_of self.new ≡ lines_of self.old ++ n.index_of_saved d) }
    {
        self.move_second()?;
        self.load(d)?;
        self.element_address()
    }

    /// The array in temporary `d` takes the reference in temporary `d + 2`, or a service throws.
    #[tactic(auto, using(crate::proofs::Rules::line_rules), unfolding(bcj_lower_rules::specs::Words::store_check))]
    pub fn store_check(&mut self, d: u16) -> Result<(), AllocError>
        ensures { OnOk result (lines_of self.new ≡ lines_of self.old ++ w.store_check d) }
    {
        self.load(d)?;
        self.load_second(d.checked_add(2).ok_or(AllocError)?)?;
        self.service(services::STORE_CHECK)
    }

    /// `a1` takes the preorder number of the class of the object in a temporary, and `a0` that of the type whose row is in `t1`; where
    /// one is 0, the service is asked.
    #[tactic(auto, using(crate::proofs::Rules::line_rules), unfolding(crate::specs::function::Pieces::preorder_numbers))]
    fn preorder_numbers(&mut self, d: u16) -> Result<(), AllocError>
        ensures { OnOk result (lines_of self.new ≡ lines_of self.old ++ pieces.preorder_numbers d) }
    {
        self.words(&[
            lw(A0, SP, temporary(d)),
            lw(A0, A0, 0),
            lw(A1, A0, 4),
            lw(A0, T1, 4),
        ])?;
        self.words(&[beq(A0, ZERO, 32), beq(A1, ZERO, 28)])
    }

    /// `a0` says whether the number in `a1` is one of those of the type's subclasses, from the number in `a0` on.
    #[tactic(auto, using(crate::proofs::Rules::line_rules), unfolding(crate::specs::function::Pieces::preorder_test))]
    fn preorder_test(&mut self) -> Result<(), AllocError>
        ensures { OnOk result (lines_of self.new ≡ lines_of self.old ++ pieces.preorder_test) }
    {
        self.words(&[
            bltu(A1, A0, 16),
            lw(A0, T1, 8),
            sltu(A0, A1, A0),
            jal(ZERO, 28),
        ])?;
        self.words(&[addi(A0, ZERO, 0), jal(ZERO, 20)])
    }

    /// `a0` takes what the service says of the object in a temporary.
    #[tactic(auto, using(crate::proofs::Rules::line_rules), unfolding(bcj_lower_rules::specs::Words::service, crate::specs::function::Pieces::service_test))]
    fn service_test(&mut self, d: u16) -> Result<(), AllocError>
        ensures { OnOk result (lines_of self.new ≡ lines_of self.old ++ pieces.service_test d) }
    {
        self.words(&[lw(A0, SP, temporary(d)), addi(A1, T1, 0)])?;
        self.service(services::CAST)
    }

    /// `a0` says whether the object in a temporary is an instance of the type whose row is in `t1`.
    #[tactic(auto, using(crate::proofs::Rules::instance_rules))]
    pub fn instance_test(&mut self, d: u16) -> Result<(), AllocError>
        ensures { OnOk result (lines_of self.new ≡ lines_of self.old ++ w.instance_test d) }
    {
        self.preorder_numbers(d)?;
        self.preorder_test()?;
        self.service_test(d)
    }

    /// A cast throws where the test before said no.
    #[tactic(auto, using(crate::proofs::Rules::line_rules), unfolding(bcj_lower_rules::specs::Words::cast_test))]
    pub fn cast_test(&mut self) -> Result<(), AllocError>
        ensures { OnOk result (lines_of self.new ≡ lines_of self.old ++ w.cast_test) }
    {
        self.word(bne(A0, ZERO, 16))?;
        self.fail(exceptions::CAST)
    }
}
