//! Entries of the tables, and the class's own region.
#![tactic(auto, using(crate::proofs::Rules::line_rules))]

ghost use Rattle.std.specs.Prelude.{◌≡◌, ◌++◌, OnOk};
ghost use Rattle.bcj_symbolic_measure.specs.function.Counts.{entry_of};
ghost use Rattle.bcj_lower_rules.specs.Words as w;
ghost use Rattle.bcj_lower_words.specs.Views.{address_of, lines_of};

use crate::instructions::{addi, beq, bne, jalr, lui, lw};
use crate::line::Address;
use crate::lines::Lines;
use bcj_lower_rules::Half;
use bcj_symbolic_measure::Entry;
use rv_isa::registers::{A0, A1, RA, T1, ZERO};
use rv_steps::services;
use std::alloc::AllocError;

impl<'a> Lines<'a> {
    /// A register takes an address.
    fn address_in(&mut self, r: u8, address: Address<'a>) -> Result<(), AllocError>
        ensures { OnOk result (lines_of self.new ≡ lines_of self.old ++ w.address_in r (address_of address.entry)) }
    {
        self.with_half(Half::Upper, address, lui(r, 0))?;
        self.with_half(Half::Lower, address, addi(r, r, 0))
    }

    /// The use of an entry: `a0` takes its address and `t1` what it says; where it says nothing, linking fails.
    #[tactic(auto, using(crate::proofs::Rules::line_rules), unfolding(bcj_lower_rules::specs::Words::use_entry, bcj_lower_rules::specs::Words::service))]
    pub fn use_entry(&mut self, used: Entry<'a>) -> Result<(), AllocError>
        ensures { OnOk result (lines_of self.new ≡ lines_of self.old ++ w.use_entry (entry_of used.entry)) }
    {
        self.address_in(A0, Address::Entry(used))?;
        self.words(&[lw(T1, A0, 0), bne(T1, ZERO, 12)])?;
        self.service(services::LINK_FAILURE)
    }

    /// The class of the entry at `a0` is initialised.
    #[tactic(auto, using(crate::proofs::Rules::line_rules), unfolding(bcj_lower_rules::specs::Words::initialise, bcj_lower_rules::specs::Words::service))]
    pub fn initialise(&mut self) -> Result<(), AllocError>
        ensures { OnOk result (lines_of self.new ≡ lines_of self.old ++ w.initialise) }
    {
        self.service(services::INIT_BEGIN)?;
        self.words(&[beq(A0, ZERO, 8), jalr(RA, A0, 0)])
    }

    /// `t1` takes what an entry says that was used before.
    #[tactic(auto, using(crate::proofs::Rules::line_rules), unfolding(bcj_lower_rules::specs::Words::fetch_entry))]
    pub fn fetch_entry(&mut self, used: Entry<'a>) -> Result<(), AllocError>
        ensures { OnOk result (lines_of self.new ≡ lines_of self.old ++ w.fetch_entry (entry_of used.entry)) }
    {
        let address = Address::Entry(used);
        self.with_half(Half::Upper, address, lui(T1, 0))?;
        self.with_half(Half::Lower, address, lw(T1, T1, 0))
    }

    /// An entry is used, initialised and fetched.
    #[tactic(auto, using(crate::proofs::Rules::line_rules), unfolding(bcj_lower_rules::specs::Words::initialised))]
    pub fn initialised(&mut self, used: Entry<'a>) -> Result<(), AllocError>
        ensures { OnOk result (lines_of self.new ≡ lines_of self.old ++ w.initialised (entry_of used.entry)) }
    {
        self.use_entry(used)?;
        self.initialise()?;
        self.fetch_entry(used)
    }

    /// The address of the class's own region, in `a0`.
    #[tactic(auto, using(crate::proofs::Rules::line_rules), unfolding(bcj_lower_rules::specs::Words::region_first))]
    pub fn region_first(&mut self) -> Result<(), AllocError>
        ensures { OnOk result (lines_of self.new ≡ lines_of self.old ++ w.region_first) }
    {
        self.address_in(A0, Address::Region)
    }

    /// The address of the class's own region, in `a1`.
    #[tactic(auto, using(crate::proofs::Rules::line_rules), unfolding(bcj_lower_rules::specs::Words::region_second))]
    pub fn region_second(&mut self) -> Result<(), AllocError>
        ensures { OnOk result (lines_of self.new ≡ lines_of self.old ++ w.region_second) }
    {
        self.address_in(A1, Address::Region)
    }
}
