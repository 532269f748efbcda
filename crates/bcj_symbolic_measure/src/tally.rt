//! The counts of a class, kept while a walk goes over it.
#![tactic(auto, using(crate::proofs::Rules::tally_rules))]

ghost use Rattle.std.specs.Prelude.{◌≡◌, [], ◌∷◌, length, OnOk};
ghost use Rattle.bcj_symbolic_measure.specs.Scheme.{copy, copy_with_target, plain, usage, fetch, region, handled};
ghost use Rattle.bcj_symbolic_measure.specs.function.Counts as spec;

use crate::entry::Entry;
use crate::scheme::{ADDRESS, FETCH, USE};
use crate::totals::plus;
use indexmap::IndexSet;
use std::alloc::{AllocError, Global};

/// Words of the open body; of the closed ones all words and the most; relocations, bytes of ranges, and entries.
#[derive(Drop)]
pub struct Tally<'a> {
    pub words: u64,
    pub text: u64,
    pub largest: u64,
    pub relocations: u64,
    pub ranges: u64,
    pub entries: IndexSet<Entry<'a>>,
}

/// Of an address.
const RELOCATIONS: u64 = 2;

/// Of the record of a range, but for the bytes of its class.
const RANGE_SIZE: u64 = 20;

/// The copy of one argument, or of a target.
const ARGUMENT: u64 = 2;

impl<'a> Tally<'a> {
    pub fn new(alloc: Global) -> Tally<'a>
        ensures { spec.counts_of result ≡ spec.fresh }
    {
        Tally {
            words: 0,
            text: 0,
            largest: 0,
            relocations: 0,
            ranges: 0,
            entries: IndexSet::new(alloc),
        }
    }

    /// Adds words that name no entry.
    #[tactic(auto, using(crate::proofs::Rules::tally_rules), unfolding(crate::specs::function::Counts::noted, crate::specs::function::Counts::counted, crate::specs::function::Counts::worded))]
    pub fn plain(&mut self, words: u64)
        ensures { spec.counts_of self.new ≡ spec.noted (spec.counts_of self.old) (plain words ∷ []) }
    {
        self.words = plus(self.words, words);
    }

    /// Adds the copy of so many arguments for a callee.
    #[tactic(auto, using(crate::proofs::Rules::tally_rules), unfolding(crate::specs::function::Counts::noted, crate::specs::function::Counts::counted, crate::specs::function::Counts::worded))]
    pub fn copy(&mut self, count: usize)
        ensures { spec.counts_of self.new ≡ spec.noted (spec.counts_of self.old) (plain (copy count) ∷ []) }
    {
        self.words = plus(plus(self.words, count as u64), count as u64);
    }

    /// Adds the copy of a target and so many arguments.
    #[tactic(auto, using(crate::proofs::Rules::tally_rules), unfolding(crate::specs::function::Counts::noted, crate::specs::function::Counts::counted, crate::specs::function::Counts::worded))]
    pub fn copy_with_target(&mut self, count: usize)
        ensures { spec.counts_of self.new ≡ spec.noted (spec.counts_of self.old) (plain (copy_with_target count) ∷ []) }
    {
        self.words = plus(plus(plus(self.words, ARGUMENT), count as u64), count as u64);
    }

    /// Adds words that set the address of an entry.
    #[tactic(auto, using(crate::proofs::Rules::tally_rules), unfolding(crate::specs::function::Counts::entered))]
    fn name_entry(&mut self, words: u64, used: Entry<'a>) -> Result<(), AllocError>
        ensures { OnOk result (spec.counts_of self.new ≡ spec.entered (spec.counts_of self.old) words (spec.entry_of used.entry)) }
    {
        self.words = plus(self.words, words);
        self.relocations = plus(self.relocations, RELOCATIONS);
        self.entries.insert(used)?;
        Ok(())
    }

    /// Adds the use of an entry.
    #[tactic(auto, using(crate::proofs::Rules::tally_rules), unfolding(crate::specs::function::Counts::noted, crate::specs::function::Counts::counted))]
    pub fn usage(&mut self, used: Entry<'a>) -> Result<(), AllocError>
        ensures { OnOk result (spec.counts_of self.new ≡ spec.noted (spec.counts_of self.old) (usage (spec.entry_of used.entry) ∷ [])) }
    {
        self.name_entry(USE, used)
    }

    /// Adds the load of an entry.
    #[tactic(auto, using(crate::proofs::Rules::tally_rules), unfolding(crate::specs::function::Counts::noted, crate::specs::function::Counts::counted))]
    pub fn fetch(&mut self, used: Entry<'a>) -> Result<(), AllocError>
        ensures { OnOk result (spec.counts_of self.new ≡ spec.noted (spec.counts_of self.old) (fetch (spec.entry_of used.entry) ∷ [])) }
    {
        self.name_entry(FETCH, used)
    }

    /// Adds the address of the class's own region.
    #[tactic(auto, using(crate::proofs::Rules::tally_rules), unfolding(crate::specs::function::Counts::noted, crate::specs::function::Counts::counted, crate::specs::function::Counts::located))]
    pub fn region(&mut self)
        ensures { spec.counts_of self.new ≡ spec.noted (spec.counts_of self.old) (region ∷ []) }
    {
        self.words = plus(self.words, ADDRESS);
        self.relocations = plus(self.relocations, RELOCATIONS);
    }

    /// Adds the range of a catch; the class has so many bytes.
    #[tactic(auto, using(crate::proofs::Rules::tally_rules), unfolding(crate::specs::function::Counts::noted, crate::specs::function::Counts::counted, crate::specs::function::Counts::ranged))]
    pub fn handled(&mut self, class: &str)
        ensures { spec.counts_of self.new ≡ spec.noted (spec.counts_of self.old) (handled class.now ∷ []) }
    {
        self.ranges = plus(plus(self.ranges, RANGE_SIZE), class.len() as u64);
    }

    /// How many entries there are.
    #[tactic(auto, using(crate::proofs::Rules::count_rules))]
    pub fn entry_count(&self) -> u64
        ensures { result ≡ length (spec.counts_of self.now).entries }
    {
        self.entries.len() as u64
    }

    /// Ends a body.
    #[tactic(auto, using(crate::proofs::Rules::tally_rules), unfolding(crate::specs::function::Counts::closed, crate::specs::Totals::larger))]
    pub fn close(&mut self)
        ensures { spec.counts_of self.new ≡ spec.closed (spec.counts_of self.old) }
    {
        self.text = plus(self.text, self.words);
        self.largest = self.largest.max(self.words);
        self.words = 0;
    }
}
