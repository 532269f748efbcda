//! The entries of a table, numbered by first use.
#![tactic(auto, using(crate::proofs::Rules::table_rules))]

ghost use Rattle.std.specs.Prelude.{◌≡◌, [], length, map, position, OnOk, OnErr};
ghost use Rattle.bcj_symbolic_measure.specs.Entries.{same_entry, with_entry};
ghost use Rattle.bcj_symbolic_measure.specs.function.Counts.{entry_of};
ghost use Rattle.bcj_symbolic_measure.specs.function.Noted.{noted_in};

use crate::entry::Entry;
use indexmap::IndexSet;
use std::alloc::{AllocError, Global};

/// Entries that were noted, each once, in the order of their first notes.
#[derive(Drop)]
pub struct EntryTable<'a> {
    noted: IndexSet<Entry<'a>>,
}

impl<'a> EntryTable<'a> {
    /// No entries yet.
    pub fn new(alloc: Global) -> EntryTable<'a>
        ensures { noted_in result ≡ [] }
    {
        EntryTable {
            noted: IndexSet::new(alloc),
        }
    }

    /// Notes a use: an entry that isn't there yet goes behind the others.
    pub fn note(&mut self, used: Entry<'a>) -> Result<(), AllocError>
        ensures { OnOk result (noted_in self.new ≡ with_entry (noted_in self.old) (entry_of used.entry)) }
    {
        self.noted.insert(used)?;
        Ok(())
    }

    /// The number of an entry, from 0. It takes no memory.
    pub fn number(&self, used: Entry<'a>) -> Option<usize>
        ensures { result ≡ position (same_entry (entry_of used.entry)) (noted_in self.now) }
    {
        self.noted.get_index_of(&used)
    }

    /// How many entries there are. It takes no memory.
    pub fn len(&self) -> usize
        ensures { result ≡ length (noted_in self.now) }
    {
        self.noted.len()
    }

    /// The entries in order. It takes no memory.
    pub fn as_slice(&self) -> &[Entry<'a>]
        ensures { map entry_of result.now ≡ noted_in self.now }
    {
        self.noted.as_slice()
    }
}
