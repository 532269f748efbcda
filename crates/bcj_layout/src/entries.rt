//! The entries of all tables, and the entries at addresses.

ghost use Rattle.std.specs.Prelude.{◌≡◌, ◌≤◌, ◌<◌, ◌+◌, ◌*◌, ◌^◌, ℕ, None, Some, MatchOption, IfSome, length, slice_get};
ghost use Rattle.std.specs.Option.{option_map};
ghost use Rattle.bcj_hier_rules.specs.declared.class_id.ClassId.{ClassId};
ghost use Rattle.bcj_hier_rules.specs.Heads.{IsIn, name_of};
ghost use Rattle.bcj_layout_rules.specs.Rows.{Classes};
ghost use Rattle.bcj_layout_rules.specs.Places.{word_size};
ghost use Rattle.bcj_layout_resolution.specs.Places.{heads_in};
ghost use Rattle.bcj_layout_entries.specs.Entries.{named_class, IsAmong};
ghost use Rattle.bcj_layout.specs.declared.entry_id.EntryId.{EntryId};
ghost use Rattle.bcj_layout.specs.EntryPlaces as entries;

use crate::entry_id::EntryId;
use crate::layout::Layout;
use bcj_hier_rules::ClassId;
use bcj_layout_entries::{Entry, EntryWord};
use bcj_layout_rules::Table;
use bcj_tables_rules::ClassRecord;

/// The bytes of a word.
const WORD_SIZE: u32 = 4;

/// How many entries of a class stand before those of a table.
fn entries_before(record: &ClassRecord, table: Table) -> usize
    requires { entries.entry_count record.now < 2 ^ 64 }
    ensures { result ≡ entries.entries_before record.now table }
{
    match table {
        Table::Ctable => 0,
        Table::Otable => record.ctable.len(),
        Table::Atable => record.ctable.len() + record.otable.len(),
        Table::Itable => record.ctable.len() + record.otable.len() + record.atable.len(),
    }
}

/// How many entries of the start's region stand before those of a table.
fn start_before(table: Table) -> usize
    ensures { result ≡ entries.start_before table }
{
    match table {
        Table::Ctable => 0,
        Table::Otable => 2,
        Table::Atable => 2,
        Table::Itable => 3,
    }
}

/// The table of the entry with this number among those of a class, and the number there.
fn place_in(record: &ClassRecord, number: usize) -> Option<(Table, usize)>
    ensures { MatchOption result (entries.entry_count record.now ≤ number) (λ p. entries.IsPlaceIn record.now number p.0 p.1) }
{
    let ctable = record.ctable.len();
    if number < ctable {
        return Some((Table::Ctable, number));
    }
    let otable = record.otable.len();
    let in_otable = number - ctable;
    if in_otable < otable {
        return Some((Table::Otable, in_otable));
    }
    let atable = record.atable.len();
    let in_atable = in_otable - otable;
    if in_atable < atable {
        return Some((Table::Atable, in_atable));
    }
    let itable = record.itable.len();
    let in_itable = in_atable - atable;
    if in_itable < itable {
        return Some((Table::Itable, in_itable));
    }
    None
}

/// How many words an address stands behind another, where it stands whole words behind it.
fn words_behind(first: u32, at: u32) -> Option<u32>
    ensures { MatchOption result ((n : ℕ) → first + word_size * n ≡ at → ⊥) (λ n. first + word_size * n ≡ at) }
{
    if at < first {
        return None;
    }
    let bytes = at - first;
    if bytes % WORD_SIZE == 0 {
        Some(bytes / WORD_SIZE)
    } else {
        None
    }
}

/// The entry of the start's region with this number among its entries.
fn start_entry(number: u32) -> Option<EntryId>
    ensures { (cs : Classes) → MatchOption result ((e : EntryId) → entries.IsNumbered cs None number e → ⊥) (entries.IsNumbered cs None number) }
{
    let (table, index) = match number {
        0 => (Table::Ctable, 0),
        1 => (Table::Ctable, 1),
        2 => (Table::Atable, 0),
        _ => return None,
    };
    Some(EntryId {
        class: None,
        table,
        index,
    })
}

impl Layout {
    /// The entries of the region of a class, or of the start's, in their order.
    fn region_entries(&self, class: Option<ClassId>) -> &[Entry]
        requires { IfSome class (IsIn (heads_in self.now.classes)) }
        ensures { entries.AreEntriesIn self.now.classes self.now.main class result.now }
    {
        match class {
            None => self.start_entries(),
            Some(c) => self.entries(c),
        }
    }

    /// The record of a class.
    fn class_record(&self, c: ClassId) -> &ClassRecord
        requires { IsIn (heads_in self.now.classes) c }
        ensures { slice_get self.now.classes c.0 ≡ Some result.now }
    {
        &self.resolver.records().classes.as_slice()[c.0 as usize]
    }

    /// The number of an entry among the entries of its region.
    fn entry_number(&self, e: EntryId) -> usize
        requires is_entry { entries.IsEntry self.now.classes e }
        requires few { length (entries.results_in self.now.classes self.now.main e.class) < 2 ^ 64 }
        ensures { result ≡ entries.entry_number self.now.classes e }
    {
        match e.class {
            None => start_before(e.table) + e.index as usize,
            Some(c) => entries_before(self.class_record(c), e.table) + e.index as usize,
        }
    }

    /// An entry with its word and its class.
    fn entry_of(&self, e: EntryId) -> Entry
        requires { entries.IsEntry self.now.classes e }
        ensures word { entries.entry_result self.now.classes self.now.main e ≡ Some result.word }
        ensures class { entries.class_of_entry self.now.classes self.now.main e ≡ Some (named_class self.now.classes result) }
        ensures among { IsAmong self.now.classes result }
    {
        let entries = self.region_entries(e.class);
        let _count = entries.len();
        entries[self.entry_number(e)]
    }

    /// The word that linking writes for an entry, or the error of what the entry names.
    pub fn entry(&self, e: EntryId) -> EntryWord
        requires { entries.IsEntry self.now.classes e }
        ensures { entries.entry_result self.now.classes self.now.main e ≡ Some result }
    {
        self.entry_of(e).word
    }

    /// The class of a resolved entry of a class table that is of no array type, or the declaring class of a resolved entry of an address
    /// table.
    pub fn entry_class(&self, e: EntryId) -> Option<ClassId>
        requires { entries.IsEntry self.now.classes e }
        ensures class { entries.class_of_entry self.now.classes self.now.main e ≡ Some (option_map (name_of (heads_in self.now.classes)) result) }
        ensures among { IfSome result (IsIn (heads_in self.now.classes)) }
    {
        self.entry_of(e).class
    }

    /// The entry of a class with this number among its entries.
    fn class_entry(&self, c: ClassId, number: u32) -> Option<EntryId>
        requires { IsIn (heads_in self.now.classes) c }
        ensures { MatchOption result ((e : EntryId) → entries.IsNumbered self.now.classes (Some c) number e → ⊥) (entries.IsNumbered self.now.classes (Some c) number) }
    {
        match place_in(self.class_record(c), number as usize) {
            None => None,
            Some((table, index)) => Some(EntryId {
                class: Some(c),
                table,
                index: index as u32,
            }),
        }
    }

    /// The entry of a class at an address. The first word of its region is the address of its class initialiser.
    fn class_entry_at(&self, c: ClassId, at: u32) -> Option<EntryId>
        requires { IsIn (heads_in self.now.classes) c }
        ensures { MatchOption result ((e : EntryId) → e.class ≡ Some c → entries.StandsAt self.now.classes self.now.main at e → ⊥) (entries.StandsAt self.now.classes self.now.main at) }
    {
        match words_behind(self.region(c), at) {
            None => None,
            Some(0) => None,
            Some(words) => self.class_entry(c, words - 1),
        }
    }

    /// The entry of any class at an address.
    fn classes_entry_at(&self, at: u32) -> Option<EntryId>
        ensures { MatchOption result ((c : ClassId) (e : EntryId) → e.class ≡ Some c → entries.StandsAt self.now.classes self.now.main at e → ⊥) (entries.StandsAt self.now.classes self.now.main at) }
    {
        let count = self.hier().len();
        for k in 0..count {
            if let Some(e) = self.class_entry_at(ClassId(k as u32), at) {
                return Some(e);
            }
        }
        None
    }

    /// The entry of the start's region at an address.
    fn start_entry_at(&self, at: u32) -> Option<EntryId>
        ensures { MatchOption result ((e : EntryId) → e.class ≡ None → entries.StandsAt self.now.classes self.now.main at e → ⊥) (entries.StandsAt self.now.classes self.now.main at) }
    {
        match words_behind(self.tables(), at) {
            None => None,
            Some(words) => start_entry(words),
        }
    }

    /// The entry at an address.
    pub fn entry_at(&self, at: u32) -> Option<EntryId>
        ensures { MatchOption result ((e : EntryId) → entries.StandsAt self.now.classes self.now.main at e → ⊥) (entries.StandsAt self.now.classes self.now.main at) }
    {
        match self.start_entry_at(at) {
            None => self.classes_entry_at(at),
            Some(e) => Some(e),
        }
    }
}
