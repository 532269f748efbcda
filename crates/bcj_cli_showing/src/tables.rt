//! The tables of a class record, line by line.

ghost use Rattle.std.specs.Prelude.{◌≡◌, ◌++◌, OnOk, codes};
ghost use Rattle.bcj_cli_showing.specs.Lines.{atable_line, ctable_line, itable_line, member, otable_line, type_use};
ghost use Rattle.bcj_cli_showing.specs.Text.{numbered, table_lines};

use crate::writer::Writer;
use bcj_names::Name;
use bcj_tables_rules::{AEntry, CEntry, ClassRecord, IEntry, OEntry};
use std::alloc::AllocError;

/// What an entry does with its type.
fn type_use(entry: &CEntry) -> &'static str
    ensures { result.now ≡ type_use entry.now }
{
    if entry.is_new { "new" } else { "type" }
}

impl Writer {
    /// Adds a member of a class as the last word of a line.
    #[tactic(auto, using(crate::proofs::Rules::line_rules))]
    fn member(&mut self, class: &Name, name: &Name, desc: &Name) -> Result<(), AllocError>
        ensures { OnOk result (self.new ≡ self.old ++ (member class.now name.now desc.now ++ codes "\n")) }
    {
        self.text(class.as_str())?;
        self.text(".")?;
        self.text(name.as_str())?;
        self.text(":")?;
        self.last(desc.as_str())
    }

    #[tactic(auto, using(crate::proofs::Rules::line_rules), unfolding(crate::specs::Lines::ctable_line))]
    fn ctable_entry(&mut self, at: usize, entry: &CEntry) -> Result<(), AllocError>
        ensures { OnOk result (self.new ≡ self.old ++ ctable_line at entry.now) }
    {
        self.word("ctable")?;
        self.number(at)?;
        self.word(type_use(entry))?;
        self.last(entry.ty.as_str())
    }

    #[tactic(auto, using(crate::proofs::Rules::table_rules))]
    fn ctable(&mut self, entries: &[CEntry]) -> Result<(), AllocError>
        ensures { OnOk result (self.new ≡ self.old ++ numbered ctable_line 0 entries.now) }
    {
        for (at, entry) in entries.iter().enumerate() {
            self.ctable_entry(at, entry)?;
        }
        Ok(())
    }

    #[tactic(auto, using(crate::proofs::Rules::line_rules), unfolding(crate::specs::Lines::otable_line))]
    fn otable_entry(&mut self, at: usize, entry: &OEntry) -> Result<(), AllocError>
        ensures { OnOk result (self.new ≡ self.old ++ otable_line at entry.now) }
    {
        self.word("otable")?;
        self.number(at)?;
        self.member(&entry.class, &entry.name, &entry.desc)
    }

    #[tactic(auto, using(crate::proofs::Rules::table_rules))]
    fn otable(&mut self, entries: &[OEntry]) -> Result<(), AllocError>
        ensures { OnOk result (self.new ≡ self.old ++ numbered otable_line 0 entries.now) }
    {
        for (at, entry) in entries.iter().enumerate() {
            self.otable_entry(at, entry)?;
        }
        Ok(())
    }

    #[tactic(auto, using(crate::proofs::Rules::line_rules), unfolding(crate::specs::Lines::atable_line))]
    fn atable_entry(&mut self, at: usize, entry: &AEntry) -> Result<(), AllocError>
        ensures { OnOk result (self.new ≡ self.old ++ atable_line at entry.now) }
    {
        self.word("atable")?;
        self.number(at)?;
        self.member(&entry.class, &entry.name, &entry.desc)
    }

    #[tactic(auto, using(crate::proofs::Rules::table_rules))]
    fn atable(&mut self, entries: &[AEntry]) -> Result<(), AllocError>
        ensures { OnOk result (self.new ≡ self.old ++ numbered atable_line 0 entries.now) }
    {
        for (at, entry) in entries.iter().enumerate() {
            self.atable_entry(at, entry)?;
        }
        Ok(())
    }

    #[tactic(auto, using(crate::proofs::Rules::line_rules), unfolding(crate::specs::Lines::itable_line))]
    fn itable_entry(&mut self, at: usize, entry: &IEntry) -> Result<(), AllocError>
        ensures { OnOk result (self.new ≡ self.old ++ itable_line at entry.now) }
    {
        self.word("itable")?;
        self.number(at)?;
        self.member(&entry.class, &entry.name, &entry.desc)
    }

    #[tactic(auto, using(crate::proofs::Rules::table_rules))]
    fn itable(&mut self, entries: &[IEntry]) -> Result<(), AllocError>
        ensures { OnOk result (self.new ≡ self.old ++ numbered itable_line 0 entries.now) }
    {
        for (at, entry) in entries.iter().enumerate() {
            self.itable_entry(at, entry)?;
        }
        Ok(())
    }

    /// Adds the lines of the four tables of a class.
    #[tactic(auto, using(crate::proofs::Rules::line_rules), unfolding(crate::specs::Text::table_lines))]
    pub(crate) fn tables(&mut self, record: &ClassRecord) -> Result<(), AllocError>
        ensures { OnOk result (self.new ≡ self.old ++ table_lines record.now) }
    {
        self.ctable(record.ctable.as_slice())?;
        self.otable(record.otable.as_slice())?;
        self.atable(record.atable.as_slice())?;
        self.itable(record.itable.as_slice())
    }
}
