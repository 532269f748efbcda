//! Class records, line by line.

ghost use Rattle.std.specs.Prelude.{◌≡◌, ◌++◌, OnOk};
ghost use Rattle.std.specs.List.{flat_map};
ghost use Rattle.bcj_cli_showing.specs.Lines.{caught, class_line, field_line, method_line, pair_line, range_line};
ghost use Rattle.bcj_cli_showing.specs.Text.{record_lines};

use crate::writer::Writer;
use bcj_tables_rules::{ClassRecord, FieldRecord, MethodRecord, PairRecord, Range};
use std::alloc::AllocError;

/// The class that a range catches.
fn caught(range: &Range) -> &str
    ensures { result.now ≡ caught range.now.class }
{
    match &range.class {
        Some(class) => class.as_str(),
        None => "any",
    }
}

impl Writer {
    #[tactic(auto, using(crate::proofs::Rules::line_rules), unfolding(crate::specs::Lines::field_line))]
    fn field(&mut self, field: &FieldRecord) -> Result<(), AllocError>
        ensures { OnOk result (self.new ≡ self.old ++ field_line field.now) }
    {
        self.word("field")?;
        self.word(field.name.as_str())?;
        self.last(field.ty.as_str())
    }

    #[tactic(auto, using(crate::proofs::Rules::list_rules))]
    fn fields(&mut self, fields: &[FieldRecord]) -> Result<(), AllocError>
        ensures { OnOk result (self.new ≡ self.old ++ flat_map field_line fields.now) }
    {
        for field in fields {
            self.field(field)?;
        }
        Ok(())
    }

    #[tactic(auto, using(crate::proofs::Rules::line_rules), unfolding(crate::specs::Lines::method_line))]
    fn method(&mut self, method: &MethodRecord) -> Result<(), AllocError>
        ensures { OnOk result (self.new ≡ self.old ++ method_line method.now) }
    {
        self.word("method")?;
        self.word(method.name.as_str())?;
        self.word(method.desc.as_str())?;
        self.number(method.entry as usize)?;
        self.number(method.words as usize)?;
        self.last_number(method.frame as usize)
    }

    #[tactic(auto, using(crate::proofs::Rules::list_rules))]
    fn methods(&mut self, methods: &[MethodRecord]) -> Result<(), AllocError>
        ensures { OnOk result (self.new ≡ self.old ++ flat_map method_line methods.now) }
    {
        for method in methods {
            self.method(method)?;
        }
        Ok(())
    }

    #[tactic(auto, using(crate::proofs::Rules::line_rules), unfolding(crate::specs::Lines::range_line))]
    fn range(&mut self, range: &Range) -> Result<(), AllocError>
        ensures { OnOk result (self.new ≡ self.old ++ range_line range.now) }
    {
        self.word("range")?;
        self.number(range.method as usize)?;
        self.number(range.start as usize)?;
        self.number(range.end as usize)?;
        self.number(range.target as usize)?;
        self.last(caught(range))
    }

    #[tactic(auto, using(crate::proofs::Rules::list_rules))]
    fn ranges(&mut self, ranges: &[Range]) -> Result<(), AllocError>
        ensures { OnOk result (self.new ≡ self.old ++ flat_map range_line ranges.now) }
    {
        for range in ranges {
            self.range(range)?;
        }
        Ok(())
    }

    #[tactic(auto, using(crate::proofs::Rules::line_rules), unfolding(crate::specs::Lines::pair_line))]
    fn pair(&mut self, pair: &PairRecord) -> Result<(), AllocError>
        ensures { OnOk result (self.new ≡ self.old ++ pair_line pair.now) }
    {
        self.word("pair")?;
        self.word(pair.from.as_str())?;
        self.last(pair.to.as_str())
    }

    #[tactic(auto, using(crate::proofs::Rules::list_rules))]
    fn pairs(&mut self, pairs: &[PairRecord]) -> Result<(), AllocError>
        ensures { OnOk result (self.new ≡ self.old ++ flat_map pair_line pairs.now) }
    {
        for pair in pairs {
            self.pair(pair)?;
        }
        Ok(())
    }

    #[tactic(auto, using(crate::proofs::Rules::line_rules), unfolding(crate::specs::Lines::class_line))]
    fn class(&mut self, name: &str) -> Result<(), AllocError>
        ensures { OnOk result (self.new ≡ self.old ++ class_line name.now) }
    {
        self.word("class")?;
        self.last(name)
    }

    #[tactic(auto, using(crate::proofs::Rules::line_rules), unfolding(crate::specs::Text::record_lines))]
    fn record(&mut self, record: &ClassRecord) -> Result<(), AllocError>
        ensures { OnOk result (self.new ≡ self.old ++ record_lines record.now) }
    {
        self.class(record.head.name.as_str())?;
        self.fields(record.fields.as_slice())?;
        self.methods(record.methods.as_slice())?;
        self.ranges(record.ranges.as_slice())?;
        self.pairs(record.pairs.as_slice())?;
        self.tables(record)
    }

    /// Adds the lines of class records.
    #[tactic(auto, using(crate::proofs::Rules::list_rules))]
    pub(crate) fn records(&mut self, records: &[ClassRecord]) -> Result<(), AllocError>
        ensures { OnOk result (self.new ≡ self.old ++ flat_map record_lines records.now) }
    {
        for record in records {
            self.record(record)?;
        }
        Ok(())
    }
}
