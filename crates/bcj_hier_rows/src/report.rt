//! What is said of the rows.
use std::io;
use std::process::ExitCode;

/// Counts rows, those of each section apart.
#[derive(Drop)]
pub struct Report<'a> {
    title: &'a str,
    /// The lines so far.
    lines: u64,
    /// The rows of the section.
    rows: u64,
    all: u64,
    differing: u64,
}

impl<'a> Report<'a> {
    pub fn new() -> Report<'a> {
        Report {
            title: "",
            lines: 0,
            rows: 0,
            all: 0,
            differing: 0,
        }
    }

    /// Begins a line.
    pub fn pass(&mut self) {
        self.lines = self.lines.saturating_add(1);
    }

    /// Ends a section and begins another.
    pub fn begin(&mut self, rt: &impl Print, title: &'a str) -> io::Result<()> {
        self.close(rt)?;
        self.title = title;
        self.rows = 0;
        Ok(())
    }

    fn close(&self, rt: &impl Print) -> io::Result<()> {
        let title = self.title;
        let rows = self.rows;
        if rows == 0 {
            return Ok(());
        }
        println!(rt; "{title}: {rows} rows")
    }

    /// Counts a row, and prints it where it differs.
    pub fn count(
        &mut self,
        rt: &impl Print,
        row: &str,
        wanted: &str,
        came: &str,
    ) -> io::Result<()> {
        self.rows = self.rows.saturating_add(1);
        self.all = self.all.saturating_add(1);
        if wanted == came {
            return Ok(());
        }
        self.differing = self.differing.saturating_add(1);
        let line = self.lines;
        println!(rt; "differs: line {line}: {row}: expected {wanted}, came {came}")
    }

    /// Ends the last section, and says how many rows differ in all.
    pub fn end(&self, rt: &impl Print) -> io::Result<ExitCode> {
        self.close(rt)?;
        let all = self.all;
        let differing = self.differing;
        if all > 0 && differing == 0 {
            println!(rt; "{all} rows, none differs")?;
            return Ok(ExitCode::SUCCESS);
        }
        println!(rt; "{all} rows, {differing} differ")?;
        Ok(ExitCode::FAILURE)
    }
}
