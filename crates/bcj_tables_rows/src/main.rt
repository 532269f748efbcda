//! Rows of class records from standard input: what is said to come of reading them, compared with what comes.
#![tactic(auto)]

mod number;
mod object;
mod report;
mod row;

use crate::report::Report;
use crate::row::{Bench, Line};
use std::io;
use std::process::ExitCode;

fn main(rt: HostRuntime) -> io::Result<ExitCode> {
    let text = io::read_to_string(rt.alloc(), rt.stdin())?;
    let mut report = Report::new();
    let mut bench = Bench::new(rt.alloc());
    for line in text.as_str().lines() {
        report.pass();
        match bench.take(rt.alloc(), line) {
            Some(Line::Title(title)) => report.begin(&rt, title)?,
            Some(Line::Passed) => {}
            Some(Line::Row { wanted, came }) => report.count(&rt, line, wanted, came.as_str())?,
            None => report.count(&rt, line, "a row", "none")?,
        }
    }
    report.end(&rt)
}
