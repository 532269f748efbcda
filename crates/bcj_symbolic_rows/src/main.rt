//! Rows of symbolic units from standard input: what the boot unit has, where the first node without a rule stands and what a
//! unit measures, each compared with what is said to come.
#![tactic(auto)]

mod answer;
mod class_text;
mod code;
mod leaves;
mod members;
mod report;
mod row;
mod unit;

use crate::report::Report;
use crate::row::{Bench, Line};
use std::io;
use std::process::ExitCode;

fn main(rt: HostRuntime) -> io::Result<ExitCode> {
    let text = io::read_to_string(rt.alloc(), rt.stdin())?;
    let mut report = Report::new();
    let mut bench = Bench::new();
    for line in text.as_str().lines() {
        report.pass();
        match bench.take(rt.alloc(), line) {
            Some(Line::Title(title)) => report.begin(&rt, title)?,
            Some(Line::Passed) => {}
            Some(Line::Row { wanted, came }) => report.count(&rt, line, wanted, came.as_str())?,
            None => report.count(&rt, line, "a row", "none")?,
        }
    }
    report.end(&rt)
}
