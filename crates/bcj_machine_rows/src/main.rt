//! Rows of the instruction set, the machine, the assembler and object files, from standard input: what each is said to give,
//! compared with what it gives.
#![tactic(auto)]

mod assembling;
mod number;
mod object;
mod report;
mod row;
mod running;

use crate::report::Report;
use crate::row::{Bench, Line};
use std::io;
use std::process::ExitCode;

/// Takes a line, and compares where it is a row.
fn take<'a, R: Print + AllocGlobal>(
    rt: &R,
    report: &mut Report<'a>,
    bench: &mut Bench,
    line: &'a str,
) -> io::Result<()> {
    report.pass();
    match bench.take(rt.alloc(), line) {
        Some(Line::Title(title)) => report.begin(rt, title),
        Some(Line::Passed) => Ok(()),
        Some(Line::Row { wanted, came }) if came.is_empty() => {
            report.count(rt, line, wanted, "nothing")
        }
        Some(Line::Row { wanted, came }) => report.count(rt, line, wanted, came.as_str()),
        None => report.count(rt, line, "a row", "none"),
    }
}

fn main(rt: HostRuntime) -> io::Result<ExitCode> {
    let text = io::read_to_string(rt.alloc(), rt.stdin())?;
    let mut report = Report::new();
    let mut bench = Bench::new(rt.alloc());
    for line in text.as_str().lines() {
        take(&rt, &mut report, &mut bench, line)?;
    }
    report.end(&rt)
}
