//! Command lines with their files, from standard input: what each is said to answer, compared with what it answers.
#![tactic(auto)]

mod case;
mod report;
mod spelling;

use crate::case::{Case, Line};
use crate::report::Report;
use std::io;
use std::process::ExitCode;

/// Takes a line, and compares where it ends a case.
fn take<'a, R: Print + AllocGlobal>(
    rt: &R,
    report: &mut Report<'a>,
    case: &mut Case<'a>,
    line: &'a str,
) -> io::Result<()> {
    report.pass();
    match case.take(rt.alloc(), line) {
        Some(Line::Title(title)) => report.begin(rt, title),
        Some(Line::Passed) => Ok(()),
        Some(Line::Answer { wanted, came }) => {
            report.count(rt, case.words, wanted.as_str(), came.as_str())
        }
        None => report.count(rt, line, "a line of a case", "none"),
    }
}

fn main(rt: HostRuntime) -> io::Result<ExitCode> {
    let text = io::read_to_string(rt.alloc(), rt.stdin())?;
    let mut report = Report::new();
    let mut case = Case::new(rt.alloc());
    for line in text.as_str().lines() {
        take(&rt, &mut report, &mut case, line)?;
    }
    // The last case too may end without an empty line.
    take(&rt, &mut report, &mut case, "")?;
    report.end(&rt)
}
