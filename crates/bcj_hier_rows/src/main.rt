//! Asks the hierarchies of heads that standard input spells, and prints the rows whose answer isn't the expected one.
#![tactic(auto)]

mod head;
mod line;
mod mixture;
mod question;
mod report;
mod text;
mod words;

use crate::line::{Line, read_line};
use crate::mixture::take;
use crate::question::answer;
use crate::report::Report;
use bcj_symbolic_trees::Sequence;
use std::io;
use std::process::ExitCode;

fn main(rt: HostRuntime) -> io::Result<ExitCode> {
    let text = io::read_to_string(rt.alloc(), rt.stdin())?;
    let mut report = Report::new();
    let mut heads = Sequence::new(rt.alloc());
    for each in text.as_str().lines() {
        report.pass();
        match read_line(each) {
            Line::Passed => {}
            Line::Title(title) => report.begin(&rt, title)?,
            Line::Heads(words) => {
                if !take(rt.alloc(), &mut heads, words)? {
                    report.count(&rt, words, "heads", "none")?;
                }
            }
            Line::Row { question, wanted } => {
                let came = answer(rt.alloc(), &heads, question)?;
                report.count(&rt, question, wanted, came.as_str())?;
            }
        }
    }
    report.end(&rt)
}
