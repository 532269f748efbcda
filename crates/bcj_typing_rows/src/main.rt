//! Types the first unit of each row of its standard input, and prints the rows whose answer isn't the expected one.
#![tactic(auto)]

mod class;
mod expression;
mod row;
mod source;
mod statement;
mod text;
mod typing;
mod word;

use row::Judged;
use std::alloc::Global;
use std::io::{self, Read};
use std::process::ExitCode;

/// What begins the head of a section.
const HEAD: &str = "## ";

/// How many rows were read, how many of them in the last section, and how many differ.
#[derive(Clone, Copy)]
struct Tally {
    rows: u64,
    in_section: u64,
    differ: u64,
}

impl Tally {
    fn with_row(self, differs: bool) -> Tally {
        Tally {
            rows: self.rows.saturating_add(1),
            in_section: self.in_section.saturating_add(1),
            differ: self.differ.saturating_add(u64::from(differs)),
        }
    }

    fn with_head(self) -> Tally {
        Tally {
            in_section: 0,
            ..self
        }
    }
}

/// Says how many rows a section has.
fn end_section(rt: &impl Print, title: Option<&str>, rows: u64) -> io::Result<()> {
    match title {
        None => Ok(()),
        Some(title) => println!(rt; "{title}: {rows} rows"),
    }
}

/// Judges a row, and says whether it differs.
fn read_row(rt: &impl Print, alloc: Global, number: usize, line: &str) -> io::Result<bool> {
    match row::judge(alloc, line)? {
        Judged::AsExpected => Ok(false),
        Judged::Differs(said) => {
            println!(rt; "differs: {number}: {said}")?;
            Ok(true)
        }
    }
}

/// Judges the rows of a text section by section.
fn read_rows(rt: &impl Print, alloc: Global, text: &str) -> io::Result<Tally> {
    let mut tally = Tally {
        rows: 0,
        in_section: 0,
        differ: 0,
    };
    let mut title = None;
    for (index, line) in text.lines().enumerate() {
        if line.is_empty() {
            continue;
        }
        if let Some(head) = line.strip_prefix(HEAD) {
            end_section(rt, title, tally.in_section)?;
            title = Some(head);
            tally = tally.with_head();
        } else {
            let differs = read_row(rt, alloc, index + 1, line)?;
            tally = tally.with_row(differs);
        }
    }
    end_section(rt, title, tally.in_section)?;
    Ok(tally)
}

fn main(rt: HostRuntime) -> io::Result<ExitCode> {
    let mut text = String::new(rt.alloc());
    rt.stdin().read_to_string(&mut text)?;
    let tally = read_rows(&rt, rt.alloc(), text.as_str())?;
    let rows = tally.rows;
    if tally.differ == 0 {
        println!(rt; "{rows} rows, none differs")?;
        Ok(ExitCode::SUCCESS)
    } else {
        println!(rt; "{rows} rows, {} differ", tally.differ)?;
        Ok(ExitCode::FAILURE)
    }
}
