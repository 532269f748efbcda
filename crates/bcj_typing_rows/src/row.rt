//! A row `SOURCES => ANSWER`, or `SOURCES ?? QUERY => ANSWER`.
use crate::source::{spelled_out, units};
use crate::typing::answer;
use std::alloc::{AllocError, Global};

/// Whether a row's answer is the expected one, or what is to be said of it.
#[derive(Drop)]
pub enum Judged {
    AsExpected,
    Differs(String),
}

/// What marks the place of a fault in the first source.
const MARK: &str = "#";

/// The sources without their mark, and the byte that it stands before.
#[derive(Drop)]
struct Marked {
    sources: String,
    place: Option<usize>,
}

fn without_mark(alloc: Global, sources: &str) -> Result<Marked, AllocError> {
    let Some((before, behind)) = sources.split_once(MARK) else {
        return Ok(Marked {
            sources: String::from_str(alloc, sources)?,
            place: None,
        });
    };
    let place = spelled_out(alloc, before)?.len();
    Ok(Marked {
        sources: format!(in alloc; "{before}{behind}")?,
        place: Some(place),
    })
}

/// The answer that a row expects, with the place that it marks.
fn expected(alloc: Global, answer: &str, place: Option<usize>) -> Result<String, AllocError> {
    match place {
        None => String::from_str(alloc, answer),
        Some(at) => format!(in alloc; "{answer} at {at}"),
    }
}

/// Judges a row.
pub fn judge(alloc: Global, line: &str) -> Result<Judged, AllocError> {
    let Some((left, right)) = line.split_once(" => ") else {
        return Ok(Judged::Differs(format!(in alloc; "{line}: not a row")?));
    };
    let (sources, query) = left.split_once(" ?? ").unwrap_or((left, ""));
    let marked = without_mark(alloc, sources)?;
    let expected = expected(alloc, right, marked.place)?;
    let Some(units) = units(alloc, marked.sources.as_str())? else {
        return Ok(Judged::Differs(format!(in alloc; "{line}: not units")?));
    };
    let came = answer(alloc, units.as_slice(), query)?;
    if came.as_str() == expected.as_str() {
        return Ok(Judged::AsExpected);
    }
    Ok(Judged::Differs(format!(in alloc; "{left}: expected {expected}, came {came}")?))
}
