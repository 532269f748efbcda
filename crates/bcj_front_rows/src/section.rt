use crate::notation::spelled;
use crate::outcome::{Kind, outcome};
use std::alloc::{AllocError, Global};

/// What stands around each source of a section, and around the outcome that it is to have.
#[derive(Clone, Copy)]
pub struct Section<'a> {
    pub title: &'a str,
    kind: Kind,
    front: &'a str,
    back: &'a str,
    before: &'a str,
    after: &'a str,
}

fn kind(word: &str) -> Option<Kind> {
    match word {
        "tokens" => Some(Kind::Tokens),
        "trees" => Some(Kind::Trees),
        "trees with places" => Some(Kind::TreesWithPlaces),
        _ => None,
    }
}

impl<'a> Section<'a> {
    /// The section of a head `TITLE: KIND of FRONT...BACK => BEFORE...AFTER`.
    pub fn read(head: &'a str) -> Option<Section<'a>> {
        let (title, rest) = head.split_once(": ")?;
        let (word, frames) = rest.split_once(" of ")?;
        let kind = kind(word)?;
        let (around_source, around_outcome) = frames.split_once(" => ")?;
        let (front, back) = around_source.split_once("...")?;
        let (before, after) = around_outcome.split_once("...")?;
        Some(Section {
            title,
            kind,
            front,
            back,
            before,
            after,
        })
    }
}

/// The outcome of a row, where a byte of the source is marked with that byte.
fn expected(
    alloc: Global,
    section: &Section<'_>,
    outcome: &str,
    mark: Option<usize>,
) -> Result<String, AllocError> {
    let (before, after) = (section.before, section.after);
    match mark {
        None => format!(in alloc; "{before}{outcome}{after}"),
        Some(at) => format!(in alloc; "{before}{outcome}{after} {at}"),
    }
}

/// A tree, where only that there is one is expected.
fn verdict<'a>(came: &'a str, expected: &str) -> &'a str {
    if expected == "accepted" && came.starts_with("(") {
        "accepted"
    } else {
        came
    }
}

/// What is to be said of a line that is no row `SOURCE => OUTCOME` of its section, or whose source has another outcome.
pub fn difference(
    alloc: Global,
    section: Option<Section<'_>>,
    line: &str,
) -> Result<Option<String>, AllocError> {
    let (Some(section), Some((source, outcome_text))) = (section, line.split_once(" => ")) else {
        return Ok(Some(format!(in alloc; "{line}: not a row")?));
    };
    let (front, back) = (section.front, section.back);
    let notation = format!(in alloc; "{front}{source}{back}")?;
    let Some(text) = spelled(alloc, notation.as_str())? else {
        return Ok(Some(format!(in alloc; "{line}: not a source")?));
    };
    let expected = expected(alloc, &section, outcome_text, text.mark)?;
    let came = outcome(alloc, text.bytes.as_slice(), section.kind)?;
    let came = verdict(came.as_str(), expected.as_str());
    if came == expected.as_str() {
        return Ok(None);
    }
    Ok(Some(format!(in alloc; "{source}: expected {expected}, came {came}")?))
}
