//! What a line of standard input is.

/// What begins a title, and what a remark.
const TITLE: &str = "## ";

const REMARK: &str = "#";

/// What stands between a question and its answer.
const ANSWERED: &str = " => ";

#[derive(Clone, Copy)]
pub enum Line<'a> {
    /// It is empty or a remark.
    Passed,
    Title(&'a str),
    /// It changes the heads of which later rows ask.
    Heads(&'a str),
    Row { question: &'a str, wanted: &'a str },
}

/// What a line is.
pub fn read_line(text: &str) -> Line<'_> {
    if let Some(title) = text.strip_prefix(TITLE) {
        return Line::Title(title);
    }
    if text.is_empty() || text.starts_with(REMARK) {
        return Line::Passed;
    }
    match text.split_once(ANSWERED) {
        None => Line::Heads(text),
        Some((question, wanted)) => Line::Row { question, wanted },
    }
}
