//! The units of a row.
#![tactic(auto, using(crate::proofs::Constructors::unit_lacks))]

ghost use Rattle.std.specs.Prelude.{◌<◌, ◌^◌, All, length, IfOk, IfSome};
ghost use Rattle.bcj_lexer.specs.Pieces.{TokensOf};
ghost use Rattle.bcj_parser_trees.specs.Plain.{unit_of};
ghost use Rattle.bcj_typing.specs.Answers.{HaveNoConstructor};

use bcj_lexer::{Tokens, lex};
use bcj_parser::{Unit, parse};
use bcj_parser_wellformed::interfaces_have_no_constructors;
use std::alloc::{AllocError, Global};

/// What stands between the units of a row.
const BETWEEN: &str = " @@ ";

/// What begins and ends a text that is repeated, and what stands between its number and it.
const REPEAT: &str = "[[";

const REPEATED: &str = "]]";

const TIMES: &str = " * ";

/// What stands for the number of a turn in a repeated text.
const TURN: &str = "%";

fn repeat(out: &mut String, count: u32, text: &str) -> Result<(), AllocError> {
    for turn in 0..count {
        let mut is_first = true;
        for part in text.split(TURN) {
            if !is_first {
                write!(out, "{turn}")?;
            }
            out.push_str(part)?;
            is_first = false;
        }
    }
    Ok(())
}

fn repeated(out: &mut String, text: &str) -> Result<(), AllocError> {
    let Some((count, part)) = text.split_once(TIMES) else {
        return out.push_str(text);
    };
    repeat(out, count.parse().unwrap_or(0), part)
}

/// A source with its repetitions `[[N * TEXT]]` written out.
pub fn spelled_out(alloc: Global, source: &str) -> Result<String, AllocError> {
    let mut out = String::new(alloc);
    for piece in source.split(REPEAT) {
        match piece.split_once(REPEATED) {
            None => out.push_str(piece)?,
            Some((text, behind)) => {
                repeated(&mut out, text)?;
                out.push_str(behind)?;
            }
        }
    }
    Ok(out)
}

/// The unit of the tokens of a text.
fn parsed(alloc: Global, text: &[u8], tokens: &Tokens) -> Option<Unit>
    requires tokens { TokensOf text.now tokens.now }
    requires size { length text.now < 2 ^ 32 }
    ensures { IfSome result (λ u. HaveNoConstructor (unit_of u)) }
{
    interfaces_have_no_constructors();
    match parse(alloc, text, tokens) {
        Err(_) => None,
        Ok(unit) => Some(unit),
    }
}

/// The unit of a text that is one.
fn unit(alloc: Global, text: &[u8]) -> Option<Unit>
    ensures { IfSome result (λ u. HaveNoConstructor (unit_of u)) }
{
    if text.len() > u32::MAX as usize {
        return None;
    }
    match lex(alloc, text) {
        Err(_) => None,
        Ok(tokens) => parsed(alloc, text, &tokens),
    }
}

/// The units of these sources, where each is one; the first is the own one.
pub fn units(alloc: Global, sources: &str) -> Result<Option<Vec<Unit>>, AllocError>
    ensures { IfOk result (λ o. IfSome o (λ us. All (λ u. HaveNoConstructor (unit_of u)) us.items)) }
{
    let mut units = Vec::new(alloc);
    for source in sources.split(BETWEEN) {
        let text = spelled_out(alloc, source)?;
        match unit(alloc, text.as_bytes()) {
            None => return Ok(None),
            Some(unit) => units.push(unit)?,
        }
    }
    Ok(Some(units))
}
