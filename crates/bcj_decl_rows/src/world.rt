//! The units of a row.
ghost use Rattle.std.specs.Prelude.{◌<◌, ◌^◌, length};

use crate::chain::chain_units;
use bcj_lexer::lex;
use bcj_parser::{Unit, parse};
use std::alloc::{AllocError, Global};

/// What stands between the units of a row.
pub const BETWEEN: &str = " @@ ";

/// The unit of a text that is one.
fn unit(alloc: Global, text: &[u8]) -> Option<Unit> {
    match lex(alloc, text) {
        Err(_) => None,
        Ok(tokens) => parse(alloc, text, &tokens).ok(),
    }
}

/// The units of these texts, where each is one.
fn units_of(alloc: Global, texts: &[String]) -> Result<Option<Vec<Unit>>, AllocError> {
    let mut units = Vec::new(alloc);
    for text in texts {
        match unit(alloc, text.as_bytes()) {
            None => return Ok(None),
            Some(unit) => units.push(unit)?,
        }
    }
    Ok(Some(units))
}

/// The units that a row writes, or those of a chain of classes.
pub fn units(alloc: Global, sources: &str) -> Result<Option<Vec<Unit>>, AllocError> {
    if let Some(texts) = chain_units(alloc, sources)? {
        return units_of(alloc, texts.as_slice());
    }
    let mut texts = Vec::new(alloc);
    for text in sources.split(BETWEEN) {
        texts.push(String::from_str(alloc, text)?)?;
    }
    units_of(alloc, texts.as_slice())
}
