//! Units with many types, as rows name them.
use std::alloc::{AllocError, Global};

/// The most types of a unit.
const TYPES_IN_UNIT: u32 = 64;

/// How the last of the types goes on.
#[derive(Clone, Copy)]
enum End {
    Open,
    Circle,
}

/// What kind of types a chain has.
#[derive(Clone, Copy)]
struct Chain {
    word: &'static str,
    count: u32,
    end: End,
}

/// `chain of 4000 classes`, `circle of 4000 interfaces`
fn read(sources: &str) -> Option<Chain> {
    let (shape, rest) = sources.split_once(" of ")?;
    let (count, kind) = rest.split_once(" ")?;
    let end = match shape {
        "chain" => End::Open,
        "circle" => End::Circle,
        _ => return None,
    };
    let word = match kind {
        "classes" => "class",
        "interfaces" => "interface",
        _ => return None,
    };
    let count = count.parse::<u32>().ok()?;
    Some(Chain { word, count, end })
}

/// The number of the type that a type extends.
fn next(chain: Chain, number: u32) -> Option<u32> {
    let next = number.checked_add(1)?;
    if next < chain.count {
        return Some(next);
    }
    match chain.end {
        End::Open => None,
        End::Circle => Some(0),
    }
}

fn put_type(text: &mut String, chain: Chain, number: u32) -> Result<(), AllocError> {
    write!(text, "{} C{number} ", chain.word)?;
    if let Some(next) = next(chain, number) {
        write!(text, "extends C{next} ")?;
    }
    text.push_str("{ } ")
}

/// The texts of a chain's units: each type extends the next, in a circle the last one the first.
pub fn chain_units(alloc: Global, sources: &str) -> Result<Option<Vec<String>>, AllocError> {
    let Some(chain) = read(sources) else {
        return Ok(None);
    };
    let mut texts = Vec::new(alloc);
    let mut text = String::new(alloc);
    for number in 0..chain.count {
        if number % TYPES_IN_UNIT == 0 && number > 0 {
            texts.push(text)?;
            text = String::new(alloc);
        }
        put_type(&mut text, chain, number)?;
    }
    texts.push(text)?;
    Ok(Some(texts))
}
