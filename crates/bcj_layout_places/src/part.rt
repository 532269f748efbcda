//! Members of a part of an image, one behind the other.

ghost use Rattle.std.specs.Prelude.{◌≡◌, zero, suc, IfOk};
ghost use Rattle.bcj_layout_places.specs.Parts.{IsPart, AreDispatchRows};

use crate::adding::behind;
use bcj_symbolic_trees::Sequence;
use std::alloc::{AllocError, Global};

/// Words of 32 bits: addresses, or the contents of memory.
pub type Words = Sequence<u32>;

/// The addresses of members, and the one where the next part begins.
#[derive(Drop)]
pub struct Part {
    pub places: Words,
    pub next: u32,
}

/// Members of so many words, with one place more behind them.
pub fn place_all(alloc: Global, at: u32, sizes: &[u32]) -> Result<Part, AllocError>
    ensures { IfOk result (IsPart at sizes.now) }
{
    let mut places = Sequence::new(alloc);
    let mut next = at;
    for words in sizes {
        places.push(next)?;
        next = behind(next, *words)?;
    }
    places.push(next)?;
    Ok(Part { places, next })
}

/// The empty row for one of no words, else its own.
fn row_place(empty: u32, own: u32, words: u32) -> u32
    ensures { result ≡ (elim words [ zero ↦ empty | suc n ↦ own ]) }
{
    match words {
        0 => empty,
        _ => own,
    }
}

/// Dispatch rows of so many words, where the empty one stands for those that have none.
pub fn dispatch_rows(alloc: Global, empty: u32, own: u32, sizes: &[u32]) -> Result<Part, AllocError>
    ensures { IfOk result (AreDispatchRows empty own sizes.now) }
{
    let mut places = Sequence::new(alloc);
    let mut next = own;
    for words in sizes {
        places.push(row_place(empty, next, *words))?;
        next = behind(next, *words)?;
    }
    Ok(Part { places, next })
}
