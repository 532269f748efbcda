//! What is said of a unit.

use bcj_symbolic::{Measure, SymUnit, check, measure};
use std::alloc::Global;

/// Where the first node without a rule stands.
pub fn checked(alloc: Global, unit: &SymUnit) -> Option<String> {
    match check(unit) {
        Ok(()) => String::from_str(alloc, "accepted").ok(),
        Err(fault) => {
            let class = fault.class;
            let place = fault.place;
            format!(in alloc; "class {class} node {place}").ok()
        }
    }
}

/// The measure of a unit that is well typed.
fn sizes(alloc: Global, unit: &SymUnit) -> Option<Measure> {
    check(unit).ok()?;
    measure(alloc, unit).ok()
}

/// The largest frame and method, and the bytes of the object.
pub fn measured(alloc: Global, unit: &SymUnit) -> Option<String> {
    let sizes = sizes(alloc, unit)?;
    let frame = sizes.frame;
    let method = sizes.method;
    let object = sizes.object;
    format!(in alloc; "frame {frame} method {method} object {object}").ok()
}

/// What the largest frame and method have besides so many words.
pub fn coded(alloc: Global, unit: &SymUnit, frame: u32, words: u32) -> Option<String> {
    let sizes = sizes(alloc, unit)?;
    let temporaries = sizes.frame.checked_sub(frame)?;
    let words = sizes.method.checked_sub(words)?;
    format!(in alloc; "temporaries {temporaries} words {words}").ok()
}
