//! The words of the stack.

ghost use Rattle.std.specs.Prelude.{◌≡◌, max, map, IfOk};
ghost use Rattle.std.specs.List.{fold};
ghost use Rattle.bcj_linker_rules.specs.Memory as memory;

use bcj_tables_rules::{ClassRecord, MethodRecord};
use std::alloc::AllocError;

/// The frames beside those that the bound on the depth of calls counts.
const MORE_FRAMES: u32 = 2;

/// The words of the largest of these frames and of one more.
fn largest_among(methods: &[MethodRecord], other: u32) -> u32
    ensures { result ≡ fold max other (map (λ m. m.frame) methods.now) }
{
    let mut largest = other;
    for method in methods {
        largest = largest.max(method.frame);
    }
    largest
}

/// The words of the largest frame.
fn largest_frame(classes: &[ClassRecord]) -> u32
    ensures { result ≡ memory.largest_frame classes.now }
{
    let mut largest = 0;
    for class in classes {
        largest = largest_among(class.methods.as_slice(), largest);
    }
    largest
}

/// The words of the stack for calls at most `depth` deep. More than a `u32` counts fit no memory.
pub fn stack_words(classes: &[ClassRecord], depth: u32) -> Result<u32, AllocError>
    ensures { IfOk result (λ words. words ≡ memory.stack_words classes.now depth) }
{
    match depth.checked_add(MORE_FRAMES) {
        Some(frames) => frames.checked_mul(largest_frame(classes)).ok_or(AllocError),
        None => Err(AllocError),
    }
}
