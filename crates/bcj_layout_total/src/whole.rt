ghost use Rattle.std.specs.Prelude.{◌≡◌, ◌+◌, ◌*◌, ℕ, IfOk, length, map, sum};
ghost use Rattle.bcj_symbolic_measure.specs.Totals.{capped};
ghost use Rattle.bcj_layout_rules.specs.Rows as spec;
ghost use Rattle.bcj_layout_rules.specs.Places as places;
ghost use Rattle.bcj_layout_total.specs.function.Sizes as size;

use crate::adding::{add, counted, join, times_four};
use crate::classes::with_classes;
use crate::start::start_words;
use crate::types::with_types;
use bcj_layout_members::Members;
use bcj_layout_resolution::Resolver;
use bcj_layout_rows::{array_types, loaded, selectors};
use std::alloc::{AllocError, Global};

/// The bytes before the start code.
const START_AT: u64 = 16;

/// The words of the start's table region and of the empty dispatch row.
const FIRST_TABLES: u64 = 4;

/// The words of the rows and dispatch rows of types that load, behind so many.
fn with_loaded(
    alloc: Global,
    words: u64,
    resolver: &Resolver,
    members: &Members<'_>,
) -> Result<u64, AllocError>
    requires same { members.now ≡ resolver.now }
    ensures { IfOk result (λ r. (n : ℕ) → words ≡ capped n → r ≡ capped (n + sum (map (size.type_size resolver.now) (spec.loaded resolver.now)))) }
{
    let types = loaded(alloc, resolver)?;
    let numbered = selectors(alloc, resolver)?;
    Ok(with_types(words, resolver, members, &numbered, types.as_slice()))
}

/// The words of an image.
fn size_in_words(
    alloc: Global,
    resolver: &Resolver,
    members: &Members<'_>,
    main: &str,
) -> Result<u64, AllocError>
    requires same { members.now ≡ resolver.now }
    ensures { IfOk result (λ n. n ≡ capped (size.size_in_words resolver.now main.now)) }
{
    let classes = resolver.records().classes.as_slice();
    let start = add(start_words(classes, main), FIRST_TABLES);
    let text = with_classes(start, classes);
    let rows = with_loaded(alloc, text, resolver, members)?;
    let arrays = array_types(alloc, resolver)?;
    let array_rows = times_four(counted(arrays.len()));
    Ok(join(rows, array_rows))
}

/// The bytes of an image before its heap; past the last value of a `u64`, that value.
#[tactic(auto, using(crate::proofs::Parts::heap_behind_words))]
pub fn image_size(
    alloc: Global,
    resolver: &Resolver,
    members: &Members<'_>,
    main: &str,
) -> Result<u64, AllocError>
    requires same { members.now ≡ resolver.now }
    ensures { IfOk result (λ n. n ≡ capped (places.heap_at resolver.now main.now)) }
{
    let words = size_in_words(alloc, resolver, members, main)?;
    Ok(add(times_four(words), START_AT))
}
