ghost use Rattle.std.specs.Prelude.{◌≡◌, map, IfOk};
ghost use Rattle.bcj_layout_addresses.specs.Lists.{first_entry, code_at};

use crate::address::address;
use bcj_layout_places::Words;
use bcj_symbolic_trees::Sequence;
use bcj_tables_rules::MethodRecord;
use std::alloc::{AllocError, Global};

/// The offset in its object of the first method of a class.
fn first_entry(methods: &[MethodRecord]) -> u32
    ensures { result ≡ first_entry methods.now }
{
    match methods {
        [] => 0,
        [first, ..] => first.entry,
    }
}

/// Where a method is, by where the code of its class begins.
pub fn code_at(
    text: u32,
    methods: &[MethodRecord],
    method: &MethodRecord,
) -> Result<u32, AllocError>
    ensures { IfOk result (λ a. a ≡ code_at text methods.now method.now) }
{
    address(text, method.entry.saturating_sub(first_entry(methods)))
}

/// Where each method of a class is, by where its code begins.
pub fn own_words(alloc: Global, text: u32, methods: &[MethodRecord]) -> Result<Words, AllocError>
    ensures { IfOk result (λ ws. ws ≡ map (code_at text methods.now) methods.now) }
{
    let mut words = Sequence::new(alloc);
    for method in methods {
        words.push(code_at(text, methods, method)?)?;
    }
    Ok(words)
}
