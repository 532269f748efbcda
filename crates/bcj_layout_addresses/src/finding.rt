ghost use Rattle.std.specs.Prelude.{◌≡◌, Some, map, IfOk, OnOk, if◌then◌else◌};
ghost use Rattle.std.specs.Option.{option_map_or};
ghost use Rattle.bcj_layout_rules.specs.Rows.{same_reference};
ghost use Rattle.bcj_layout_resolution.specs.Places.{wanted};
ghost use Rattle.bcj_layout_rows.specs.declared.keys.ReferenceKey.{ReferenceKey as Key};
ghost use Rattle.bcj_layout_rows.specs.Keys.{reference_in};
ghost use Rattle.bcj_layout_addresses.specs.Lists.{found_at};
ghost use Rattle.bcj_layout_addresses.specs.Finding.{word_by, HasFirst};

use crate::methods::code_at;
use bcj_layout_places::Words;
use bcj_layout_rows::ReferenceKey;
use bcj_names::Name;
use bcj_symbolic_trees::Sequence;
use bcj_tables_rules::MethodRecord;
use indexmap::IndexMap;
use std::alloc::{AllocError, Global};

/// Words of methods, by references to them.
type WordMap<'a> = IndexMap<ReferenceKey<'a>, u32>;

fn key_of<'a>(class: &'a Name, method: &'a MethodRecord) -> ReferenceKey<'a>
    ensures { reference_in result ≡ wanted class.now method.now.name method.now.desc }
{
    ReferenceKey {
        class,
        name: &method.name,
        desc: &method.desc,
    }
}

fn put<'a>(found: &mut WordMap<'a>, key: ReferenceKey<'a>, word: u32) -> Result<(), AllocError>
    ensures { OnOk result ((q : Key) → word_by found.new q ≡ (if same_reference (reference_in key.entry) (reference_in q) then Some word else word_by found.old q)) }
{
    found.insert(key, word)?;
    Ok(())
}

/// The words of the first methods of their names and descriptors: those behind are put in first, and those before them over them.
fn first_words<'a>(
    alloc: Global,
    class: &'a Name,
    text: u32,
    methods: &'a [MethodRecord],
) -> Result<WordMap<'a>, AllocError>
    ensures { IfOk result (HasFirst class.now text methods.now methods.now) }
{
    let mut found = IndexMap::new(alloc);
    let mut k = methods.len();
    while k > 0 {
        k -= 1;
        let method = &methods[k];
        let word = code_at(text, methods, method)?;
        put(&mut found, key_of(class, method), word)?;
    }
    Ok(found)
}

fn word_of(found: &WordMap<'_>, key: ReferenceKey<'_>) -> u32
    ensures { result ≡ option_map_or (λ w. w) (word_by found.now key.entry) 0 }
{
    match found.get(&key) {
        None => 0,
        Some(word) => *word,
    }
}

/// Where a search finds each method of a class, by where its code begins: where the first of the same name and descriptor is.
pub fn found_words(
    alloc: Global,
    class: &Name,
    text: u32,
    methods: &[MethodRecord],
) -> Result<Words, AllocError>
    ensures { IfOk result (λ ws. ws ≡ map (found_at text methods.now) methods.now) }
{
    let found = first_words(alloc, class, text, methods)?;
    let mut words = Sequence::new(alloc);
    for method in methods {
        words.push(word_of(&found, key_of(class, method)))?;
    }
    Ok(words)
}
