ghost use Rattle.std.specs.Prelude.{◌≡◌, ◌-◌, ◌++◌, ℕ, replicate, slice_index, OnOk};
ghost use Rattle.bcj_hier_rules.specs.Shapes.{Named};
ghost use Rattle.bcj_layout_rules.specs.Rows.{Classes};
ghost use Rattle.bcj_layout_rules.specs.Places.{region_words};
ghost use Rattle.bcj_linker_rules.specs.Memory.{tables, region_of};
ghost use Rattle.bcj_layout_addresses.specs.Addresses.{own_addresses};
ghost use Rattle.bcj_layout_addresses.specs.Parts.{AreParts, classes_of, main_of};

use crate::counting::push_zeros;
use bcj_layout_addresses::Parts;
use bcj_layout_places::Words;
use bcj_tables_rules::ClassRecord;
use std::alloc::AllocError;

/// The words of the start's region: the rows of the main class and of the type of its arguments, and main.
const START_WORDS: usize = 3;

/// Puts a word for each entry of a class's tables behind the others, each 0.
fn push_entries(class: &ClassRecord, words: &mut Words) -> Result<(), AllocError>
    ensures { OnOk result (words.new ≡ words.old ++ replicate (region_words class.now - 1) 0) }
{
    push_zeros(class.ctable.len(), words)?;
    push_zeros(class.otable.len(), words)?;
    push_zeros(class.atable.len(), words)?;
    push_zeros(class.itable.len(), words)?;
    Ok(())
}

/// The first of these words, 0 where there is none.
fn first_of(words: &[u32]) -> u32
    ensures { result ≡ slice_index words.now 0 }
{
    match words {
        [] => 0,
        [first, ..] => *first,
    }
}

/// Puts the table region of a class behind the words, by the addresses of its methods, of which the first is the class initialiser.
fn push_region(class: &ClassRecord, methods: &[u32], words: &mut Words) -> Result<(), AllocError>
    ensures { OnOk result ((cs : Classes) (main : Named) (k : ℕ) → methods.now ≡ own_addresses cs main k class.now → words.new ≡ words.old ++ region_of cs main k class.now) }
{
    words.push(first_of(methods))?;
    push_entries(class, words)?;
    Ok(())
}

/// Puts the start's region and the table regions of all classes behind the words, as they are before linking.
pub fn push_tables(parts: &Parts<'_>, words: &mut Words) -> Result<(), AllocError>
    requires { AreParts parts.now }
    ensures { OnOk result (words.new ≡ words.old ++ tables (classes_of parts.now) (main_of parts.now)) }
{
    push_zeros(START_WORDS, words)?;
    let addresses = parts.addresses.own.as_slice();
    let classes = parts.resolver.records().classes.as_slice();
    for (k, class) in classes.iter().enumerate() {
        push_region(class, addresses[k].as_slice(), words)?;
    }
    Ok(())
}
