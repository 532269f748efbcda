//! What the classes of a unit add up to, and the bytes of its object.
#![tactic(auto, using(crate::proofs::Rules::object_rules))]

ghost use Rattle.std.specs.Prelude.{◌≡◌, ◌+◌, ◌*◌, length, map, IfOk};
ghost use Rattle.bcj_symbolic_trees.specs.Units.{class_of};
ghost use Rattle.bcj_symbolic_measure.specs.Objects as spec;
ghost use Rattle.bcj_symbolic_measure.specs.function.Sums as sums_spec;
ghost use Rattle.bcj_symbolic_measure.specs.Totals.{capped};
ghost use Rattle.bcj_symbolic_measure.specs.Totals as totals;

use crate::body::{bodies, largest_frame};
use crate::record::class_record;
use crate::tally::Tally;
use crate::totals::{larger, plus};
use bcj_symbolic_trees::{Name, SymClass};
use std::alloc::{AllocError, Global};

/// The largest frame and method; words of code, relocations, words of tables, bytes of records and of symbols' names.
#[derive(Clone, Copy)]
pub struct Sums {
    pub frame: u64,
    pub method: u64,
    pub text: u64,
    pub relocations: u64,
    pub tables: u64,
    pub records: u64,
    pub names: u64,
}

/// Of the names of a class's two symbols, but for the class's name in each.
const SUFFIXES_SIZE: u64 = 11;

/// The word of the class initialiser's address, which begins a table region.
const INITIALISER_WORD: u64 = 1;

/// The byte that begins a section of names.
const ZERO_BYTE: u64 = 1;

/// Symbol 0.
const EMPTY_SYMBOL: u64 = 1;

const ALIGNMENT: u64 = 4;

const WORD_SIZE: u64 = 4;

const HEADER_SIZE: u64 = 52;

const RELOCATION_SIZE: u64 = 12;

const SYMBOL_SIZE: u64 = 16;

const RECORDS_HEADER_SIZE: u64 = 8;

const SECTION_NAMES_SIZE: u64 = 76;

const SECTION_HEADERS_SIZE: u64 = 360;

fn length_of(name: &Name) -> u64
    ensures { result ≡ length name.now }
{
    name.as_str().len() as u64
}

/// The sums with those of a class.
fn add_class<'a>(alloc: Global, class: &'a SymClass, sums: Sums) -> Result<Sums, AllocError>
    ensures { IfOk result (λ s. s ≡ sums_spec.with_class sums (class_of class.now)) }
{
    let mut tally = Tally::new(alloc);
    bodies(class, &mut tally)?;
    let largest = largest_frame(class);
    let frame = larger(sums.frame, largest);
    let method = larger(sums.method, tally.largest);
    let text = plus(sums.text, tally.text);
    let relocations = plus(sums.relocations, tally.relocations);
    let begun = plus(sums.tables, INITIALISER_WORD);
    let count = tally.entry_count();
    let tables = plus(begun, count);
    let records = class_record(sums.records, class, &tally);
    let name = length_of(&class.head.name);
    let suffixes = plus(sums.names, SUFFIXES_SIZE);
    let first = plus(suffixes, name);
    let names = plus(first, name);
    Ok(Sums {
        frame,
        method,
        text,
        relocations,
        tables,
        records,
        names,
    })
}

/// The sums of a unit's classes.
pub fn sums_of(alloc: Global, classes: &[SymClass]) -> Result<Sums, AllocError>
    ensures { IfOk result (λ s. s ≡ sums_spec.with_classes sums_spec.no_sums (map class_of classes.now)) }
{
    let mut sums = Sums {
        frame: 0,
        method: 0,
        text: 0,
        relocations: 0,
        tables: 0,
        records: 0,
        names: 0,
    };
    for class in classes {
        sums = add_class(alloc, class, sums)?;
    }
    Ok(sums)
}

/// The next multiple of 4.
#[tactic(auto, unfolding(crate::specs::Objects::aligned, crate::specs::Totals::capped))]
fn aligned(at: u64) -> u64
    ensures { result ≡ capped (spec.aligned at) }
{
    if at > u64::MAX - (ALIGNMENT - 1) {
        return u64::MAX;
    }
    (at + (ALIGNMENT - 1)) / ALIGNMENT * ALIGNMENT
}

#[tactic(auto, unfolding(crate::specs::Totals::capped))]
fn times(size: u64, count: u64) -> u64
    ensures { result ≡ capped (size * count) }
{
    size.saturating_mul(count)
}

/// Where so many bytes end that follow a place.
#[tactic(auto, unfolding(crate::specs::Objects::placed, crate::specs::Totals::plus, crate::specs::Totals::capped))]
fn placed(at: u64, size: u64) -> u64
    ensures { result ≡ capped (spec.placed at size) }
{
    plus(aligned(at), size)
}

/// The bytes of an object with these sums.
pub fn file_size(sums: Sums, classes: usize) -> u64
    ensures { result ≡ capped (spec.file_size sums.text sums.relocations sums.tables classes sums.records sums.names) }
{
    let classes = classes as u64;
    let counted = plus(EMPTY_SYMBOL, classes);
    let symbol_count = plus(counted, classes);
    let text_size = times(WORD_SIZE, sums.text);
    let text_relocations_size = times(RELOCATION_SIZE, sums.relocations);
    let tables_size = times(WORD_SIZE, sums.tables);
    let table_relocations_size = times(RELOCATION_SIZE, classes);
    let records_size = plus(RECORDS_HEADER_SIZE, sums.records);
    let symbols_size = times(SYMBOL_SIZE, symbol_count);
    let names_size = plus(ZERO_BYTE, sums.names);
    let text = placed(HEADER_SIZE, text_size);
    let text_relocations = placed(text, text_relocations_size);
    let tables = placed(text_relocations, tables_size);
    let table_relocations = placed(tables, table_relocations_size);
    let records = placed(table_relocations, records_size);
    let symbols = placed(records, symbols_size);
    let names = placed(symbols, names_size);
    let section_names = placed(names, SECTION_NAMES_SIZE);
    placed(section_names, SECTION_HEADERS_SIZE)
}
