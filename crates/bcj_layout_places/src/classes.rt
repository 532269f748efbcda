//! The words of classes: their code, their tables and their static fields.

ghost use Rattle.std.specs.Prelude.{◌≡◌, length, map, sum, IfOk};
ghost use Rattle.std.specs.List.{filter};
ghost use Rattle.bcj_layout_rules.specs.Places as places;

use crate::adding::{plus, with_count};
use crate::part::Words;
use bcj_symbolic_trees::Sequence;
use bcj_tables_rules::{ClassRecord, FieldRecord, MethodRecord};
use std::alloc::{AllocError, Global};

/// The address of the class initialiser, with which a table region begins.
const INITIALISER: u32 = 1;

fn method_words(methods: &[MethodRecord]) -> Result<u32, AllocError>
    ensures { IfOk result (λ n. n ≡ sum (map (λ m. m.words) methods.now)) }
{
    let mut words = 0;
    for method in methods {
        words = plus(words, method.words)?;
    }
    Ok(words)
}

fn static_words(fields: &[FieldRecord]) -> Result<u32, AllocError>
    ensures { IfOk result (λ n. n ≡ length (filter (λ f. f.is_static) fields.now)) }
{
    let mut words = 0;
    for field in fields {
        words = plus(words, field.is_static as u32)?;
    }
    Ok(words)
}

fn region_words(class: &ClassRecord) -> Result<u32, AllocError>
    ensures { IfOk result (λ n. n ≡ places.region_words class.now) }
{
    let class_entries = with_count(INITIALISER, class.ctable.len())?;
    let offset_entries = with_count(class_entries, class.otable.len())?;
    let address_entries = with_count(offset_entries, class.atable.len())?;
    with_count(address_entries, class.itable.len())
}

/// The words of the code of each class.
pub fn code_sizes(alloc: Global, classes: &[ClassRecord]) -> Result<Words, AllocError>
    ensures { IfOk result (λ sizes. sizes ≡ map places.class_words classes.now) }
{
    let mut sizes = Sequence::new(alloc);
    for class in classes {
        sizes.push(method_words(class.methods.as_slice())?)?;
    }
    Ok(sizes)
}

/// The words of the table region of each class.
pub fn region_sizes(alloc: Global, classes: &[ClassRecord]) -> Result<Words, AllocError>
    ensures { IfOk result (λ sizes. sizes ≡ map places.region_words classes.now) }
{
    let mut sizes = Sequence::new(alloc);
    for class in classes {
        sizes.push(region_words(class)?)?;
    }
    Ok(sizes)
}

/// The words of the static fields of each class.
pub fn static_sizes(alloc: Global, classes: &[ClassRecord]) -> Result<Words, AllocError>
    ensures { IfOk result (λ sizes. sizes ≡ map (λ c. length (places.statics_in c)) classes.now) }
{
    let mut sizes = Sequence::new(alloc);
    for class in classes {
        sizes.push(static_words(class.fields.as_slice())?)?;
    }
    Ok(sizes)
}
