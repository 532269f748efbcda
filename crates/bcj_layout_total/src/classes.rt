ghost use Rattle.std.specs.Prelude.{◌≡◌, ◌+◌, ℕ, length, map, sum};
ghost use Rattle.std.specs.List.{filter};
ghost use Rattle.bcj_symbolic_measure.specs.Totals.{capped};
ghost use Rattle.bcj_layout_total.specs.function.Sizes as size;

use crate::adding::add;
use bcj_tables_rules::{ClassRecord, FieldRecord, MethodRecord};

/// With the words of these methods.
fn with_methods(words: u64, methods: &[MethodRecord]) -> u64
    ensures { (n : ℕ) → words ≡ capped n → result ≡ capped (n + sum (map (λ m. m.words) methods.now)) }
{
    let mut words = words;
    for method in methods {
        words = add(words, method.words as u64);
    }
    words
}

/// With a word for each static field.
fn with_statics(words: u64, fields: &[FieldRecord]) -> u64
    ensures { (n : ℕ) → words ≡ capped n → result ≡ capped (n + length (filter (λ f. f.is_static) fields.now)) }
{
    let mut words = words;
    for field in fields {
        words = add(words, field.is_static as u64);
    }
    words
}

/// With the entries of a class's tables, and the address of its initialiser.
fn with_region(words: u64, c: &ClassRecord) -> u64
    ensures { (n : ℕ) → words ≡ capped n
        → result ≡ capped (n + (1 + length c.now.ctable + length c.now.otable + length c.now.atable + length c.now.itable)) }
{
    let class_entries = add(add(words, 1), c.ctable.len() as u64);
    let method_entries = add(class_entries, c.otable.len() as u64);
    let address_entries = add(method_entries, c.atable.len() as u64);
    add(address_entries, c.itable.len() as u64)
}

fn with_class(words: u64, c: &ClassRecord) -> u64
    ensures { (n : ℕ) → words ≡ capped n → result ≡ capped (n + size.class_size c.now) }
{
    let code = with_methods(words, c.methods.as_slice());
    let tables = with_region(code, c);
    with_statics(tables, c.fields.as_slice())
}

/// With the code, the tables and the static fields of these classes.
pub fn with_classes(words: u64, classes: &[ClassRecord]) -> u64
    ensures { (n : ℕ) → words ≡ capped n → result ≡ capped (n + sum (map size.class_size classes.now)) }
{
    let mut words = words;
    for class in classes {
        words = with_class(words, class);
    }
    words
}
