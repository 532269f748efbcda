//! The symbols of classes (ELF, "Symbol Table"): each class has one for its code and then one for its tables.

ghost use Rattle.std.specs.Prelude.{◌≡◌, ◌++◌, map, IfOk, OnOk};
ghost use Rattle.std.specs.List.{flat_map};
ghost use Rattle.bcj_elf.specs.Plain.{plain_symbols};
ghost use Rattle.bcj_object_rules.specs.Objects as spec;
ghost use Rattle.bcj_object.specs.function.Views.{placed_in};

use crate::numbers::plus;
use crate::placing::{PlacedClass, tab_size, text_size};
use bcj_elf::{Section, Symbol};
use bcj_symbolic_trees::Name;
use std::alloc::{AllocError, Global};

/// What stands behind a class's name in the name of its code.
const CODE_ENDING: &[u8] = b".text";

/// What stands behind a class's name in the name of its tables.
const TABLES_ENDING: &[u8] = b".tab";

/// The number of the symbol of a class's code; symbol 0 is none.
pub fn code_symbol(number: u32) -> Result<u32, AllocError>
    ensures { IfOk result (λ n. n ≡ spec.code_symbol number) }
{
    plus(plus(number, number)?, 1)
}

/// The number of the symbol of its tables.
pub fn tables_symbol(number: u32) -> Result<u32, AllocError>
    ensures { IfOk result (λ n. n ≡ spec.tables_symbol number) }
{
    plus(plus(number, number)?, 2)
}

fn symbol_name(alloc: Global, class: &Name, ending: &[u8]) -> Result<Vec<u8>, AllocError>
    ensures { IfOk result (λ v. v.items ≡ class.now ++ ending.now) }
{
    let mut name = Vec::new(alloc);
    name.extend_from_slice(class.as_str().as_bytes())?;
    name.extend_from_slice(ending)?;
    Ok(name)
}

fn put_symbols<'a>(
    alloc: Global,
    p: &PlacedClass<'a>,
    out: &mut Vec<Symbol>,
) -> Result<(), AllocError>
    ensures { OnOk result (plain_symbols out.new.items ≡ plain_symbols out.old.items ++ spec.class_symbols (placed_in p.now)) }
{
    let class = &p.class.head.name;
    out.push(Symbol {
        name: symbol_name(alloc, class, CODE_ENDING)?,
        value: p.place.text,
        size: text_size(&p.code)?,
        section: Section::Text,
    })?;
    out.push(Symbol {
        name: symbol_name(alloc, class, TABLES_ENDING)?,
        value: p.place.tab,
        size: tab_size(&p.code)?,
        section: Section::Tab,
    })?;
    Ok(())
}

pub fn symbols<'a>(alloc: Global, placed: &[PlacedClass<'a>]) -> Result<Vec<Symbol>, AllocError>
    ensures { IfOk result (λ v. plain_symbols v.items ≡ flat_map spec.class_symbols (map placed_in placed.now)) }
{
    let mut all = Vec::new(alloc);
    for p in placed {
        put_symbols(alloc, p, &mut all)?;
    }
    Ok(all)
}
