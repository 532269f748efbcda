//! The relocations of a body.

ghost use Rattle.std.specs.Prelude.{◌≡◌, ◌++◌, List, [], ◌∷◌, Some, map, IfOk, OnOk};
ghost use Rattle.std.specs.Option.{option_map};
ghost use Rattle.bcj_symbolic_measure.specs.Entries.{PlainEntry};
ghost use Rattle.bcj_lower_rules.specs.Classes.{relocation_at, relocations_at};
ghost use Rattle.bcj_lower_words.specs.Views.{line_of, relocated_of};
ghost use Rattle.bcj_lower.specs.Views.{relocation_in};
ghost use Rattle.bcj_lower.specs.function.Tables.{tables_in, tables_of};

use crate::code::CodeRelocation;
use crate::numbers::{bytes, plus};
use crate::tables::Tables;
use bcj_lower_words::{Line, Relocated};
use std::alloc::AllocError;

/// What linking sets in the word at a place of the class.
fn relocation<'a>(
    tables: &Tables<'a>,
    at: usize,
    relocated: Relocated<'a>,
) -> Result<CodeRelocation, AllocError>
    ensures { IfOk result (λ r. (uses : List PlainEntry) → tables_in tables.now ≡ tables_of uses
        → relocation_in r ∷ [] ≡ relocation_at uses at (Some (relocated_of relocated.entry))) }
{
    let offset = bytes(at)?;
    let addend = tables.addend(relocated.address)?;
    Ok(CodeRelocation {
        offset,
        half: relocated.half,
        addend,
    })
}

/// Adds that of a line, if there is one.
fn push_relocation<'a>(
    tables: &Tables<'a>,
    at: usize,
    relocated: Option<Relocated<'a>>,
    relocs: &mut Vec<CodeRelocation>,
) -> Result<(), AllocError>
    ensures { OnOk result ((uses : List PlainEntry) → tables_in tables.now ≡ tables_of uses
        → map relocation_in relocs.new.items
        ≡ map relocation_in relocs.old.items ++ relocation_at uses at (option_map relocated_of relocated.entry)) }
{
    let Some(relocated) = relocated else {
        return Ok(());
    };
    relocs.push(relocation(tables, at, relocated)?)?;
    Ok(())
}

/// Adds those of lines whose items stand at these places, in code that begins at a word of the class.
pub fn push_relocations<'a>(
    tables: &Tables<'a>,
    start: usize,
    lines: &[Line<'a>],
    places: &[usize],
    relocs: &mut Vec<CodeRelocation>,
) -> Result<(), AllocError>
    ensures { OnOk result ((uses : List PlainEntry) → tables_in tables.now ≡ tables_of uses
        → map relocation_in relocs.new.items
        ≡ map relocation_in relocs.old.items ++ relocations_at uses start (map line_of lines.now) places.now) }
{
    for (line, place) in lines.iter().zip(places) {
        push_relocation(tables, plus(start, *place)?, line.relocated, relocs)?;
    }
    Ok(())
}
