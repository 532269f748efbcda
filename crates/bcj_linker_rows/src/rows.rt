ghost use Rattle.std.specs.Prelude.{◌≡◌, ◌++◌, ◌∷◌, [], length, map, slice_get, Some, OnOk};
ghost use Rattle.bcj_symbolic_trees.specs.Types.{class_type};
ghost use Rattle.bcj_hier_rules.specs.Heads.{name_of};
ghost use Rattle.bcj_layout_rules.specs.Rows.{row_types, loaded, array_types};
ghost use Rattle.bcj_layout_rules.specs.Places.{class_dispatch_at};
ghost use Rattle.bcj_layout_resolution.specs.Places.{heads_in};
ghost use Rattle.bcj_layout_rows.specs.Found.{IsLoading};
ghost use Rattle.bcj_linker_rules.specs.Memory.{rows_from, class_row};
ghost use Rattle.bcj_layout_addresses.specs.Parts.{AreParts, classes_of, main_of};

use crate::counting::word_of;
use crate::slots::push_slots;
use bcj_hier_rules::ClassId;
use bcj_layout_addresses::Parts;
use bcj_layout_places::Words;
use std::alloc::AllocError;

/// Puts the row of a type that loads, whose number this is, behind the words.
fn push_class_row(
    parts: &Parts<'_>,
    number: u32,
    dispatch: u32,
    class: ClassId,
    words: &mut Words,
) -> Result<(), AllocError>
    requires parts { AreParts parts.now }
    requires loading { IsLoading (classes_of parts.now) class }
    requires dispatch { dispatch ≡ class_dispatch_at (classes_of parts.now) (main_of parts.now) number (name_of (heads_in (classes_of parts.now)) class) }
    ensures { OnOk result (words.new ≡ words.old ++ class_row (classes_of parts.now) (main_of parts.now) number (name_of (heads_in (classes_of parts.now)) class)) }
{
    let hier = parts.resolver.hier();
    words.push(number)?;
    words.push(hier.low(class))?;
    words.push(hier.high(class))?;
    words.push(dispatch)?;
    push_slots(parts, class, words)?;
    Ok(())
}

/// Puts the rows of the types that load behind the words.
fn push_class_rows(parts: &Parts<'_>, words: &mut Words) -> Result<(), AllocError>
    requires { AreParts parts.now }
    ensures { OnOk result (words.new ≡ words.old ++ rows_from (classes_of parts.now) (main_of parts.now) 0 (map class_type (loaded (classes_of parts.now)))) }
{
    let dispatch = parts.places.dispatch.as_slice();
    let loaded = parts.places.loaded.as_slice();
    for (k, class) in loaded.iter().enumerate() {
        push_class_row(parts, word_of(k)?, dispatch[k], *class, words)?;
    }
    Ok(())
}

/// Puts the row of an array type behind the words.
fn push_array_row(number: u32, dispatch: u32, words: &mut Words) -> Result<(), AllocError>
    ensures { OnOk result (words.new ≡ words.old ++ number ∷ 0 ∷ 0 ∷ dispatch ∷ []) }
{
    words.push(number)?;
    words.push(0)?;
    words.push(0)?;
    words.push(dispatch)
}

/// Puts the rows of the array types behind the words.
fn push_array_rows(parts: &Parts<'_>, words: &mut Words) -> Result<(), AllocError>
    requires { AreParts parts.now }
    ensures { OnOk result (words.new ≡ words.old ++ rows_from (classes_of parts.now) (main_of parts.now) (length (loaded (classes_of parts.now))) (array_types (classes_of parts.now))) }
{
    let rows = parts.places.rows.as_slice();
    let last = rows.len() - 1;
    let empty = rows[last];
    for n in parts.places.loaded.len()..last {
        push_array_row(word_of(n)?, empty, words)?;
    }
    Ok(())
}

/// Puts the rows of all types behind the words.
pub fn push_rows(parts: &Parts<'_>, words: &mut Words) -> Result<(), AllocError>
    requires { AreParts parts.now }
    ensures { OnOk result (words.new ≡ words.old ++ rows_from (classes_of parts.now) (main_of parts.now) 0 (row_types (classes_of parts.now))) }
{
    push_class_rows(parts, words)?;
    push_array_rows(parts, words)?;
    Ok(())
}
