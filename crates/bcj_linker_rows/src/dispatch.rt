ghost use Rattle.std.specs.Prelude.{◌≡◌, ◌≤◌, ◌*◌, ◌++◌, length, IfOk, OnOk};
ghost use Rattle.bcj_layout_rules.specs.Places.{word_size};
ghost use Rattle.bcj_hier_rules.specs.Heads.{name_of};
ghost use Rattle.bcj_layout_rules.specs.Rows as rows;
ghost use Rattle.bcj_layout_resolution.specs.Places.{heads_in};
ghost use Rattle.bcj_layout_rows.specs.Found.{IsLoading};
ghost use Rattle.bcj_linker_rules.specs.Memory.{dispatch_rows, class_dispatch, own_dispatch};
ghost use Rattle.bcj_layout_addresses.specs.Parts.{AreParts, classes_of, main_of};

use crate::counting::is_interface;
use crate::implemented::numbered_dispatch_word;
use bcj_hier_rules::ClassId;
use bcj_layout_addresses::Parts;
use bcj_layout_places::Words;
use std::alloc::AllocError;

/// The bytes of a word.
const WORD_SIZE: u32 = 4;

/// The first word of the empty dispatch row, which is its only one.
const EMPTY: u32 = 0;

/// The offset of the word of a selector in a dispatch row, in bytes.
fn offset_of(selector: u32) -> Result<u32, AllocError>
    ensures { IfOk result (λ n. n ≡ word_size * selector) }
{
    WORD_SIZE.checked_mul(selector).ok_or(AllocError)
}

/// Puts the dispatch row of a class, whose highest selector this is, behind the words.
fn push_own(
    parts: &Parts<'_>,
    class: ClassId,
    highest: u32,
    words: &mut Words,
) -> Result<(), AllocError>
    requires parts { AreParts parts.now }
    requires loading { IsLoading (classes_of parts.now) class }
    requires highest { highest ≡ rows.highest (classes_of parts.now) (name_of (heads_in (classes_of parts.now)) class) }
    requires within { highest ≤ length (rows.selectors (classes_of parts.now)) }
    ensures { OnOk result (words.new ≡ words.old ++ own_dispatch (classes_of parts.now) (main_of parts.now) (name_of (heads_in (classes_of parts.now)) class)) }
{
    words.push(offset_of(highest)?)?;
    for place in 0..highest {
        words.push(numbered_dispatch_word(parts, class, place))?;
    }
    Ok(())
}

/// Puts the dispatch row of a type behind the words, where it has its own.
fn push_class(parts: &Parts<'_>, class: ClassId, words: &mut Words) -> Result<(), AllocError>
    requires parts { AreParts parts.now }
    requires loading { IsLoading (classes_of parts.now) class }
    ensures { OnOk result (words.new ≡ words.old ++ class_dispatch (classes_of parts.now) (main_of parts.now) (name_of (heads_in (classes_of parts.now)) class)) }
{
    if is_interface(parts.resolver, class) {
        return Ok(());
    }
    let highest = parts.selectors.highest(parts.resolver, class);
    if highest == 0 {
        return Ok(());
    }
    push_own(parts, class, highest, words)?;
    Ok(())
}

/// Puts the dispatch rows behind the words, the empty one first.
pub fn push_dispatch_rows(parts: &Parts<'_>, words: &mut Words) -> Result<(), AllocError>
    requires { AreParts parts.now }
    ensures { OnOk result (words.new ≡ words.old ++ dispatch_rows (classes_of parts.now) (main_of parts.now)) }
{
    words.push(EMPTY)?;
    let loaded = parts.places.loaded.as_slice();
    for class in loaded {
        push_class(parts, *class, words)?;
    }
    Ok(())
}
