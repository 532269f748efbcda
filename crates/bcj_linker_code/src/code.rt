//! The relocated code of objects.

ghost use Rattle.std.specs.Prelude.{◌≡◌, ◌++◌, OnOk};
ghost use Rattle.bcj_hier_rules.specs.Shapes.{Named};
ghost use Rattle.bcj_layout_rules.specs.Rows.{Classes};
ghost use Rattle.bcj_layout_places.specs.Places.{ArePlaces};
ghost use Rattle.bcj_linker_rules.specs.Memory.{code_words};
ghost use Rattle.bcj_linker_objects.specs.Gathering.{linked_in};
ghost use Rattle.bcj_linker_code.specs.Objects.{AreObjects};

use crate::addresses::sum;
use crate::object::push_object;
use bcj_layout_places::{Places, Words};
use bcj_linker_objects::GatheredObject;
use std::alloc::AllocError;

/// Puts the relocated code of the objects behind the words.
pub fn push_code(
    places: &Places,
    objects: &[GatheredObject],
    words: &mut Words,
) -> Result<(), AllocError>
    ensures { OnOk result ((cs : Classes) (main : Named) → ArePlaces cs main places.now → AreObjects cs objects.now
        → words.new ≡ words.old ++ code_words cs main 0 (linked_in objects.now cs)) }
{
    let mut first: u32 = 0;
    for gathered in objects {
        push_object(places, first, &gathered.object, words)?;
        first = sum(first, gathered.classes)?;
    }
    Ok(())
}
