ghost use Rattle.std.specs.Prelude.{◌≡◌, ◌<◌, ◌++◌, length, map, slice_get, None, Some, OnOk};
ghost use Rattle.bcj_hier_rules.specs.Heads.{name_of};
ghost use Rattle.bcj_layout_rules.specs.Rows.{mixture_of};
ghost use Rattle.bcj_layout_rules.specs.Members.{slots};
ghost use Rattle.bcj_layout_members.specs.Places.{slot_at, IsPlace};
ghost use Rattle.bcj_layout_resolution.specs.Places.{heads_in};
ghost use Rattle.bcj_layout_rows.specs.Found.{IsLoading};
ghost use Rattle.bcj_layout_addresses.specs.Parts.{AreParts, classes_of, main_of};
ghost use Rattle.bcj_linker_rules.specs.Memory as spec;

use crate::addresses::{call_address, method_address};
use crate::counting::{is_interface, push_zeros};
use bcj_hier_rules::ClassId;
use bcj_layout_addresses::Parts;
use bcj_layout_members::Place;
use bcj_layout_places::Words;
use bcj_layout_resolution::MethodId;
use std::alloc::AllocError;

/// The address of a method without code, or of none.
const NO_ADDRESS: u32 = 0;

/// The word of a slot that isn't private to a class.
fn open_word(parts: &Parts<'_>, class: ClassId, place: Place) -> u32
    requires parts { AreParts parts.now }
    requires loading { IsLoading (classes_of parts.now) class }
    requires place { IsPlace (classes_of parts.now) place }
    requires open { (slot_at (classes_of parts.now) place).owner ≡ None }
    ensures { result ≡ spec.slot_word (classes_of parts.now) (main_of parts.now) (name_of (heads_in (classes_of parts.now)) class) (slot_at (classes_of parts.now) place) }
{
    let method = parts.members.method(place);
    call_address(parts, class, &method.name, &method.desc).unwrap_or(NO_ADDRESS)
}

/// The word of a slot in the row of a class: the address of what a call takes.
fn slot_word(parts: &Parts<'_>, class: ClassId, place: Place) -> u32
    requires parts { AreParts parts.now }
    requires loading { IsLoading (classes_of parts.now) class }
    requires place { IsPlace (classes_of parts.now) place }
    ensures { result ≡ spec.slot_word (classes_of parts.now) (main_of parts.now) (name_of (heads_in (classes_of parts.now)) class) (slot_at (classes_of parts.now) place) }
{
    let is_private = parts.members.method(place).is_private;
    if is_private {
        method_address(
            parts,
            MethodId {
                class: place.class,
                method: place.method,
            },
        )
    } else {
        open_word(parts, class, place)
    }
}

/// The same, by the number of the slot.
fn numbered_slot_word(parts: &Parts<'_>, class: ClassId, slot: u32) -> u32
    requires parts { AreParts parts.now }
    requires loading { IsLoading (classes_of parts.now) class }
    requires within { slot < length (slots (mixture_of (classes_of parts.now)) (name_of (heads_in (classes_of parts.now)) class)) }
    ensures { slice_get (map (spec.slot_word (classes_of parts.now) (main_of parts.now) (name_of (heads_in (classes_of parts.now)) class))
        (slots (mixture_of (classes_of parts.now)) (name_of (heads_in (classes_of parts.now)) class))) slot ≡ Some result }
{
    match parts.members.slot_at(class, slot) {
        None => NO_ADDRESS,
        Some(place) => slot_word(parts, class, place),
    }
}

fn push_class_slots(parts: &Parts<'_>, class: ClassId, words: &mut Words) -> Result<(), AllocError>
    requires parts { AreParts parts.now }
    requires loading { IsLoading (classes_of parts.now) class }
    ensures { OnOk result (words.new ≡ words.old ++ map (spec.slot_word (classes_of parts.now) (main_of parts.now) (name_of (heads_in (classes_of parts.now)) class))
        (slots (mixture_of (classes_of parts.now)) (name_of (heads_in (classes_of parts.now)) class))) }
{
    let count = parts.members.slot_count(class);
    for slot in 0..count {
        words.push(numbered_slot_word(parts, class, slot))?;
    }
    Ok(())
}

/// Puts the words of the slots of a type behind the others.
pub fn push_slots(parts: &Parts<'_>, class: ClassId, words: &mut Words) -> Result<(), AllocError>
    requires parts { AreParts parts.now }
    requires loading { IsLoading (classes_of parts.now) class }
    ensures { OnOk result (words.new ≡ words.old ++ spec.slot_words (classes_of parts.now) (main_of parts.now) (name_of (heads_in (classes_of parts.now)) class)) }
{
    if is_interface(parts.resolver, class) {
        push_zeros(parts.members.slot_count(class) as usize, words)
    } else {
        push_class_slots(parts, class, words)
    }
}
