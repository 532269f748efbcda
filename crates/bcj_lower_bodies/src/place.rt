//! The place that an update reads and writes.
#![tactic(auto, using(crate::proofs::Rules::line_rules))]

ghost use Rattle.std.specs.Prelude.{◌≡◌, ◌+◌, ◌++◌, [], ◌∷◌, pos, OnOk};
ghost use Rattle.rv_isa.specs.declared.instruction.Instr.TheVariants as instr;
ghost use Rattle.rv_isa.specs.Registers.{sp, t1, a1};
ghost use Rattle.bcj_symbolic_trees.specs.Types.{field_ref_of};
ghost use Rattle.bcj_symbolic_trees.specs.Plain.{place_of};
ghost use Rattle.bcj_symbolic_measure.specs.Entries.{field_address, field_offset};
ghost use Rattle.bcj_symbolic_measure.specs.function.Counts.{entry_of};
ghost use Rattle.bcj_lower_rules.specs.Lines.{word};
ghost use Rattle.bcj_lower_rules.specs.Words as words;
ghost use Rattle.bcj_lower_rules.specs.Nodes as nodes;
ghost use Rattle.bcj_lower_words.specs.Views.{lines_of};
ghost use Rattle.bcj_lower_bodies.specs.Views.{context_of};

use crate::array::ELEMENTS_AT;
use crate::context::Context;
use bcj_lower_words::{Lines, deeper};
use bcj_symbolic_measure::Entry;
use bcj_symbolic_trees::{FieldRef, UpdatePlace};
use rv_isa::Instr;
use rv_isa::registers::{A1, SP, T1};
use std::alloc::AllocError;

/// The bytes of a word.
const WORD_SIZE: i32 = 4;

/// How often the index of an element doubles to count its bytes.
const WORD_SHIFT: i32 = 2;

/// The offset of a temporary in its frame.
fn temporary(d: u16) -> i32
    ensures { result ≡ words.temporary d }
{
    WORD_SIZE + WORD_SIZE * i32::from(d)
}

/// How many temporaries hold what leads to a place.
pub fn place_saves(place: &UpdatePlace) -> u16
    ensures { result ≡ nodes.place_saves (place_of place.now) }
{
    match place {
        UpdatePlace::Local(_) | UpdatePlace::Static(_) => 0,
        UpdatePlace::Field(_, _) => 1,
        UpdatePlace::Elem(_, _) => 2,
    }
}

/// `t1` takes its sum with the reference in temporary `d`, and `a0` goes so many bytes behind it.
fn store_behind<'a>(d: u16, bytes: u8, lines: &mut Lines<'a>) -> Result<(), AllocError>
    ensures { OnOk result (lines_of lines.new ≡ lines_of lines.old ++ (words.load_second d ++ (word (instr.Add t1 a1 t1) ∷ words.write_at bytes))) }
{
    lines.load_second(d)?;
    lines.word(Instr::Add {
        rd: T1,
        rs1: A1,
        rs2: T1,
    })?;
    lines.write_at(bytes)
}

/// The store of `a0` to a static field that was used before.
fn store_static_again<'a>(field: &'a FieldRef, lines: &mut Lines<'a>) -> Result<(), AllocError>
    ensures { OnOk result (lines_of lines.new ≡ lines_of lines.old ++ (words.fetch_entry (field_address (field_ref_of field.now)) ++ words.write_at 0)) }
{
    lines.fetch_entry(Entry::field_address(field))?;
    lines.write_at(0)
}

/// The store of `a0` to an instance field that was used before, of the object in a temporary.
fn store_field_again<'a>(
    field: &'a FieldRef,
    d: u16,
    lines: &mut Lines<'a>,
) -> Result<(), AllocError>
    ensures { OnOk result (lines_of lines.new ≡ lines_of lines.old ++ (words.fetch_entry (field_offset (field_ref_of field.now)) ++ (words.load_second d ++ (word (instr.Add t1 a1 t1) ∷ words.write_at 0)))) }
{
    lines.fetch_entry(Entry::field_offset(field))?;
    store_behind(d, 0, lines)
}

/// The store of `a0` to the element of the array in temporary `d`, with its index in the one behind it.
fn store_element_again<'a>(d: u16, lines: &mut Lines<'a>) -> Result<(), AllocError>
    ensures { OnOk result (lines_of lines.new ≡ lines_of lines.old ++ (word (instr.Lw t1 sp (words.temporary (d + 1))) ∷ word (instr.Slli t1 t1 (pos 2)) ∷ (words.load_second d ++ (word (instr.Add t1 a1 t1) ∷ words.write_at words.elements_at)))) }
{
    let index = deeper(d)?;
    lines.word(Instr::Lw {
        rd: T1,
        rs1: SP,
        imm: temporary(index),
    })?;
    lines.word(Instr::Slli {
        rd: T1,
        rs1: T1,
        imm: WORD_SHIFT,
    })?;
    store_behind(d, ELEMENTS_AT, lines)
}

/// The store of `a0` to the place of an update. What leads to it is in the temporaries from `d` on.
#[tactic(auto, using(crate::proofs::Rules::line_rules), unfolding(bcj_lower_rules::specs::Nodes::write_lines))]
pub fn write_place<'a>(
    place: &'a UpdatePlace,
    d: u16,
    context: &Context<'a>,
    lines: &mut Lines<'a>,
) -> Result<(), AllocError>
    ensures { OnOk result (lines_of lines.new ≡ lines_of lines.old ++ nodes.write_lines (context_of context.now) d (place_of place.now)) }
{
    match place {
        UpdatePlace::Local(number) => lines.set_local(context.frame, *number),
        UpdatePlace::Static(field) => store_static_again(field, lines),
        UpdatePlace::Field(_, field) => store_field_again(field, d, lines),
        UpdatePlace::Elem(_, _) => store_element_again(d, lines),
    }
}
