//! Fields and new objects, behind their parts. A call gives `next`, the first label behind the node.
#![tactic(auto, using(crate::proofs::Rules::line_rules))]

ghost use Rattle.std.specs.Prelude.{◌≡◌, ◌+◌, ◌++◌, OnOk, IfOk};
ghost use Rattle.rv_isa.specs.Registers.{t1};
ghost use Rattle.rv_steps.specs.Services as services;
ghost use Rattle.bcj_symbolic_trees.specs.Types.{field_ref_of};
ghost use Rattle.bcj_symbolic_measure.specs.Entries.{field_address, field_offset, new_entry};
ghost use Rattle.bcj_symbolic_measure.specs.function.Counts.{entry_of};
ghost use Rattle.bcj_lower_rules.specs.Words as words;
ghost use Rattle.bcj_lower_rules.specs.Nodes as nodes;
ghost use Rattle.bcj_lower_words.specs.Views.{lines_of};
ghost use Rattle.bcj_lower_bodies.specs.Views.{context_of};

use crate::context::Context;
use bcj_lower_words::{Lines, deeper};
use bcj_symbolic_measure::Entry;
use bcj_symbolic_trees::{FieldRef, Name};
use rv_isa::Instr;
use rv_isa::registers::{A0, T1};
use rv_steps::services;
use std::alloc::AllocError;

/// The value of a static field.
pub fn static_value<'a>(
    field: &'a FieldRef,
    next: u32,
    lines: &mut Lines<'a>,
) -> Result<u32, AllocError>
    ensures lines { OnOk result (lines_of lines.new ≡ lines_of lines.old ++ (words.initialised (field_address (field_ref_of field.now)) ++ words.read_at 0)) }
    ensures labels { IfOk result (λ n. n ≡ next) }
{
    lines.initialised(Entry::field_address(field))?;
    lines.read_at(0)?;
    Ok(next)
}

/// The store of `a0`, which is kept in temporary `d`, to a static field.
pub fn store_static<'a>(
    field: &'a FieldRef,
    d: u16,
    next: u32,
    lines: &mut Lines<'a>,
) -> Result<u32, AllocError>
    ensures lines { OnOk result (lines_of lines.new ≡ lines_of lines.old ++ (words.initialised (field_address (field_ref_of field.now)) ++ (words.load d ++ words.write_at 0))) }
    ensures labels { IfOk result (λ n. n ≡ next) }
{
    lines.initialised(Entry::field_address(field))?;
    lines.load(d)?;
    lines.write_at(0)?;
    Ok(next)
}

/// The value of an instance field of the object that `a0` has, which temporary `d` keeps.
#[tactic(auto, using(crate::proofs::Rules::line_rules), unfolding(bcj_lower_rules::specs::Nodes::field_lines))]
pub fn field_value<'a>(
    field: &'a FieldRef,
    d: u16,
    next: u32,
    context: &Context<'a>,
    lines: &mut Lines<'a>,
) -> Result<u32, AllocError>
    ensures lines { OnOk result (lines_of lines.new ≡ lines_of lines.old ++ nodes.field_lines (context_of context.now) d (field_offset (field_ref_of field.now))) }
    ensures labels { IfOk result (λ n. n ≡ next) }
{
    lines.save(d)?;
    lines.use_entry(Entry::field_offset(field))?;
    lines.field_of_object(A0, d)?;
    lines.word(Instr::Lw {
        rd: A0,
        rs1: A0,
        imm: 0,
    })?;
    Ok(next)
}

/// The store of `a0`, which is kept behind temporary `d`, to an instance field of the object in temporary `d`.
pub fn store_field<'a>(
    field: &'a FieldRef,
    d: u16,
    next: u32,
    lines: &mut Lines<'a>,
) -> Result<u32, AllocError>
    ensures lines { OnOk result (lines_of lines.new ≡ lines_of lines.old ++ (words.use_entry (field_offset (field_ref_of field.now)) ++ (words.field_of_object t1 d ++ (words.load (d + 1) ++ words.write_at 0)))) }
    ensures labels { IfOk result (λ n. n ≡ next) }
{
    lines.use_entry(Entry::field_offset(field))?;
    lines.field_of_object(T1, d)?;
    lines.load(deeper(d)?)?;
    lines.write_at(0)?;
    Ok(next)
}

/// An object of a class is made.
pub fn new_object<'a>(class: &'a Name, lines: &mut Lines<'a>) -> Result<(), AllocError>
    ensures { OnOk result (lines_of lines.new ≡ lines_of lines.old ++ (words.initialised (new_entry class.now) ++ (words.take_entry ++ words.service services.new))) }
{
    lines.initialised(Entry::of_new(class))?;
    lines.take_entry()?;
    lines.service(services::NEW)
}
