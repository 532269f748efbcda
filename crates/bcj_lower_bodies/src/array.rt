//! Arrays, behind their parts. A call gives `next`, the first label behind the node.
#![tactic(auto, using(crate::proofs::Rules::line_rules))]

ghost use Rattle.std.specs.Prelude.{◌≡◌, ◌+◌, ◌++◌, [], ◌∷◌, pos, OnOk, IfOk, if◌then◌else◌};
ghost use Rattle.rv_isa.specs.declared.instruction.Instr.TheVariants as instr;
ghost use Rattle.rv_isa.specs.Registers.{a0};
ghost use Rattle.rv_steps.specs.Services as services;
ghost use Rattle.bcj_symbolic_trees.specs.Types.{ty_of};
ghost use Rattle.bcj_symbolic_trees.specs.Plain.{expr_of};
ghost use Rattle.bcj_symbolic_check.specs.Judgements.{sort};
ghost use Rattle.bcj_symbolic_check.specs.function.Views.{frame_of};
ghost use Rattle.bcj_symbolic_measure.specs.Entries.{type_entry};
ghost use Rattle.bcj_symbolic_measure.specs.Scheme as scheme;
ghost use Rattle.bcj_symbolic_measure.specs.function.Counts.{entry_of};
ghost use Rattle.bcj_lower_rules.specs.Lines.{word};
ghost use Rattle.bcj_lower_rules.specs.Words as words;
ghost use Rattle.bcj_lower_rules.specs.Nodes as nodes;
ghost use Rattle.bcj_lower_words.specs.Views.{lines_of};

use crate::counting::further;
use bcj_lower_words::{Lines, deeper};
use bcj_symbolic_check::Body;
use bcj_symbolic_measure::{Entry, holds_references};
use bcj_symbolic_trees::{SymExpr, Ty};
use rv_isa::Instr;
use rv_isa::registers::A0;
use rv_steps::services;
use std::alloc::AllocError;

/// The bytes of an array before its elements.
pub const ELEMENTS_AT: u8 = 8;

/// Where an array has its length.
const LENGTH_AT: i32 = 4;

/// The element of the array in a temporary, with its index in `a0`.
pub fn element_value<'a>(d: u16, next: u32, lines: &mut Lines<'a>) -> Result<u32, AllocError>
    ensures lines { OnOk result (lines_of lines.new ≡ lines_of lines.old ++ (nodes.index_of_saved d ++ words.read_at words.elements_at)) }
    ensures labels { IfOk result (λ n. n ≡ next) }
{
    lines.index_of_saved(d)?;
    lines.read_at(ELEMENTS_AT)?;
    Ok(next)
}

/// The check of a store, where the elements are references.
fn store_check<'a>(references: bool, d: u16, lines: &mut Lines<'a>) -> Result<(), AllocError>
    ensures { OnOk result (lines_of lines.new ≡ lines_of lines.old ++ (if references then words.store_check d else [])) }
{
    if references {
        lines.store_check(d)
    } else {
        Ok(())
    }
}

/// The store of `a0` to the element of the array in temporary `d`; the two behind it keep the index and `a0`.
pub fn store_element<'a>(
    array: &'a SymExpr,
    d: u16,
    next: u32,
    body: &Body<'a>,
    lines: &mut Lines<'a>,
) -> Result<u32, AllocError>
    ensures lines { OnOk result (lines_of lines.new ≡ lines_of lines.old ++ (words.load_second (d + 1) ++ (words.load d ++ (words.element_address ++ ((if scheme.holds_references (sort (frame_of body.now) (expr_of array.now)) then words.store_check d else []) ++ (words.load (d + 2) ++ words.write_at words.elements_at)))))) }
    ensures labels { IfOk result (λ n. n ≡ next) }
{
    lines.load_second(deeper(d)?)?;
    lines.load(d)?;
    lines.element_address()?;
    store_check(holds_references(array, body), d, lines)?;
    lines.load(further(d, 2)?)?;
    lines.write_at(ELEMENTS_AT)?;
    Ok(next)
}

/// The length of the array that `a0` has.
pub fn array_length<'a>(next: u32, lines: &mut Lines<'a>) -> Result<u32, AllocError>
    ensures lines { OnOk result (lines_of lines.new ≡ lines_of lines.old ++ (words.null_test ++ word (instr.Lw a0 a0 (pos 4)) ∷ [])) }
    ensures labels { IfOk result (λ n. n ≡ next) }
{
    lines.null_test()?;
    lines.word(Instr::Lw {
        rd: A0,
        rs1: A0,
        imm: LENGTH_AT,
    })?;
    Ok(next)
}

/// An array of a type is made, with so many elements as temporary `d` says.
pub fn new_array<'a>(
    ty: &'a Ty,
    d: u16,
    next: u32,
    lines: &mut Lines<'a>,
) -> Result<u32, AllocError>
    ensures lines { OnOk result (lines_of lines.new ≡ lines_of lines.old ++ (words.use_entry (type_entry (ty_of ty.now)) ++ (words.load_second d ++ (words.take_entry ++ words.service services.new_array)))) }
    ensures labels { IfOk result (λ n. n ≡ next) }
{
    lines.use_entry(Entry::of_type(ty))?;
    lines.load_second(d)?;
    lines.take_entry()?;
    lines.service(services::NEW_ARRAY)?;
    Ok(next)
}
