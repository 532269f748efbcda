//! Casts and tests of the class of an object, behind their operands. A call gives `next`, the first label behind the node.
#![tactic(auto, using(crate::proofs::Rules::line_rules))]

ghost use Rattle.std.specs.Prelude.{◌≡◌, ◌++◌, OnOk, IfOk};
ghost use Rattle.bcj_symbolic_trees.specs.Types.{ty_of};
ghost use Rattle.bcj_symbolic_measure.specs.Entries.{type_entry};
ghost use Rattle.bcj_symbolic_measure.specs.function.Counts.{entry_of};
ghost use Rattle.bcj_lower_rules.specs.Lines.{place, jump_if_zero};
ghost use Rattle.bcj_lower_rules.specs.Words as words;
ghost use Rattle.bcj_lower_words.specs.Views.{lines_of};

use bcj_lower_words::Lines;
use bcj_symbolic_measure::Entry;
use bcj_symbolic_trees::Ty;
use std::alloc::AllocError;

/// A cast of `a0`, which is kept in temporary `d`; null passes to label `k`.
pub fn cast_to<'a>(
    ty: &'a Ty,
    d: u16,
    k: u32,
    next: u32,
    lines: &mut Lines<'a>,
) -> Result<u32, AllocError>
    ensures lines { OnOk result (lines_of lines.new ≡ lines_of lines.old ++ (words.save d ++ (jump_if_zero k ++ (words.use_entry (type_entry (ty_of ty.now)) ++ (words.instance_test d ++ (words.cast_test ++ (place k ++ words.load d))))))) }
    ensures labels { IfOk result (λ n. n ≡ next) }
{
    lines.save(d)?;
    lines.jump_if_zero(k)?;
    lines.use_entry(Entry::of_type(ty))?;
    lines.instance_test(d)?;
    lines.cast_test()?;
    lines.place(k)?;
    lines.load(d)?;
    Ok(next)
}

/// A test of `a0`, which is kept in temporary `d`; null passes to label `k`.
pub fn test_for<'a>(
    ty: &'a Ty,
    d: u16,
    k: u32,
    next: u32,
    lines: &mut Lines<'a>,
) -> Result<u32, AllocError>
    ensures lines { OnOk result (lines_of lines.new ≡ lines_of lines.old ++ (words.save d ++ (jump_if_zero k ++ (words.use_entry (type_entry (ty_of ty.now)) ++ (words.instance_test d ++ place k))))) }
    ensures labels { IfOk result (λ n. n ≡ next) }
{
    lines.save(d)?;
    lines.jump_if_zero(k)?;
    lines.use_entry(Entry::of_type(ty))?;
    lines.instance_test(d)?;
    lines.place(k)?;
    Ok(next)
}
