//! Calls, behind their targets and arguments. A call here gives `next`, the first label behind the node.
#![tactic(auto, using(crate::proofs::Rules::line_rules))]

ghost use Rattle.std.specs.Prelude.{◌≡◌, ◌++◌, suc, OnOk, IfOk};
ghost use Rattle.bcj_symbolic_trees.specs.Types.{method_ref_of};
ghost use Rattle.bcj_symbolic_measure.specs.Entries as entries;
ghost use Rattle.bcj_symbolic_measure.specs.function.Counts.{entry_of};
ghost use Rattle.bcj_lower_rules.specs.Words as words;
ghost use Rattle.bcj_lower_words.specs.Views.{lines_of};

use crate::counting::with_target;
use bcj_lower_words::Lines;
use bcj_symbolic_measure::Entry;
use bcj_symbolic_trees::MethodRef;
use std::alloc::AllocError;

/// A static call with so many arguments from temporary `d` on.
pub fn call_static<'a>(
    method: &'a MethodRef,
    count: usize,
    d: u16,
    next: u32,
    lines: &mut Lines<'a>,
) -> Result<u32, AllocError>
    ensures lines { OnOk result (lines_of lines.new ≡ lines_of lines.old ++ (words.use_entry (entries.static_method (method_ref_of method.now)) ++ (words.initialise ++ (words.copy d count ++ (words.fetch_entry (entries.static_method (method_ref_of method.now)) ++ words.call))))) }
    ensures labels { IfOk result (λ n. n ≡ next) }
{
    lines.use_entry(Entry::static_method(method))?;
    lines.initialise()?;
    lines.copy(d, count)?;
    lines.fetch_entry(Entry::static_method(method))?;
    lines.call()?;
    Ok(next)
}

/// A call by class of the object in temporary `d`, with so many arguments behind it.
pub fn call_virtual<'a>(
    method: &'a MethodRef,
    count: usize,
    d: u16,
    next: u32,
    lines: &mut Lines<'a>,
) -> Result<u32, AllocError>
    ensures lines { OnOk result (lines_of lines.new ≡ lines_of lines.old ++ (words.use_entry (entries.method_offset (method_ref_of method.now)) ++ (words.select_method d ++ (words.copy d (suc count) ++ words.call)))) }
    ensures labels { IfOk result (λ n. n ≡ next) }
{
    lines.use_entry(Entry::method_offset(method))?;
    lines.select_method(d)?;
    lines.copy(d, with_target(count)?)?;
    lines.call()?;
    Ok(next)
}

/// A call by interface of the object in temporary `d`, with so many arguments behind it.
pub fn call_interface<'a>(
    method: &'a MethodRef,
    count: usize,
    d: u16,
    next: u32,
    lines: &mut Lines<'a>,
) -> Result<u32, AllocError>
    ensures lines { OnOk result (lines_of lines.new ≡ lines_of lines.old ++ (words.use_entry (entries.interface_method (method_ref_of method.now)) ++ (words.select_interface_method d ++ (words.copy d (suc count) ++ words.call)))) }
    ensures labels { IfOk result (λ n. n ≡ next) }
{
    lines.use_entry(Entry::interface_method(method))?;
    lines.select_interface_method(d)?;
    lines.copy(d, with_target(count)?)?;
    lines.call()?;
    Ok(next)
}

/// A call of a method as it is named on the object in temporary `d`, with so many arguments behind it.
pub fn call_special<'a>(
    method: &'a MethodRef,
    count: usize,
    d: u16,
    next: u32,
    lines: &mut Lines<'a>,
) -> Result<u32, AllocError>
    ensures lines { OnOk result (lines_of lines.new ≡ lines_of lines.old ++ (words.use_entry (entries.special_method (method_ref_of method.now)) ++ (words.copy d (suc count) ++ words.call))) }
    ensures labels { IfOk result (λ n. n ≡ next) }
{
    lines.use_entry(Entry::special_method(method))?;
    lines.copy(d, with_target(count)?)?;
    lines.call()?;
    Ok(next)
}

/// The constructor of the object in temporary `d`, with so many arguments behind it; `a0` takes the object again.
pub fn construct<'a>(
    method: &'a MethodRef,
    count: usize,
    d: u16,
    next: u32,
    lines: &mut Lines<'a>,
) -> Result<u32, AllocError>
    ensures lines { OnOk result (lines_of lines.new ≡ lines_of lines.old ++ (words.use_entry (entries.special_method (method_ref_of method.now)) ++ (words.copy d (suc count) ++ (words.call ++ words.load d)))) }
    ensures labels { IfOk result (λ n. n ≡ next) }
{
    let next = call_special(method, count, d, next, lines)?;
    lines.load(d)?;
    Ok(next)
}
