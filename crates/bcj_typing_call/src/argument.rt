//! The arguments of a call.
#![tactic(auto, using(bcj_symbolic_trees::proofs::PlainLemmas::tree_rules))]

ghost use Rattle.std.specs.Prelude.{◌≡◌, [], ◌∷◌, ◌++◌, map, IfOk, OnOk};
ghost use Rattle.bcj_symbolic_trees.specs.Types.{class_type, ty_of, types_of};
ghost use Rattle.bcj_symbolic_trees.specs.Plain.{expr_of, exprs_of};
ghost use Rattle.bcj_typing_rules.specs.Expressions as rules;
ghost use Rattle.bcj_typing_node.specs.Typings.{pairs_of, typings_of};
ghost use Rattle.bcj_typing_call.specs.Calls.{class_step};

use bcj_symbolic_trees::{Name, Pair, Pairs, Sequence, SymExpr, Ty};
use bcj_typing_node::{Typing, Typings, append, push_uses};
use sqlite_items::Items;
use std::alloc::{AllocError, Global};

/// Puts the step of each argument to its parameter behind others.
fn argument_steps(
    alloc: Global,
    args: &[Typing],
    params: &[Ty],
    steps: &mut Pairs,
) -> Result<(), AllocError>
    ensures { OnOk result (pairs_of steps.new ≡ pairs_of steps.old ++ rules.argument_steps (typings_of args.now) (types_of params.now)) }
{
    for (arg, param) in args.iter().zip(params) {
        push_uses(alloc, &arg.ty, param, steps)?;
    }
    Ok(())
}

/// Arguments that are taken apart: their trees, and their steps behind others.
#[derive(Drop)]
struct Taken {
    trees: Items<SymExpr>,
    steps: Pairs,
}

fn take(taken: Taken, arg: Typing) -> Result<Taken, AllocError>
    ensures trees { IfOk result (λ all. map expr_of all.trees ≡ map expr_of taken.trees ++ expr_of arg.tree ∷ []) }
    ensures steps { IfOk result (λ all. pairs_of all.steps ≡ pairs_of taken.steps ++ pairs_of arg.steps) }
{
    let Taken { mut trees, steps } = taken;
    let Typing {
        tree,
        ty: _,
        steps: others,
        value: _,
    } = arg;
    let steps = append(steps, others)?;
    trees.push(tree.into_inner())?;
    Ok(Taken { trees, steps })
}

fn take_all(alloc: Global, args: Typings, before: Pairs) -> Result<Taken, AllocError>
    ensures trees { IfOk result (λ all. map expr_of all.trees ≡ map (λ t. t.tree) (typings_of args)) }
    ensures steps { IfOk result (λ all. pairs_of all.steps ≡ pairs_of before ++ rules.steps_in (typings_of args)) }
{
    let mut taken = Taken {
        trees: Items::new(alloc),
        steps: before,
    };
    for arg in args.into_vec() {
        taken = take(taken, arg)?;
    }
    Ok(taken)
}

/// The arguments of a call: their trees, their steps behind others, and the steps from them to the parameters.
#[derive(Drop)]
pub struct Arguments {
    pub trees: Items<SymExpr>,
    pub steps: Pairs,
    pub used: Pairs,
}

/// Takes arguments apart, whose steps stand behind others.
pub fn pass(
    alloc: Global,
    args: Typings,
    params: &[Ty],
    before: Pairs,
) -> Result<Arguments, AllocError>
    ensures trees { IfOk result (λ all. exprs_of all.trees ≡ rules.trees_in (typings_of args)) }
    ensures steps { IfOk result (λ all. pairs_of all.steps ≡ pairs_of before ++ rules.steps_in (typings_of args)) }
    ensures used { IfOk result (λ all. pairs_of all.used ≡ rules.argument_steps (typings_of args) (types_of params.now)) }
{
    let mut used = Sequence::new(alloc);
    argument_steps(alloc, args.as_slice(), params, &mut used)?;
    let Taken { trees, steps } = take_all(alloc, args, before)?;
    Ok(Arguments { trees, steps, used })
}

fn class_type(alloc: Global, name: &Name) -> Result<Ty, AllocError>
    ensures { IfOk result (λ t. ty_of t ≡ class_type name.now) }
{
    Ok(Ty::Class(name.copy(alloc)?))
}

/// Puts the step from a class to its superclass behind others.
pub fn push_class_step(
    alloc: Global,
    own: &Name,
    class: &Name,
    steps: &mut Pairs,
) -> Result<(), AllocError>
    ensures { OnOk result (pairs_of steps.new ≡ pairs_of steps.old ++ class_step own.now class.now) }
{
    let from = class_type(alloc, own)?;
    let to = class_type(alloc, class)?;
    steps.push(Pair { from, to })
}
