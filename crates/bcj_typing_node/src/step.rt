//! The subtype steps that are used.

ghost use Rattle.std.specs.Prelude.{◌≡◌, ◌++◌, IfOk, OnOk};
ghost use Rattle.bcj_symbolic_trees.specs.Types.{ty_of, arg_of};
ghost use Rattle.bcj_typing_rules.specs.Casting as spec;
ghost use Rattle.bcj_typing_node.specs.Typings.{pairs_of};

use bcj_symbolic_trees::{Arg, Pair, Pairs, Sequence, Ty};
use std::alloc::{AllocError, Global};

/// Puts the step from a value's type to another behind others; from null there is none.
pub fn push_uses(alloc: Global, from: &Arg, to: &Ty, steps: &mut Pairs) -> Result<(), AllocError>
    ensures { OnOk result (pairs_of steps.new ≡ pairs_of steps.old ++ spec.uses (arg_of from.now) (ty_of to.now)) }
{
    match from {
        Arg::Null => Ok(()),
        Arg::Given(from) => {
            let from = from.copy(alloc)?;
            let to = to.copy(alloc)?;
            steps.push(Pair { from, to })
        }
    }
}

/// The step from a value's type to another; from null there is none.
pub fn uses(alloc: Global, from: &Arg, to: &Ty) -> Result<Pairs, AllocError>
    ensures { IfOk result (λ steps. pairs_of steps ≡ spec.uses (arg_of from.now) (ty_of to.now)) }
{
    let mut steps = Sequence::new(alloc);
    push_uses(alloc, from, to, &mut steps)?;
    Ok(steps)
}

/// Steps, and others behind them.
pub fn append(steps: Pairs, others: Pairs) -> Result<Pairs, AllocError>
    ensures { IfOk result (λ all. pairs_of all ≡ pairs_of steps ++ pairs_of others) }
{
    let mut all = steps.into_vec();
    let mut rest = others.into_vec();
    all.append(&mut rest)?;
    Ok(Sequence::of(all))
}
