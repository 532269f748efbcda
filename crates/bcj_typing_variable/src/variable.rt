//! Local variables and parameters.

ghost use Rattle.std.specs.Prelude.{◌≡◌, [], None, IfOk};
ghost use Rattle.bcj_symbolic_trees.specs.Trees as tree;
ghost use Rattle.bcj_symbolic_trees.specs.Types.{ty_of, given};
ghost use Rattle.bcj_typing_rules.specs.Expressions as spec;
ghost use Rattle.bcj_typing_rules.specs.function.Expressions as function;
ghost use Rattle.bcj_typing_node.specs.Outcomes.{Tells};
ghost use Rattle.bcj_typing_node.specs.Typings.{typing_of, placing_of};

use bcj_symbolic_trees::{Arg, Sequence, SymExpr, UpdatePlace};
use bcj_typing_node::{Miss, Placing, Typing, Variable};
use sqlite_items::Boxed;
use std::alloc::Global;

/// A local that a simple name means (JLS 6.5.6.1). Refused for want of memory alone.
#[tactic(auto, using(bcj_symbolic_trees::proofs::PlainLemmas::tree_rules))]
pub fn local(alloc: Global, variable: &Variable) -> Result<Typing, Miss>
    ensures typing { Tells typing_of (function.result (spec.typing (tree.get_local variable.now.number) (given (ty_of variable.now.ty)) [])) result }
    ensures worth { IfOk result (λ t. t.value ≡ None) }
{
    let tree = Boxed::new(alloc, SymExpr::Local(variable.number))?;
    let ty = Arg::Given(variable.ty.copy(alloc)?);
    Ok(Typing {
        tree,
        ty,
        steps: Sequence::new(alloc),
        value: None,
    })
}

/// A local that is assigned (JLS 15.26). Refused for want of memory alone.
#[tactic(auto, using(bcj_symbolic_trees::proofs::PlainLemmas::tree_rules))]
pub fn local_place(alloc: Global, variable: &Variable) -> Result<Placing, Miss>
    ensures { Tells placing_of (function.result (spec.placing (tree.local_place variable.now.number) (ty_of variable.now.ty))) result }
{
    let ty = variable.ty.copy(alloc)?;
    Ok(Placing {
        first: None,
        place: UpdatePlace::Local(variable.number),
        ty,
        steps: Sequence::new(alloc),
        is_assignable: true,
        is_open: true,
    })
}
