//! New objects.
#![tactic(auto, using(bcj_symbolic_trees::proofs::PlainLemmas::tree_rules))]

ghost use Rattle.std.specs.Prelude.{◌∷◌};
ghost use Rattle.bcj_decl_table.specs.Views.{method_of_info};
ghost use Rattle.bcj_typing_rules.specs.Premises.{need};
ghost use Rattle.bcj_typing_rules.specs.Expressions as rules;
ghost use Rattle.bcj_typing_node.specs.Forms.{choice_of};
ghost use Rattle.bcj_typing_node.specs.Typings.{typings_of};
ghost use Rattle.bcj_typing_node.specs.Outcomes.{Judges};
ghost use Rattle.bcj_typing_call.specs.Calls.{Makes, object_needs};

use crate::argument::{Arguments, pass};
use crate::method::method_ref;
use bcj_decl_table::MethodInfo;
use bcj_symbolic_trees::{Arg, Name, Sequence, SymExpr, Ty};
use bcj_typing_node::{Chosen, Miss, Typing, Typings, append, earlier, typed, unless};
use bcj_typing_rules::Kind;
use sqlite_items::Boxed;
use std::alloc::{AllocError, Global};

fn object_node(
    alloc: Global,
    class: &Name,
    method: &MethodInfo,
    args: Typings,
) -> Result<Typing, AllocError>
    ensures { Makes (rules.new_typing class.now (typings_of args) (method_of_info method.now)) result }
{
    let params = method.params.as_slice();
    let Arguments { trees, steps, used } = pass(alloc, args, params, Sequence::new(alloc))?;
    let steps = append(steps, used)?;
    let reference = method_ref(alloc, class, method)?;
    let tree = Boxed::new(alloc, SymExpr::New(reference, trees))?;
    let ty = Arg::Given(Ty::Class(class.copy(alloc)?));
    typed(alloc, tree, ty, steps, None)
}

fn object_of(
    alloc: Global,
    at: u32,
    class: &Name,
    is_there: bool,
    is_abstract: bool,
    method: &MethodInfo,
    args: Typings,
) -> Result<Typing, Miss>
    ensures { Judges at (need Kind.Name is_there ∷ object_needs is_abstract (method_of_info method.now)) None (rules.new_typing class.now (typings_of args) (method_of_info method.now)) result }
{
    let has_objects = unless(Kind::Abstract, !is_abstract);
    match earlier(Kind::Name, is_there, has_objects) {
        Some(kind) => Err(Miss::Untyped { at, kind }),
        None => Ok(object_node(alloc, class, method, args)?),
    }
}

/// A new object of a class, which is there or not, and is abstract or not (JLS 15.9).
pub fn new_object(
    alloc: Global,
    at: u32,
    class: &Name,
    is_there: bool,
    is_abstract: bool,
    chosen: Chosen<'_>,
    args: Typings,
) -> Result<Typing, Miss>
    ensures { Judges at (need Kind.Name is_there ∷ rules.choice_needs (object_needs is_abstract) (choice_of chosen.entry)) None (rules.choice_typing (rules.new_typing class.now (typings_of args)) (choice_of chosen.entry)) result }
{
    match chosen {
        Chosen::One(method) => object_of(alloc, at, class, is_there, is_abstract, method, args),
        Chosen::NoneApplies => Err(Miss::Untyped {
            at,
            kind: if is_there { Kind::Method } else { Kind::Name },
        }),
        Chosen::Ambiguous => Err(Miss::Untyped {
            at,
            kind: if is_there {
                Kind::Ambiguous
            } else {
                Kind::Name
            },
        }),
    }
}
