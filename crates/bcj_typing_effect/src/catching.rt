//! `try` with its catches (JLS 14.20).
#![tactic(auto, using(bcj_symbolic_trees::proofs::PlainLemmas::tree_rules))]

ghost use Rattle.std.specs.Prelude.{[], ◌∷◌, ◌++◌, ◌≡◌, IfOk, None};
ghost use Rattle.bcj_symbolic_trees.specs.Trees as tree;
ghost use Rattle.bcj_symbolic_trees.specs.Types.{class_type, given, ty_of};
ghost use Rattle.bcj_symbolic_trees.specs.Plain.{catch_of, catches_of, stmts_of};
ghost use Rattle.bcj_typing_rules.specs.declared.kind.Kind.TheVariants as kind;
ghost use Rattle.bcj_typing_rules.specs.Premises.{need, earliest_missing};
ghost use Rattle.bcj_typing_rules.specs.Casting as casting;
ghost use Rattle.bcj_typing_rules.specs.function.Expressions.{settled};
ghost use Rattle.bcj_typing_node.specs.Outcomes.{Tells};
ghost use Rattle.bcj_typing_node.specs.Typings.{pairs_of};
ghost use Rattle.bcj_typing_effect.specs.Acts.{act, act_of, trees_of};
ghost use Rattle.bcj_typing_effect.specs.Catches.{earlier_of, handling, handling_of, handling_more};

use crate::act::{Acted, Acting};
use crate::parts::made;
use bcj_symbolic_trees::{Arg, Name, Pairs, Sequence, SymCatch, SymStmt, Ty};
use bcj_typing_node::{Miss, append, earlier, push_uses, unless};
use bcj_typing_rules::Kind;
use sqlite_items::Items;
use std::alloc::{AllocError, Global};

/// Typed catches, the steps that they use, and the earliest kind of what they lack.
#[derive(Drop)]
pub struct Handled {
    pub catches: Items<SymCatch>,
    pub steps: Pairs,
    pub missing: Option<Kind>,
}

/// No catches, to which others are added.
pub fn no_catches(alloc: Global) -> Handled
    ensures { handling_of result ≡ handling [] [] None }
{
    Handled {
        catches: Items::new(alloc),
        steps: Sequence::new(alloc),
        missing: None,
    }
}

/// The earliest kind that a catch lacks: that its class is there, that its local's name is new, and that objects of the class can
/// be thrown.
pub fn lacks_catch(is_there: bool, is_new: bool, fits: bool) -> Option<Kind>
    ensures { result ≡ earliest_missing (need kind.Name is_there ∷ need kind.Local is_new ∷ need kind.Throwable fits ∷ []) }
{
    let missing = earlier(Kind::Local, is_new, unless(Kind::Throwable, fits));
    earlier(Kind::Name, is_there, missing)
}

/// The earlier of two kinds that are missing.
fn earlier_of(missing: Option<Kind>, other: Option<Kind>) -> Option<Kind>
    ensures { result ≡ earlier_of missing other }
{
    match missing {
        None => other,
        Some(kind) => earlier(kind, false, other),
    }
}

/// The step of a caught class, and behind it those of its block.
fn caught_steps(
    alloc: Global,
    class: &Name,
    throwable: &Ty,
    block: Pairs,
) -> Result<Pairs, AllocError>
    ensures { IfOk result (λ steps. pairs_of steps ≡ casting.uses (given (class_type class.now)) (ty_of throwable.now) ++ pairs_of block) }
{
    let class = Arg::Given(Ty::Class(class.copy(alloc)?));
    let mut steps = Sequence::new(alloc);
    push_uses(alloc, &class, throwable, &mut steps)?;
    append(steps, block)
}

fn handler(
    alloc: Global,
    class: &Name,
    local: u32,
    body: Items<SymStmt>,
) -> Result<SymCatch, AllocError>
    ensures { IfOk result (λ c. catch_of c ≡ record { class = class.now; local = local; body = stmts_of body }) }
{
    let class = class.copy(alloc)?;
    Ok(SymCatch { class, local, body })
}

/// Catches, and another behind them, which takes the thrown object in the local of this number and lacks this.
pub fn caught(
    alloc: Global,
    before: Handled,
    class: &Name,
    number: u32,
    throwable: &Ty,
    missing: Option<Kind>,
    body: Acting,
) -> Result<Handled, AllocError>
    ensures { IfOk result (λ all. handling_of all ≡ handling_more (handling_of before)
        (record { class = class.now; local = number; body = tree.stmts_from (trees_of body) })
        (casting.uses (given (class_type class.now)) (ty_of throwable.now) ++ pairs_of body.steps) missing) }
{
    let Handled {
        mut catches,
        steps,
        missing: earlier,
    } = before;
    let used = caught_steps(alloc, class, throwable, body.steps)?;
    let steps = append(steps, used)?;
    catches.push(handler(alloc, class, number, body.trees)?)?;
    Ok(Handled {
        catches,
        steps,
        missing: earlier_of(earlier, missing),
    })
}

/// A `try` whose catches lack what they lack together.
pub fn try_catch(alloc: Global, at: u32, body: Acting, handled: Handled) -> Result<Acted, Miss>
    ensures { Tells act_of (settled at handled.missing (act (tree.try_catch (tree.stmts_from (trees_of body)) (catches_of handled.catches))
        (pairs_of body.steps ++ pairs_of handled.steps))) result }
{
    match handled.missing {
        Some(kind) => Err(Miss::Untyped { at, kind }),
        None => {
            let steps = append(body.steps, handled.steps)?;
            let tree = SymStmt::Try(body.trees, handled.catches);
            made(alloc, tree, steps)
        }
    }
}
