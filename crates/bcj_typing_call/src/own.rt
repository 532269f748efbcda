//! Calls by a simple name, and behind a type's name.
#![tactic(auto, using(bcj_symbolic_trees::proofs::PlainLemmas::tree_rules))]

ghost use Rattle.std.specs.Prelude.{◌≡◌, IfOk, if◌then◌else◌};
ghost use Rattle.bcj_symbolic_trees.specs.Trees as tree;
ghost use Rattle.bcj_symbolic_trees.specs.Types.{method_ref_of};
ghost use Rattle.bcj_symbolic_trees.specs.Plain.{expr_of, exprs_of};
ghost use Rattle.bcj_decl_table.specs.Views.{method_of_info};
ghost use Rattle.bcj_typing_rules.specs.Expressions as rules;
ghost use Rattle.bcj_typing_node.specs.Forms.{choice_of};
ghost use Rattle.bcj_typing_node.specs.Typings.{typings_of};
ghost use Rattle.bcj_typing_node.specs.Outcomes.{Judges};
ghost use Rattle.bcj_typing_call.specs.Calls.{Makes, own_needs, own_needs_by, own_typing, own_typing_by, type_needs_by};

use crate::argument::{Arguments, pass};
use crate::method::{is_static, method_ref};
use bcj_decl_table::MethodInfo;
use bcj_symbolic_trees::{Arg, MethodRef, Name, Sequence, SymExpr};
use bcj_typing_node::{Chosen, Miss, Typing, Typings, append, typed, unless};
use bcj_typing_rules::Kind;
use sqlite_items::{Boxed, Items};
use std::alloc::{AllocError, Global};

/// The tree of a call of a static method, or of one on `this`.
fn own_tree(
    alloc: Global,
    is_static: bool,
    method: MethodRef,
    args: Items<SymExpr>,
) -> Result<Boxed<SymExpr>, AllocError>
    ensures { IfOk result (λ e. expr_of e ≡ (if is_static then tree.call_static (method_ref_of method) (exprs_of args) else tree.call_virtual rules.this_tree (method_ref_of method) (exprs_of args))) }
{
    if is_static {
        return Boxed::new(alloc, SymExpr::CallStatic(method, args));
    }
    let this = Boxed::new(alloc, SymExpr::Local(0))?;
    Boxed::new(alloc, SymExpr::CallVirtual(this, method, args))
}

fn own_node(
    alloc: Global,
    class: &Name,
    is_static: bool,
    method: &MethodInfo,
    args: Typings,
) -> Result<Typing, AllocError>
    ensures { Makes (own_typing_by is_static class.now (typings_of args) (method_of_info method.now)) result }
{
    let params = method.params.as_slice();
    let Arguments { trees, steps, used } = pass(alloc, args, params, Sequence::new(alloc))?;
    let steps = append(steps, used)?;
    let reference = method_ref(alloc, class, method)?;
    let tree = own_tree(alloc, is_static, reference, trees)?;
    let ty = Arg::Given(method.result.copy(alloc)?);
    typed(alloc, tree, ty, steps, None)
}

fn own_call_by(
    alloc: Global,
    at: u32,
    class: &Name,
    has_this: bool,
    is_static: bool,
    method: &MethodInfo,
    args: Typings,
) -> Result<Typing, Miss>
    ensures { Judges at (own_needs_by is_static has_this) None (own_typing_by is_static class.now (typings_of args) (method_of_info method.now)) result }
{
    match unless(Kind::Static, is_static || has_this) {
        Some(kind) => Err(Miss::Untyped { at, kind }),
        None => Ok(own_node(alloc, class, is_static, method, args)?),
    }
}

/// A call by a simple name in a class, where there is `this` or not (JLS 15.12.3).
pub fn own_call(
    alloc: Global,
    at: u32,
    class: &Name,
    has_this: bool,
    chosen: Chosen<'_>,
    args: Typings,
) -> Result<Typing, Miss>
    ensures { Judges at (rules.choice_needs (own_needs has_this) (choice_of chosen.entry)) None (rules.choice_typing (own_typing class.now (typings_of args)) (choice_of chosen.entry)) result }
{
    match chosen {
        Chosen::One(method) => own_call_by(
            alloc,
            at,
            class,
            has_this,
            is_static(method),
            method,
            args,
        ),
        Chosen::NoneApplies => Err(Miss::Untyped {
            at,
            kind: Kind::Method,
        }),
        Chosen::Ambiguous => Err(Miss::Untyped {
            at,
            kind: Kind::Ambiguous,
        }),
    }
}

fn type_node(
    alloc: Global,
    class: &Name,
    method: &MethodInfo,
    args: Typings,
) -> Result<Typing, AllocError>
    ensures { Makes (rules.type_call class.now (typings_of args) (method_of_info method.now)) result }
{
    let params = method.params.as_slice();
    let Arguments { trees, steps, used } = pass(alloc, args, params, Sequence::new(alloc))?;
    let steps = append(steps, used)?;
    let reference = method_ref(alloc, class, method)?;
    let tree = Boxed::new(alloc, SymExpr::CallStatic(reference, trees))?;
    let ty = Arg::Given(method.result.copy(alloc)?);
    typed(alloc, tree, ty, steps, None)
}

fn type_call_by(
    alloc: Global,
    at: u32,
    class: &Name,
    is_static: bool,
    method: &MethodInfo,
    args: Typings,
) -> Result<Typing, Miss>
    ensures { Judges at (type_needs_by is_static) None (rules.type_call class.now (typings_of args) (method_of_info method.now)) result }
{
    match unless(Kind::Static, is_static) {
        Some(kind) => Err(Miss::Untyped { at, kind }),
        None => Ok(type_node(alloc, class, method, args)?),
    }
}

/// A call behind a type's name (JLS 15.12.3).
pub fn type_call(
    alloc: Global,
    at: u32,
    class: &Name,
    chosen: Chosen<'_>,
    args: Typings,
) -> Result<Typing, Miss>
    ensures { Judges at (rules.choice_needs rules.type_call_needs (choice_of chosen.entry)) None (rules.choice_typing (rules.type_call class.now (typings_of args)) (choice_of chosen.entry)) result }
{
    match chosen {
        Chosen::One(method) => type_call_by(alloc, at, class, is_static(method), method, args),
        Chosen::NoneApplies => Err(Miss::Untyped {
            at,
            kind: Kind::Method,
        }),
        Chosen::Ambiguous => Err(Miss::Untyped {
            at,
            kind: Kind::Ambiguous,
        }),
    }
}
