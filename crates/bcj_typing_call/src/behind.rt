//! Calls behind an expression, and behind `super`.
#![tactic(auto, using(bcj_symbolic_trees::proofs::PlainLemmas::tree_rules))]

ghost use Rattle.std.specs.Prelude.{◌≡◌, false, [], IfOk, if◌then◌else◌};
ghost use Rattle.bcj_symbolic_trees.specs.Trees as tree;
ghost use Rattle.bcj_symbolic_trees.specs.Types.{method_ref_of};
ghost use Rattle.bcj_symbolic_trees.specs.Plain.{expr_of, exprs_of};
ghost use Rattle.bcj_decl_table.specs.Views.{method_of_info};
ghost use Rattle.bcj_typing_rules.specs.Expressions as rules;
ghost use Rattle.bcj_typing_node.specs.Forms.{choice_of};
ghost use Rattle.bcj_typing_node.specs.Typings.{typing_of, typings_of};
ghost use Rattle.bcj_typing_node.specs.Outcomes.{Judges};
ghost use Rattle.bcj_typing_call.specs.Calls.{Makes, behind_typing, behind_typing_by, super_needs, super_needs_by, super_typing, super_typing_by};

use crate::argument::{Arguments, pass, push_class_step};
use crate::method::{is_abstract, is_static, method_ref};
use bcj_decl_table::MethodInfo;
use bcj_symbolic_trees::{Arg, MethodRef, Name, Sequence, SymExpr};
use bcj_typing_node::{Chosen, Miss, Typing, Typings, append, earlier, typed, unless};
use bcj_typing_rules::Kind;
use sqlite_items::{Boxed, Items};
use std::alloc::{AllocError, Global};

/// The tree of a call on the target; what a static method stands behind is evaluated before.
fn behind_tree(
    alloc: Global,
    is_static: bool,
    on_interface: bool,
    target: Boxed<SymExpr>,
    method: MethodRef,
    args: Items<SymExpr>,
) -> Result<Boxed<SymExpr>, AllocError>
    ensures { IfOk result (λ e. expr_of e ≡ (if is_static then tree.first_then (expr_of target) false (tree.call_static (method_ref_of method) (exprs_of args)) else (if on_interface then tree.call_interface (expr_of target) (method_ref_of method) (exprs_of args) else tree.call_virtual (expr_of target) (method_ref_of method) (exprs_of args)))) }
{
    if is_static {
        let first = target;
        let null_test = false;
        let second = Boxed::new(alloc, SymExpr::CallStatic(method, args))?;
        return Boxed::new(
            alloc,
            SymExpr::Then {
                first,
                null_test,
                second,
            },
        );
    }
    if on_interface {
        Boxed::new(alloc, SymExpr::CallInterface(target, method, args))
    } else {
        Boxed::new(alloc, SymExpr::CallVirtual(target, method, args))
    }
}

fn behind_node(
    alloc: Global,
    class: &Name,
    is_static: bool,
    on_interface: bool,
    target: Typing,
    method: &MethodInfo,
    args: Typings,
) -> Result<Typing, AllocError>
    ensures { Makes (behind_typing_by is_static on_interface (typing_of target) class.now (typings_of args) (method_of_info method.now)) result }
{
    let Typing {
        tree,
        ty: _,
        steps,
        value: _,
    } = target;
    let params = method.params.as_slice();
    let Arguments { trees, steps, used } = pass(alloc, args, params, steps)?;
    let steps = append(steps, used)?;
    let reference = method_ref(alloc, class, method)?;
    let tree = behind_tree(alloc, is_static, on_interface, tree, reference, trees)?;
    let ty = Arg::Given(method.result.copy(alloc)?);
    typed(alloc, tree, ty, steps, None)
}

fn behind_call_by(
    alloc: Global,
    class: &Name,
    is_static: bool,
    on_interface: bool,
    target: Typing,
    method: &MethodInfo,
    args: Typings,
) -> Result<Typing, Miss>
    ensures { Judges 0 [] None (behind_typing_by is_static on_interface (typing_of target) class.now (typings_of args) (method_of_info method.now)) result }
{
    Ok(behind_node(alloc, class, is_static, on_interface, target, method, args)?)
}

/// A call on a value of a class, or of an interface (JLS 15.12.3, 15.12.4).
pub fn behind_call(
    alloc: Global,
    at: u32,
    class: &Name,
    on_interface: bool,
    target: Typing,
    chosen: Chosen<'_>,
    args: Typings,
) -> Result<Typing, Miss>
    ensures { Judges at (rules.choice_needs (λ m. []) (choice_of chosen.entry)) None (rules.choice_typing (behind_typing on_interface (typing_of target) class.now (typings_of args)) (choice_of chosen.entry)) result }
{
    match chosen {
        Chosen::One(method) => behind_call_by(
            alloc,
            class,
            is_static(method),
            on_interface,
            target,
            method,
            args,
        ),
        Chosen::NoneApplies => Err(Miss::Untyped {
            at,
            kind: Kind::Method,
        }),
        Chosen::Ambiguous => Err(Miss::Untyped {
            at,
            kind: Kind::Ambiguous,
        }),
    }
}

/// The tree of a call of a static method, or of one on `super`.
fn super_tree(is_static: bool, method: MethodRef, args: Items<SymExpr>) -> SymExpr
    ensures { expr_of result ≡ (if is_static then tree.call_static (method_ref_of method) (exprs_of args) else tree.call_special (method_ref_of method) (exprs_of args)) }
{
    if is_static {
        SymExpr::CallStatic(method, args)
    } else {
        SymExpr::CallSpecial(method, args)
    }
}

fn super_node(
    alloc: Global,
    own: &Name,
    class: &Name,
    is_static: bool,
    method: &MethodInfo,
    args: Typings,
) -> Result<Typing, AllocError>
    ensures { Makes (super_typing_by is_static own.now class.now (typings_of args) (method_of_info method.now)) result }
{
    let params = method.params.as_slice();
    let Arguments {
        trees,
        mut steps,
        used,
    } = pass(alloc, args, params, Sequence::new(alloc))?;
    push_class_step(alloc, own, class, &mut steps)?;
    let steps = append(steps, used)?;
    let reference = method_ref(alloc, class, method)?;
    let tree = Boxed::new(alloc, super_tree(is_static, reference, trees))?;
    let ty = Arg::Given(method.result.copy(alloc)?);
    typed(alloc, tree, ty, steps, None)
}

fn super_call_by(
    alloc: Global,
    at: u32,
    own: &Name,
    class: &Name,
    has_this: bool,
    is_static: bool,
    is_abstract: bool,
    method: &MethodInfo,
    args: Typings,
) -> Result<Typing, Miss>
    ensures { Judges at (super_needs_by is_abstract has_this) None (super_typing_by is_static own.now class.now (typings_of args) (method_of_info method.now)) result }
{
    let has_body = unless(Kind::Abstract, !is_abstract);
    match earlier(Kind::Static, has_this, has_body) {
        Some(kind) => Err(Miss::Untyped { at, kind }),
        None => Ok(super_node(alloc, own, class, is_static, method, args)?),
    }
}

/// A call behind `super`, where there is `this` or not, in a class of its own with that superclass (JLS 15.12.3).
pub fn super_call(
    alloc: Global,
    at: u32,
    own: &Name,
    class: &Name,
    has_this: bool,
    chosen: Chosen<'_>,
    args: Typings,
) -> Result<Typing, Miss>
    ensures { Judges at (rules.choice_needs (super_needs has_this) (choice_of chosen.entry)) None (rules.choice_typing (super_typing own.now class.now (typings_of args)) (choice_of chosen.entry)) result }
{
    match chosen {
        Chosen::One(method) => super_call_by(
            alloc,
            at,
            own,
            class,
            has_this,
            is_static(method),
            is_abstract(method),
            method,
            args,
        ),
        Chosen::NoneApplies => Err(Miss::Untyped {
            at,
            kind: Kind::Method,
        }),
        Chosen::Ambiguous => Err(Miss::Untyped {
            at,
            kind: Kind::Ambiguous,
        }),
    }
}
