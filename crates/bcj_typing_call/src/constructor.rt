//! First calls of constructors.
#![tactic(auto, using(bcj_symbolic_trees::proofs::PlainLemmas::tree_rules))]

ghost use Rattle.std.specs.Prelude.{◌≡◌, [], ◌∷◌, ◌++◌, map, IfOk, OnOk, if◌then◌else◌};
ghost use Rattle.std.specs.Str.{bytes_eq};
ghost use Rattle.bcj_symbolic_trees.specs.Names.{object_name};
ghost use Rattle.bcj_symbolic_trees.specs.Trees as tree;
ghost use Rattle.bcj_symbolic_trees.specs.Types.{method_ref_of};
ghost use Rattle.bcj_symbolic_trees.specs.Plain.{exprs_of, stmt_of};
ghost use Rattle.bcj_decl_rules.specs.Methods.{one};
ghost use Rattle.bcj_decl_table.specs.Views.{method_of_info};
ghost use Rattle.bcj_typing_rules.specs.Premises.{earliest_missing};
ghost use Rattle.bcj_typing_rules.specs.Expressions as rules;
ghost use Rattle.bcj_typing_rules.specs.function.Expressions.{settled};
ghost use Rattle.bcj_typing_node.specs.Forms.{choice_of};
ghost use Rattle.bcj_typing_node.specs.Typings.{typings_of};
ghost use Rattle.bcj_typing_node.specs.Outcomes.{Tells};
ghost use Rattle.bcj_typing_call.specs.Calls.{first_added, starting_of};

use crate::argument::{Arguments, pass, push_class_step};
use crate::method::method_ref;
use bcj_decl_table::MethodInfo;
use bcj_symbolic_trees::{MethodRef, Name, OBJECT, Pairs, Sequence, SymExpr, SymStmt};
use bcj_typing_node::{Chosen, Miss, Typings, append};
use bcj_typing_rules::Kind;
use sqlite_items::Items;
use std::alloc::{AllocError, Global};

/// What the first call of a constructor adds before its body: statements, and the subtype steps that they use.
#[derive(Drop)]
pub struct Starting {
    pub trees: Items<SymStmt>,
    pub steps: Pairs,
}

fn call_on_this(method: MethodRef, args: Items<SymExpr>) -> SymStmt
    ensures { stmt_of result ≡ tree.evaluate (tree.call_special (method_ref_of method) (exprs_of args)) }
{
    SymStmt::Expr(SymExpr::CallSpecial(method, args))
}

fn push_call(
    trees: &mut Items<SymStmt>,
    method: MethodRef,
    args: Items<SymExpr>,
) -> Result<(), AllocError>
    ensures { OnOk result (map stmt_of trees.new ≡ map stmt_of trees.old ++ tree.evaluate (tree.call_special (method_ref_of method) (exprs_of args)) ∷ []) }
{
    trees.push(call_on_this(method, args))
}

/// The call of a constructor of a class; that of Object has no node.
fn calls(
    alloc: Global,
    class: &Name,
    method: &MethodInfo,
    args: Items<SymExpr>,
) -> Result<Items<SymStmt>, AllocError>
    ensures { IfOk result (λ all. map stmt_of all ≡ (if bytes_eq class.now object_name then [] else tree.evaluate (tree.call_special (rules.method_ref class.now (method_of_info method.now)) (exprs_of args)) ∷ [])) }
{
    let mut trees = Items::new(alloc);
    if class.as_str() != OBJECT {
        let reference = method_ref(alloc, class, method)?;
        push_call(&mut trees, reference, args)?;
    }
    Ok(trees)
}

fn first_call(
    alloc: Global,
    own: &Name,
    class: &Name,
    method: &MethodInfo,
    args: Typings,
) -> Result<Starting, AllocError>
    ensures { IfOk result (λ s. starting_of s ≡ first_added own.now class.now (typings_of args) (one (method_of_info method.now))) }
{
    let params = method.params.as_slice();
    let Arguments {
        trees,
        mut steps,
        used,
    } = pass(alloc, args, params, Sequence::new(alloc))?;
    push_class_step(alloc, own, class, &mut steps)?;
    let steps = append(steps, used)?;
    let trees = calls(alloc, class, method, trees)?;
    Ok(Starting { trees, steps })
}

/// The first call of a constructor in a class of its own (JLS 8.8.7): the statement that it adds, and the steps of the arguments, from the
/// class to the called one, and to the parameters.
pub fn constructor_call(
    alloc: Global,
    at: u32,
    own: &Name,
    class: &Name,
    chosen: Chosen<'_>,
    args: Typings,
) -> Result<Starting, Miss>
    ensures { Tells starting_of (settled at (earliest_missing (rules.choice_needs (λ m. []) (choice_of chosen.entry))) (first_added own.now class.now (typings_of args) (choice_of chosen.entry))) result }
{
    match chosen {
        Chosen::One(method) => Ok(first_call(alloc, own, class, method, args)?),
        Chosen::NoneApplies => Err(Miss::Untyped {
            at,
            kind: Kind::Method,
        }),
        Chosen::Ambiguous => Err(Miss::Untyped {
            at,
            kind: Kind::Ambiguous,
        }),
    }
}
