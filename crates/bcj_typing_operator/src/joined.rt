//! Nodes of two or three operands.
#![tactic(auto, using(bcj_symbolic_trees::proofs::PlainLemmas::tree_rules))]

ghost use Rattle.std.specs.Prelude.{◌≡◌, [], ◌∷◌, ◌++◌, IfOk, OnOk};
ghost use Rattle.std.specs.Option.{option_and_then};
ghost use Rattle.bcj_symbolic_trees.specs.Trees as tree;
ghost use Rattle.bcj_symbolic_trees.specs.Types.{given, ty_of, arg_of};
ghost use Rattle.bcj_symbolic_trees.specs.Plain.{expr_of};
ghost use Rattle.bcj_decl_rules.specs.Constants as constants;
ghost use Rattle.bcj_typing_rules.specs.Premises.{need};
ghost use Rattle.bcj_typing_rules.specs.Casting as casting;
ghost use Rattle.bcj_typing_rules.specs.Operators as operators;
ghost use Rattle.bcj_typing_rules.specs.Expressions as rules;
ghost use Rattle.bcj_typing_rules.specs.Expressions.{typing};
ghost use Rattle.bcj_typing_node.specs.Forms.{join_of};
ghost use Rattle.bcj_typing_node.specs.Typings.{pairs_of};
ghost use Rattle.bcj_typing_node.specs.Outcomes.{Judges};
ghost use Rattle.bcj_typing_operator.specs.Nodes.{Makes};

use crate::operand::{is_bool, type_or_void};
use crate::operator::{binary_gives, binary_tree};
use bcj_decl_rules::Value;
use bcj_decl_values::{binary_value, chosen_value};
use bcj_parser_trees::BinOp;
use bcj_symbolic_trees::{Arg, Pairs, SymExpr, Ty};
use bcj_typing_node::{Join, Miss, Typing, append, earlier, push_uses, typed, unless};
use bcj_typing_rules::Kind;
use sqlite_items::Boxed;
use std::alloc::{AllocError, Global};

fn binary_worth(op: BinOp, left: Option<Value>, right: Option<Value>) -> Option<Value>
    ensures { result ≡ option_and_then (λ x. option_and_then (constants.binary_value op x) right) left }
{
    match (left, right) {
        (Some(left), Some(right)) => binary_value(op, left, right),
        (Some(_), None) | (None, Some(_) | None) => None,
    }
}

fn binary_node(
    alloc: Global,
    op: BinOp,
    left: Typing,
    right: Typing,
    gives: Ty,
) -> Result<Typing, AllocError>
    ensures { Makes (option_and_then (λ x. option_and_then (constants.binary_value op x) right.value) left.value) (typing (operators.binary_tree op (expr_of left.tree) (expr_of right.tree)) (given (ty_of gives)) (pairs_of left.steps ++ pairs_of right.steps)) result }
{
    let Typing {
        tree: left,
        ty: _,
        steps,
        value: left_value,
    } = left;
    let Typing {
        tree: right,
        ty: _,
        steps: others,
        value: right_value,
    } = right;
    let steps = append(steps, others)?;
    let tree = Boxed::new(alloc, binary_tree(op, left, right))?;
    let value = binary_worth(op, left_value, right_value);
    typed(alloc, tree, Arg::Given(gives), steps, value)
}

/// An operator between operands, whose types go together or not where objects are compared (JLS 15.17 to 15.24).
pub fn binary(
    alloc: Global,
    at: u32,
    op: BinOp,
    left: Typing,
    right: Typing,
    together: bool,
) -> Result<Typing, Miss>
    ensures { Judges at (need Kind.Operand (operators.binary_takes op (arg_of left.ty) (arg_of right.ty)) ∷ need Kind.Cast together ∷ []) (option_and_then (λ x. option_and_then (constants.binary_value op x) right.value) left.value) (typing (operators.binary_tree op (expr_of left.tree) (expr_of right.tree)) (given (operators.type_or_void (operators.binary_gives op (arg_of left.ty) (arg_of right.ty)))) (pairs_of left.steps ++ pairs_of right.steps)) result }
{
    let gives = binary_gives(op, &left.ty, &right.ty);
    let missing = earlier(Kind::Operand, gives.is_some(), unless(Kind::Cast, together));
    match missing {
        Some(kind) => Err(Miss::Untyped { at, kind }),
        None => Ok(binary_node(alloc, op, left, right, type_or_void(gives))?),
    }
}

fn chosen_worth(test: Option<Value>, first: Option<Value>, second: Option<Value>) -> Option<Value>
    ensures { result ≡ option_and_then (λ t. option_and_then (λ x. option_and_then (constants.chosen_value t x) second) first) test }
{
    match (test, first, second) {
        (Some(test), Some(first), Some(second)) => chosen_value(test, first, second),
        (Some(_), Some(_), None) | (Some(_), None, _) | (None, _, _) => None,
    }
}

fn is_joined(join: Join) -> bool
    ensures { result ≡ rules.is_joined (join_of join) }
{
    match join {
        Join::Second | Join::First => true,
        Join::Apart => false,
    }
}

fn joined_type(join: Join, first: Arg, second: Arg) -> Arg
    ensures { arg_of result ≡ rules.joined_type (join_of join) (arg_of first) (arg_of second) }
{
    match join {
        Join::Second => second,
        Join::First | Join::Apart => first,
    }
}

/// Puts the step between two types behind others; to null there is none.
fn push_between(alloc: Global, from: &Arg, to: &Arg, steps: &mut Pairs) -> Result<(), AllocError>
    ensures { OnOk result (pairs_of steps.new ≡ pairs_of steps.old ++ casting.uses_between (arg_of from.now) (arg_of to.now)) }
{
    match to {
        Arg::Given(to) => push_uses(alloc, from, to, steps),
        Arg::Null => Ok(()),
    }
}

fn push_joined(
    alloc: Global,
    join: Join,
    first: &Arg,
    second: &Arg,
    steps: &mut Pairs,
) -> Result<(), AllocError>
    ensures { OnOk result (pairs_of steps.new ≡ pairs_of steps.old ++ rules.joined_steps (join_of join) (arg_of first.now) (arg_of second.now)) }
{
    match join {
        Join::Second => push_between(alloc, first, second, steps),
        Join::First => push_between(alloc, second, first, steps),
        Join::Apart => Ok(()),
    }
}

/// The steps of all parts, and that of the second or third to the other behind them.
fn conditional_steps(
    alloc: Global,
    test: Pairs,
    first: Pairs,
    second: Pairs,
    join: Join,
    first_type: &Arg,
    second_type: &Arg,
) -> Result<Pairs, AllocError>
    ensures { IfOk result (λ all. pairs_of all ≡ pairs_of test ++ (pairs_of first ++ (pairs_of second ++ rules.joined_steps (join_of join) (arg_of first_type.now) (arg_of second_type.now)))) }
{
    let mut steps = append(append(test, first)?, second)?;
    push_joined(alloc, join, first_type, second_type, &mut steps)?;
    Ok(steps)
}

fn conditional_node(
    alloc: Global,
    test: Typing,
    first: Typing,
    second: Typing,
    join: Join,
) -> Result<Typing, AllocError>
    ensures { Makes (option_and_then (λ t. option_and_then (λ x. option_and_then (constants.chosen_value t x) second.value) first.value) test.value) (typing (tree.conditional (expr_of test.tree) (expr_of first.tree) (expr_of second.tree)) (rules.joined_type (join_of join) (arg_of first.ty) (arg_of second.ty)) (pairs_of test.steps ++ (pairs_of first.steps ++ (pairs_of second.steps ++ rules.joined_steps (join_of join) (arg_of first.ty) (arg_of second.ty))))) result }
{
    let steps = conditional_steps(
        alloc,
        test.steps,
        first.steps,
        second.steps,
        join,
        &first.ty,
        &second.ty,
    )?;
    let tree = Boxed::new(alloc, SymExpr::Cond(test.tree, first.tree, second.tree))?;
    let value = chosen_worth(test.value, first.value, second.value);
    typed(
        alloc,
        tree,
        joined_type(join, first.ty, second.ty),
        steps,
        value,
    )
}

/// A choice of two values, of which one has the type of both or neither (JLS 15.25).
pub fn conditional(
    alloc: Global,
    at: u32,
    test: Typing,
    first: Typing,
    second: Typing,
    join: Join,
) -> Result<Typing, Miss>
    ensures { Judges at (need Kind.Operand (rules.is_joined (join_of join)) ∷ need Kind.Condition (operators.is_bool (arg_of test.ty)) ∷ []) (option_and_then (λ t. option_and_then (λ x. option_and_then (constants.chosen_value t x) second.value) first.value) test.value) (typing (tree.conditional (expr_of test.tree) (expr_of first.tree) (expr_of second.tree)) (rules.joined_type (join_of join) (arg_of first.ty) (arg_of second.ty)) (pairs_of test.steps ++ (pairs_of first.steps ++ (pairs_of second.steps ++ rules.joined_steps (join_of join) (arg_of first.ty) (arg_of second.ty))))) result }
{
    let condition = unless(Kind::Condition, is_bool(&test.ty));
    match earlier(Kind::Operand, is_joined(join), condition) {
        Some(kind) => Err(Miss::Untyped { at, kind }),
        None => Ok(conditional_node(alloc, test, first, second, join)?),
    }
}
