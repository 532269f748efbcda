//! Nodes without parts.
#![tactic(auto, using(bcj_symbolic_trees::proofs::PlainLemmas::tree_rules))]

ghost use Rattle.std.specs.Prelude.{[], ◌∷◌, option_map};
ghost use Rattle.std.specs.Option.{is_some};
ghost use Rattle.bcj_symbolic_trees.specs.Trees as tree;
ghost use Rattle.bcj_symbolic_trees.specs.Types.{int_type, bool_type, class_type, given, null_arg, arg_of};
ghost use Rattle.bcj_symbolic_trees.specs.Plain.{expr_of};
ghost use Rattle.bcj_decl_rules.specs.Constants.{literal_value};
ghost use Rattle.bcj_decl_rules.specs.function.Constants.{least_int};
ghost use Rattle.bcj_typing_rules.specs.Premises.{need};
ghost use Rattle.bcj_typing_rules.specs.Expressions.{typing, this_tree, literal_tree, least_tree};
ghost use Rattle.bcj_typing_node.specs.Outcomes.{Judges};
ghost use Rattle.bcj_typing_operator.specs.Nodes.{Gives, Makes};

use bcj_decl_rules::Value;
use bcj_decl_values::literal_value;
use bcj_symbolic_trees::{Arg, Name, Sequence, SymExpr, Ty};
use bcj_typing_node::{Miss, Typing, typed, unless};
use bcj_typing_rules::Kind;
use sqlite_items::Boxed;
use std::alloc::{AllocError, Global};

fn leaf(alloc: Global, tree: SymExpr, ty: Arg, value: Option<Value>) -> Result<Typing, AllocError>
    ensures { Makes value (typing (expr_of tree) (arg_of ty) []) result }
{
    let tree = Boxed::new(alloc, tree)?;
    typed(alloc, tree, ty, Sequence::new(alloc), value)
}

/// An integer literal (JLS 3.10.1, 15.8.1).
pub fn int_literal(alloc: Global, at: u32, value: u128, decimal: bool) -> Result<Typing, Miss>
    ensures { Judges at (need Kind.Literal (is_some (literal_value value decimal)) ∷ []) (option_map Value.Int (literal_value value decimal)) (typing (literal_tree (literal_value value decimal)) (given int_type) []) result }
{
    match literal_value(value, decimal) {
        None => Err(Miss::Untyped {
            at,
            kind: Kind::Literal,
        }),
        Some(number) => {
            let value = Some(Value::Int(number));
            Ok(leaf(alloc, SymExpr::Int(number), Arg::Given(Ty::Int), value)?)
        }
    }
}

/// `true` or `false` (JLS 15.8.1).
pub fn bool_literal(alloc: Global, truth: bool) -> Result<Typing, Miss>
    ensures { Gives (Some (Value.Bool truth)) (typing (tree.bool_value truth) (given bool_type) []) result }
{
    let value = Some(Value::Bool(truth));
    Ok(leaf(alloc, SymExpr::Bool(truth), Arg::Given(Ty::Bool), value)?)
}

/// `null` (JLS 15.8.1).
pub fn null_literal(alloc: Global) -> Result<Typing, Miss>
    ensures { Gives None (typing tree.null_value null_arg []) result }
{
    Ok(leaf(alloc, SymExpr::Null, Arg::Null, None)?)
}

/// The least int, `-` right before 2147483648, which is one literal (JLS 3.10.1).
pub fn least(alloc: Global) -> Result<Typing, Miss>
    ensures { Gives (Some least_int) (typing least_tree (given int_type) []) result }
{
    let value = Some(Value::Int(i32::MIN));
    Ok(leaf(alloc, SymExpr::Int(i32::MIN), Arg::Given(Ty::Int), value)?)
}

/// `this` in a class (JLS 15.8.3).
pub fn this_value(alloc: Global, at: u32, class: &Name, has_this: bool) -> Result<Typing, Miss>
    ensures { Judges at (need Kind.Static has_this ∷ []) None (typing this_tree (given (class_type class.now)) []) result }
{
    match unless(Kind::Static, has_this) {
        Some(kind) => Err(Miss::Untyped { at, kind }),
        None => {
            let class = class.copy(alloc)?;
            Ok(leaf(alloc, SymExpr::Local(0), Arg::Given(Ty::Class(class)), None)?)
        }
    }
}
