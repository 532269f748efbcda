//! What operators take.

ghost use Rattle.std.specs.Prelude.{◌≡◌};
ghost use Rattle.bcj_symbolic_trees.specs.Types.{ty_of, given, arg_of};
ghost use Rattle.bcj_typing_rules.specs.Operators as spec;
ghost use Rattle.bcj_typing_rules.specs.Expressions as expressions;

use bcj_parser_trees::BinOp;
use bcj_symbolic_trees::{Arg, BinaryOp, Ty};

/// Whether a type is `int`.
#[tactic(auto, using(bcj_symbolic_trees::proofs::PlainLemmas::tree_rules))]
pub fn is_int(ty: &Ty) -> bool
    ensures { result ≡ spec.is_int (given (ty_of ty.now)) }
{
    match ty {
        Ty::Int => true,
        Ty::Bool | Ty::Void | Ty::Class(_) | Ty::Array(_) => false,
    }
}

/// Whether a type is `boolean`.
#[tactic(auto, using(bcj_symbolic_trees::proofs::PlainLemmas::tree_rules))]
fn is_bool(ty: &Ty) -> bool
    ensures { result ≡ spec.is_bool (given (ty_of ty.now)) }
{
    match ty {
        Ty::Bool => true,
        Ty::Int | Ty::Void | Ty::Class(_) | Ty::Array(_) => false,
    }
}

/// Whether a value is an int.
pub fn is_int_value(value: &Arg) -> bool
    ensures { result ≡ spec.is_int (arg_of value.now) }
{
    match value {
        Arg::Given(ty) => is_int(ty),
        Arg::Null => false,
    }
}

/// Whether a value is a truth value.
fn is_bool_value(value: &Arg) -> bool
    ensures { result ≡ spec.is_bool (arg_of value.now) }
{
    match value {
        Arg::Given(ty) => is_bool(ty),
        Arg::Null => false,
    }
}

/// Whether an operator of a compound assignment takes a variable and a value (JLS 15.26.2), so that what it gives has the variable's
/// type.
#[tactic(auto, using(crate::proofs::Compounds::compound_rules))]
pub fn compound_takes(op: BinOp, variable: &Ty, value: &Arg) -> bool
    ensures { result ≡ spec.compound_takes op (ty_of variable.now) (arg_of value.now) }
{
    let two_ints = is_int(variable) && is_int_value(value);
    let two_truths = is_bool(variable) && is_bool_value(value);
    match op {
        BinOp::OrElse | BinOp::AndAlso => false,
        BinOp::Eq | BinOp::Ne | BinOp::Lt | BinOp::Gt | BinOp::Le | BinOp::Ge => false,
        BinOp::Or | BinOp::Xor | BinOp::And => two_ints || two_truths,
        BinOp::Shl | BinOp::Shr | BinOp::Ushr => two_ints,
        BinOp::Add | BinOp::Sub | BinOp::Mul | BinOp::Div | BinOp::Rem => two_ints,
    }
}

/// The operator of a node; `||` and `&&` have nodes of their own.
pub fn node_operator(op: BinOp) -> Option<BinaryOp>
    ensures { result ≡ spec.node_operator op }
{
    match op {
        BinOp::OrElse | BinOp::AndAlso => None,
        BinOp::Or => Some(BinaryOp::Or),
        BinOp::Xor => Some(BinaryOp::Xor),
        BinOp::And => Some(BinaryOp::And),
        BinOp::Eq => Some(BinaryOp::Eq),
        BinOp::Ne => Some(BinaryOp::Ne),
        BinOp::Lt => Some(BinaryOp::Lt),
        BinOp::Gt => Some(BinaryOp::Gt),
        BinOp::Le => Some(BinaryOp::Le),
        BinOp::Ge => Some(BinaryOp::Ge),
        BinOp::Shl => Some(BinaryOp::Shl),
        BinOp::Shr => Some(BinaryOp::Shr),
        BinOp::Ushr => Some(BinaryOp::Ushr),
        BinOp::Add => Some(BinaryOp::Add),
        BinOp::Sub => Some(BinaryOp::Sub),
        BinOp::Mul => Some(BinaryOp::Mul),
        BinOp::Div => Some(BinaryOp::Div),
        BinOp::Rem => Some(BinaryOp::Rem),
    }
}

/// The operator of `++` or `--` (JLS 15.14, 15.15).
pub fn step_operator(plus: bool) -> BinaryOp
    ensures { result ≡ expressions.step_operator plus }
{
    if plus { BinaryOp::Add } else { BinaryOp::Sub }
}
