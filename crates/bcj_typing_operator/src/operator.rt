//! What operators take and give, and the nodes that they have.
#![tactic(auto, using(bcj_symbolic_trees::proofs::PlainLemmas::tree_rules))]

ghost use Rattle.std.specs.Prelude.{◌≡◌, IfOk};
ghost use Rattle.std.specs.Option.{option_map};
ghost use Rattle.bcj_symbolic_trees.specs.Types.{ty_of, arg_of};
ghost use Rattle.bcj_symbolic_trees.specs.Plain.{expr_of};
ghost use Rattle.bcj_typing_rules.specs.Operators as spec;

use crate::operand::{is_bool, is_int, is_object};
use bcj_parser_trees::{BinOp, UnaryOp};
use bcj_symbolic_trees::{Arg, BinaryOp, SymExpr, Ty, UnaryOp as SymUnaryOp};
use sqlite_items::Boxed;
use std::alloc::{AllocError, Global};

/// Whether an operator before its operand takes one of the type.
pub fn unary_takes(op: UnaryOp, ty: &Arg) -> bool
    ensures { result ≡ spec.unary_takes op (arg_of ty.now) }
{
    match op {
        UnaryOp::Not => is_bool(ty),
        UnaryOp::Plus | UnaryOp::Minus | UnaryOp::Flip => is_int(ty),
    }
}

/// The type of its result.
pub fn unary_gives(op: UnaryOp) -> Ty
    ensures { ty_of result ≡ spec.unary_gives op }
{
    match op {
        UnaryOp::Not => Ty::Bool,
        UnaryOp::Plus | UnaryOp::Minus | UnaryOp::Flip => Ty::Int,
    }
}

/// The tree of an operator before its part; `+` has no node.
pub fn unary_tree(
    alloc: Global,
    op: UnaryOp,
    part: Boxed<SymExpr>,
) -> Result<Boxed<SymExpr>, AllocError>
    ensures { IfOk result (λ tree. expr_of tree ≡ spec.unary_tree op (expr_of part)) }
{
    match op {
        UnaryOp::Plus => Ok(part),
        UnaryOp::Minus => Boxed::new(alloc, SymExpr::Unary(SymUnaryOp::Minus, part)),
        UnaryOp::Flip => Boxed::new(alloc, SymExpr::Unary(SymUnaryOp::Flip, part)),
        UnaryOp::Not => Boxed::new(alloc, SymExpr::Unary(SymUnaryOp::Not, part)),
    }
}

fn two_ints(left: &Arg, right: &Arg, gives: Ty) -> Option<Ty>
    ensures { option_map ty_of result ≡ spec.two_ints (arg_of left.now) (arg_of right.now) (ty_of gives) }
{
    if is_int(left) && is_int(right) {
        Some(gives)
    } else {
        None
    }
}

fn two_truths(left: &Arg, right: &Arg) -> Option<Ty>
    ensures { option_map ty_of result ≡ spec.two_truths (arg_of left.now) (arg_of right.now) }
{
    if is_bool(left) && is_bool(right) {
        Some(Ty::Bool)
    } else {
        None
    }
}

/// Two numbers, or two truth values (JLS 15.22).
fn two_bits(left: &Arg, right: &Arg) -> Option<Ty>
    ensures { option_map ty_of result ≡ spec.two_bits (arg_of left.now) (arg_of right.now) }
{
    if is_int(left) && is_int(right) {
        Some(Ty::Int)
    } else {
        two_truths(left, right)
    }
}

/// Two of a kind (JLS 15.21).
fn two_alike(left: &Arg, right: &Arg) -> Option<Ty>
    ensures { option_map ty_of result ≡ spec.two_alike (arg_of left.now) (arg_of right.now) }
{
    if is_int(left) && is_int(right)
        || is_bool(left) && is_bool(right)
        || is_object(left) && is_object(right)
    {
        Some(Ty::Bool)
    } else {
        None
    }
}

/// The type of a binary operator's result, where it takes operands of these types.
pub fn binary_gives(op: BinOp, left: &Arg, right: &Arg) -> Option<Ty>
    ensures { option_map ty_of result ≡ spec.binary_gives op (arg_of left.now) (arg_of right.now) }
{
    match op {
        BinOp::OrElse | BinOp::AndAlso => two_truths(left, right),
        BinOp::Or | BinOp::Xor | BinOp::And => two_bits(left, right),
        BinOp::Eq | BinOp::Ne => two_alike(left, right),
        BinOp::Lt | BinOp::Gt | BinOp::Le | BinOp::Ge => two_ints(left, right, Ty::Bool),
        BinOp::Shl | BinOp::Shr | BinOp::Ushr => two_ints(left, right, Ty::Int),
        BinOp::Add | BinOp::Sub | BinOp::Mul | BinOp::Div | BinOp::Rem => {
            two_ints(left, right, Ty::Int)
        }
    }
}

/// The operator of a node; `||` and `&&` have nodes of their own.
fn node_operator(op: BinOp) -> Option<BinaryOp>
    ensures { result ≡ spec.node_operator op }
{
    match op {
        BinOp::OrElse | BinOp::AndAlso => None,
        BinOp::Or => Some(BinaryOp::Or),
        BinOp::Xor => Some(BinaryOp::Xor),
        BinOp::And => Some(BinaryOp::And),
        BinOp::Eq => Some(BinaryOp::Eq),
        BinOp::Ne => Some(BinaryOp::Ne),
        BinOp::Lt => Some(BinaryOp::Lt),
        BinOp::Gt => Some(BinaryOp::Gt),
        BinOp::Le => Some(BinaryOp::Le),
        BinOp::Ge => Some(BinaryOp::Ge),
        BinOp::Shl => Some(BinaryOp::Shl),
        BinOp::Shr => Some(BinaryOp::Shr),
        BinOp::Ushr => Some(BinaryOp::Ushr),
        BinOp::Add => Some(BinaryOp::Add),
        BinOp::Sub => Some(BinaryOp::Sub),
        BinOp::Mul => Some(BinaryOp::Mul),
        BinOp::Div => Some(BinaryOp::Div),
        BinOp::Rem => Some(BinaryOp::Rem),
    }
}

/// The tree of `||` or `&&`.
fn logic_tree(op: BinOp, left: Boxed<SymExpr>, right: Boxed<SymExpr>) -> SymExpr
    ensures { expr_of result ≡ spec.logic_tree op (expr_of left) (expr_of right) }
{
    match op {
        BinOp::OrElse => SymExpr::Or(left, right),
        BinOp::AndAlso | BinOp::Or | BinOp::Xor | BinOp::And => SymExpr::And(left, right),
        BinOp::Eq | BinOp::Ne => SymExpr::And(left, right),
        BinOp::Lt | BinOp::Gt | BinOp::Le | BinOp::Ge => SymExpr::And(left, right),
        BinOp::Shl | BinOp::Shr | BinOp::Ushr => SymExpr::And(left, right),
        BinOp::Add | BinOp::Sub | BinOp::Mul | BinOp::Div | BinOp::Rem => SymExpr::And(left, right),
    }
}

/// The tree of an operator between its parts.
pub fn binary_tree(op: BinOp, left: Boxed<SymExpr>, right: Boxed<SymExpr>) -> SymExpr
    ensures { expr_of result ≡ spec.binary_tree op (expr_of left) (expr_of right) }
{
    match node_operator(op) {
        Some(op) => SymExpr::Binary(op, left, right),
        None => logic_tree(op, left, right),
    }
}
