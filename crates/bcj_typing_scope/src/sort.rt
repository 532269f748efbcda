//! The sorts of types of values.

ghost use Rattle.std.specs.Prelude.{◌≡◌};
ghost use Rattle.bcj_symbolic_trees.specs.Types.{given, ty_of, arg_of};
ghost use Rattle.bcj_decl_rules.specs.Subtypes as rules;
ghost use Rattle.bcj_typing_rules.specs.Operators as spec;

use bcj_parser_trees::BinOp;
use bcj_symbolic_trees::{Arg, Ty};

/// A class, an interface or an array.
#[tactic(auto, using(bcj_symbolic_trees::proofs::PlainLemmas::tree_rules))]
pub fn is_reference(ty: &Ty) -> bool
    ensures { result ≡ rules.is_reference (ty_of ty.now) }
{
    match ty {
        Ty::Class(_) | Ty::Array(_) => true,
        Ty::Int | Ty::Bool | Ty::Void => false,
    }
}

/// A reference or null.
pub fn is_object(arg: &Arg) -> bool
    ensures { result ≡ spec.is_object (arg_of arg.now) }
{
    match arg {
        Arg::Given(ty) => is_reference(ty),
        Arg::Null => true,
    }
}

#[tactic(auto, using(bcj_symbolic_trees::proofs::PlainLemmas::tree_rules))]
fn is_result(ty: &Ty) -> bool
    ensures { result ≡ spec.is_value (given (ty_of ty.now)) }
{
    match ty {
        Ty::Void => false,
        Ty::Int | Ty::Bool | Ty::Class(_) | Ty::Array(_) => true,
    }
}

/// Anything but a call without result.
pub fn is_value(arg: &Arg) -> bool
    ensures { result ≡ spec.is_value (arg_of arg.now) }
{
    match arg {
        Arg::Given(ty) => is_result(ty),
        Arg::Null => true,
    }
}

fn is_equality(op: BinOp) -> bool
    ensures { result ≡ spec.is_equality op }
{
    matches!(op, BinOp::Eq | BinOp::Ne)
}

/// Whether references are compared (JLS 15.21.3).
pub fn compares_objects(op: BinOp, s: &Arg, t: &Arg) -> bool
    ensures { result ≡ spec.compares_objects op (arg_of s.now) (arg_of t.now) }
{
    is_equality(op) && is_object(s) && is_object(t)
}
