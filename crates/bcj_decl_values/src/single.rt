ghost use Rattle.std.specs.Prelude.{◌≡◌};
ghost use Rattle.bcj_decl_rules.specs.Constants as spec;
ghost use Rattle.bcj_symbolic_trees.specs.Types.{ty_of};

use bcj_decl_rules::Value;
use bcj_parser_trees::UnaryOp;
use bcj_symbolic_trees::Ty;

/// What an integer literal is worth, decimal or not; 2147483648 is no literal by itself (JLS 3.10.1).
pub fn literal_value(value: u128, decimal: bool) -> Option<i32>
    ensures { result ≡ spec.literal_value value decimal }
{
    if decimal {
        i32::try_from(value).ok()
    } else {
        u32::try_from(value).ok().map(|bits| bits.cast_signed())
    }
}

/// What a unary operator makes of a value (JLS 15.15).
pub fn unary_value(op: UnaryOp, value: Value) -> Option<Value>
    ensures { result ≡ spec.unary_value op value }
{
    match (op, value) {
        (UnaryOp::Plus, Value::Int(number)) => Some(Value::Int(number)),
        (UnaryOp::Minus, Value::Int(number)) => Some(Value::Int(number.wrapping_neg())),
        (UnaryOp::Flip, Value::Int(number)) => Some(Value::Int(!number)),
        (UnaryOp::Not, Value::Bool(truth)) => Some(Value::Bool(!truth)),
        (UnaryOp::Plus | UnaryOp::Minus | UnaryOp::Flip, Value::Bool(_)) => None,
        (UnaryOp::Not, Value::Int(_)) => None,
    }
}

/// The value, where it is one of the type.
#[tactic(auto, using(bcj_symbolic_trees::proofs::PlainLemmas::tree_rules))]
pub fn of_type(ty: &Ty, value: Value) -> Option<Value>
    ensures { result ≡ spec.of_type (ty_of ty.now) value }
{
    match (ty, value) {
        (Ty::Int, Value::Int(_)) | (Ty::Bool, Value::Bool(_)) => Some(value),
        (Ty::Int, Value::Bool(_)) | (Ty::Bool, Value::Int(_)) => None,
        (Ty::Void | Ty::Class(_) | Ty::Array(_), Value::Int(_) | Value::Bool(_)) => None,
    }
}
