ghost use Rattle.std.specs.Prelude.{◌≡◌};
ghost use Rattle.bcj_decl_rules.specs.Constants as spec;

use bcj_decl_rules::Value;
use bcj_parser_trees::BinOp;

fn number(value: i32) -> Option<Value>
    ensures { result ≡ spec.a_number value }
{
    Some(Value::Int(value))
}

fn truth(value: bool) -> Option<Value>
    ensures { result ≡ spec.a_truth value }
{
    Some(Value::Bool(value))
}

/// A division by zero has no value; the least int divided by -1 is itself (JLS 15.17.2).
fn quotient(left: i32, right: i32) -> Option<Value>
    ensures { result ≡ spec.quotient left right }
{
    if right == 0 {
        None
    } else {
        number(left.wrapping_div(right))
    }
}

/// A remainder of a division by zero has no value; with -1 it is 0 (JLS 15.17.3).
fn remainder(left: i32, right: i32) -> Option<Value>
    ensures { result ≡ spec.remainder left right }
{
    if right != 0 {
        number(left.wrapping_rem(right))
    } else {
        None
    }
}

/// Shifts use the low five bits of their distance (JLS 15.19).
fn shifted(op: BinOp, left: i32, right: i32) -> Option<Value>
    ensures { result ≡ spec.shifted op left right }
{
    let distance = right.cast_unsigned() % 32;
    match op {
        BinOp::Shl => number(left << distance),
        BinOp::Shr => number(left >> distance),
        BinOp::Ushr => number((left.cast_unsigned() >> distance).cast_signed()),
        BinOp::OrElse | BinOp::AndAlso | BinOp::Or | BinOp::Xor | BinOp::And => None,
        BinOp::Eq | BinOp::Ne | BinOp::Lt | BinOp::Gt | BinOp::Le | BinOp::Ge => None,
        BinOp::Add | BinOp::Sub | BinOp::Mul | BinOp::Div | BinOp::Rem => None,
    }
}

fn int_operation(op: BinOp, left: i32, right: i32) -> Option<Value>
    ensures { result ≡ spec.int_operation op left right }
{
    match op {
        BinOp::Add => number(left.wrapping_add(right)),
        BinOp::Sub => number(left.wrapping_sub(right)),
        BinOp::Mul => number(left.wrapping_mul(right)),
        BinOp::Div => quotient(left, right),
        BinOp::Rem => remainder(left, right),
        BinOp::Shl | BinOp::Shr | BinOp::Ushr => shifted(op, left, right),
        BinOp::Or => number(left | right),
        BinOp::Xor => number(left ^ right),
        BinOp::And => number(left & right),
        BinOp::Eq => truth(left == right),
        BinOp::Ne => truth(left != right),
        BinOp::Lt => truth(left < right),
        BinOp::Gt => truth(left > right),
        BinOp::Le => truth(left <= right),
        BinOp::Ge => truth(left >= right),
        BinOp::OrElse | BinOp::AndAlso => None,
    }
}

fn bool_operation(op: BinOp, left: bool, right: bool) -> Option<Value>
    ensures { result ≡ spec.bool_operation op left right }
{
    match op {
        BinOp::OrElse | BinOp::Or => truth(left || right),
        BinOp::AndAlso | BinOp::And => truth(left && right),
        BinOp::Xor | BinOp::Ne => truth(left != right),
        BinOp::Eq => truth(left == right),
        BinOp::Lt | BinOp::Gt | BinOp::Le | BinOp::Ge => None,
        BinOp::Shl | BinOp::Shr | BinOp::Ushr => None,
        BinOp::Add | BinOp::Sub | BinOp::Mul | BinOp::Div | BinOp::Rem => None,
    }
}

/// What a binary operator makes of two values (JLS 15.17 to 15.24).
pub fn binary_value(op: BinOp, left: Value, right: Value) -> Option<Value>
    ensures { result ≡ spec.binary_value op left right }
{
    match (left, right) {
        (Value::Int(left), Value::Int(right)) => int_operation(op, left, right),
        (Value::Bool(left), Value::Bool(right)) => bool_operation(op, left, right),
        (Value::Int(_), Value::Bool(_)) | (Value::Bool(_), Value::Int(_)) => None,
    }
}

/// The part that a conditional expression takes, where both have one type (JLS 15.25).
pub fn chosen_value(test: Value, first: Value, second: Value) -> Option<Value>
    ensures { result ≡ spec.chosen_value test first second }
{
    match (test, first, second) {
        (Value::Bool(test), Value::Int(first), Value::Int(second)) => {
            number(if test { first } else { second })
        }
        (Value::Bool(test), Value::Bool(first), Value::Bool(second)) => {
            truth(if test { first } else { second })
        }
        (Value::Int(_), _, _) => None,
        (Value::Bool(_), Value::Int(_), Value::Bool(_)) => None,
        (Value::Bool(_), Value::Bool(_), Value::Int(_)) => None,
    }
}
