//! How tight expressions bind (JLS 15), from the loosest on.

ghost use Rattle.std.specs.Prelude.{◌≡◌};
ghost use Rattle.bcj_parser_rules.specs.Levels as level;
ghost use Rattle.bcj_parser_rules.specs.function.Expressions as rule;

use bcj_parser_rules::Joining;
use bcj_parser_trees::BinOp;

/// Where no operator goes on.
const NONE: u8 = 0;
/// Any expression.
pub const ASSIGNMENT: u8 = 1;

pub const CONDITIONAL: u8 = 2;

const CONDITIONAL_OR: u8 = 3;

const CONDITIONAL_AND: u8 = 4;

const INCLUSIVE_OR: u8 = 5;

const EXCLUSIVE_OR: u8 = 6;

const BITWISE_AND: u8 = 7;

const EQUALITY: u8 = 8;
/// Comparisons and `instanceof`.
pub const RELATIONAL: u8 = 9;

const SHIFT: u8 = 10;

const ADDITIVE: u8 = 11;

const MULTIPLICATIVE: u8 = 12;
/// An operand with its unary operators, `++` and `--`, and casts.
pub const UNARY: u8 = 13;

pub const PRIMARY: u8 = 14;

/// The level of a binary operator's expressions.
pub fn operator_level(op: BinOp) -> u8
    ensures { result ≡ level.operator_level op }
{
    match op {
        BinOp::OrElse => CONDITIONAL_OR,
        BinOp::AndAlso => CONDITIONAL_AND,
        BinOp::Or => INCLUSIVE_OR,
        BinOp::Xor => EXCLUSIVE_OR,
        BinOp::And => BITWISE_AND,
        BinOp::Eq | BinOp::Ne => EQUALITY,
        BinOp::Lt | BinOp::Gt | BinOp::Le | BinOp::Ge => RELATIONAL,
        BinOp::Shl | BinOp::Shr | BinOp::Ushr => SHIFT,
        BinOp::Add | BinOp::Sub => ADDITIVE,
        BinOp::Mul | BinOp::Div | BinOp::Rem => MULTIPLICATIVE,
    }
}

/// How tight what follows binds the operand before it.
pub fn binds(joining: Joining) -> u8
    ensures { result ≡ rule.binds joining }
{
    match joining {
        Joining::Assign(_) => ASSIGNMENT,
        Joining::Question => CONDITIONAL,
        Joining::Binary(op) => operator_level(op),
        Joining::InstanceOf => RELATIONAL,
        Joining::Step(_) => UNARY,
        Joining::Dot | Joining::Bracket => PRIMARY,
        Joining::Nothing => NONE,
    }
}

/// The least level of the expression behind what follows an operand; assignments and conditionals associate to the right,
/// binary operators to the left.
pub fn level_behind(joining: Joining) -> u8
    ensures { result ≡ rule.level_behind joining }
{
    match joining {
        Joining::Question => CONDITIONAL,
        Joining::Binary(op) => operator_level(op) + 1,
        _ => ASSIGNMENT,
    }
}
