//! Operators on typed operands (JLS 15.15 to 15.25).

ghost use Rattle.std.specs.Prelude.{◌≡◌};
ghost use Rattle.bcj_parser_trees.specs.Trees as source;
ghost use Rattle.bcj_parser_trees.specs.Plain.{expr_of};
ghost use Rattle.bcj_decl_rules.specs.function.Constants as constants;
ghost use Rattle.bcj_typing_scope.specs.Scopes.{answers_in, context_of};
ghost use Rattle.bcj_typing_expression.specs.Typed.{IsTyped, Types};

use bcj_decl_table::type_of;
use bcj_parser_trees::{BinOp, Expr, TypeName, UnaryOp};
use bcj_symbolic_trees::Arg;
use bcj_typing_node::{Miss, Typing};
use bcj_typing_scope::Scope;
use std::alloc::Global;

/// The digits of the least int without its sign.
const LEAST: u128 = 0x8000_0000;

#[tactic(auto, using(bcj_parser_trees::proofs::PlainLemmas::tree_rules))]
fn is_least_literal(e: &Expr) -> bool
    ensures { result ≡ constants.is_least_literal (expr_of e.now) }
{
    match e {
        Expr::Int {
            at: _,
            value,
            decimal,
        } => *decimal && *value == LEAST,
        Expr::Bool { .. }
        | Expr::Null { .. }
        | Expr::This { .. }
        | Expr::Name { .. }
        | Expr::Paren { .. }
        | Expr::Dot { .. }
        | Expr::SuperField { .. }
        | Expr::Call { .. }
        | Expr::DotCall { .. }
        | Expr::SuperCall { .. }
        | Expr::New { .. }
        | Expr::NewArray { .. }
        | Expr::Elem { .. }
        | Expr::Unary { .. }
        | Expr::Step { .. }
        | Expr::Cast { .. }
        | Expr::Binary { .. }
        | Expr::InstanceOf { .. }
        | Expr::Cond { .. }
        | Expr::Assign { .. } => false,
    }
}

/// `-` right before the digits of the least int (JLS 3.10.1).
pub fn spells_least(op: UnaryOp, part: &Expr) -> bool
    ensures { result ≡ constants.spells_least op (expr_of part.now) }
{
    match op {
        UnaryOp::Minus => is_least_literal(part),
        UnaryOp::Plus | UnaryOp::Not | UnaryOp::Flip => false,
    }
}

/// A cast.
pub fn cast_to(
    alloc: Global,
    scope: &Scope<'_>,
    at: u32,
    ty: &TypeName,
    part: Typing,
) -> Result<Typing, Miss>
    ensures { (e : source.PlainExpr) → IsTyped (answers_in scope.now) (context_of scope.now) e part → Types (answers_in scope.now) (context_of scope.now) (source.cast at ty.now e) result }
{
    let to = type_of(alloc, ty)?;
    let is_known = scope.is_known(&ty.base);
    let form = scope.cast_form(&part.ty, &to);
    bcj_typing_operator::cast(alloc, at, to, is_known, form, part)
}

/// An operator between operands.
pub fn operated(
    alloc: Global,
    scope: &Scope<'_>,
    at: u32,
    op: BinOp,
    left: Typing,
    right: Typing,
) -> Result<Typing, Miss>
    ensures { (x y : source.PlainExpr) → IsTyped (answers_in scope.now) (context_of scope.now) x left → IsTyped (answers_in scope.now) (context_of scope.now) y right → Types (answers_in scope.now) (context_of scope.now) (source.binary at op x y) result }
{
    let together = scope.together(op, &left.ty, &right.ty);
    bcj_typing_operator::binary(alloc, at, op, left, right, together)
}

/// An instance test.
pub fn tested(
    alloc: Global,
    scope: &Scope<'_>,
    at: u32,
    part: Typing,
    ty: &TypeName,
) -> Result<Typing, Miss>
    ensures { (e : source.PlainExpr) → IsTyped (answers_in scope.now) (context_of scope.now) e part → Types (answers_in scope.now) (context_of scope.now) (source.instance_of at e ty.now) result }
{
    let to = type_of(alloc, ty)?;
    let given = Arg::Given(to.copy(alloc)?);
    let is_known = scope.is_known(&ty.base);
    let together = scope.go_together(&part.ty, &given);
    bcj_typing_operator::instance_of(alloc, at, part, to, is_known, together)
}

/// A choice of two values.
pub fn decided(
    alloc: Global,
    scope: &Scope<'_>,
    at: u32,
    test: Typing,
    first: Typing,
    second: Typing,
) -> Result<Typing, Miss>
    ensures { (t x y : source.PlainExpr) → IsTyped (answers_in scope.now) (context_of scope.now) t test → IsTyped (answers_in scope.now) (context_of scope.now) x first → IsTyped (answers_in scope.now) (context_of scope.now) y second → Types (answers_in scope.now) (context_of scope.now) (source.conditional at t x y) result }
{
    let join = scope.join(&first.ty, &second.ty);
    bcj_typing_operator::conditional(alloc, at, test, first, second, join)
}
