//! What may follow an expression, and what may begin one.

ghost use Rattle.std.specs.Prelude.{◌≡◌};
ghost use Rattle.bcj_parser_trees.specs.Plain.{expr_of};
ghost use Rattle.bcj_parser_rules.specs.Grammar as grammar;
ghost use Rattle.bcj_parser_rules.specs.Lexemes.{terminal_at};
ghost use Rattle.bcj_parser_rules.specs.function.Expressions as rule;
ghost use Rattle.bcj_parser_expression.specs.function.Shapes as shapes;

use bcj_parser_cursor::Cursor;
use bcj_parser_cursor::level::{RELATIONAL, UNARY, operator_level};
use bcj_parser_rules::{Beginning, Joining, Site};
use bcj_parser_trees::Expr;

/// What an expression is to what may follow it.
#[derive(Clone, Copy)]
pub enum Shape {
    Name,
    /// A field or an element.
    Place,
    /// A call or the creation of an object.
    Call,
    ArrayCreation,
    /// Another primary.
    Primary,
    /// An assignment, `++` or `--`.
    Change,
    TypeTest,
    /// Another expression that is no primary.
    Operation,
}

impl Shape {
    fn is_place(self) -> bool
        ensures { result ≡ shapes.is_place self }
    {
        matches!(self, Shape::Name | Shape::Place)
    }

    fn is_array_creation(self) -> bool
        ensures { result ≡ shapes.is_array_creation self }
    {
        matches!(self, Shape::ArrayCreation)
    }

    fn is_statement_expression(self) -> bool
        ensures { result ≡ shapes.is_statement_expression self }
    {
        matches!(self, Shape::Call | Shape::Change)
    }

    fn is_primary(self) -> bool
        ensures { result ≡ shapes.is_primary self }
    {
        !matches!(self, Shape::Change | Shape::TypeTest | Shape::Operation)
    }

    fn is_type_test(self) -> bool
        ensures { result ≡ shapes.is_type_test self }
    {
        matches!(self, Shape::TypeTest)
    }

    /// Where the refused token stands behind an expression that stands at such a site where it is a name.
    fn site_behind(self, site: Site) -> Site
        ensures { result ≡ shapes.site_behind site self }
    {
        match self {
            Shape::Name => site,
            _ => Site::Elsewhere,
        }
    }
}

#[tactic(auto, using(bcj_parser_trees::proofs::PlainLemmas::tree_rules))]
fn shape_of(expr: &Expr) -> Shape
    ensures { result ≡ shapes.shape_of (expr_of expr.now) }
{
    match expr {
        Expr::Name { .. } => Shape::Name,
        Expr::Dot { .. } => Shape::Place,
        Expr::SuperField { .. } => Shape::Place,
        Expr::Elem { .. } => Shape::Place,
        Expr::Call { .. } => Shape::Call,
        Expr::DotCall { .. } => Shape::Call,
        Expr::SuperCall { .. } => Shape::Call,
        Expr::New { .. } => Shape::Call,
        Expr::NewArray { .. } => Shape::ArrayCreation,
        Expr::Int { .. } => Shape::Primary,
        Expr::Bool { .. } => Shape::Primary,
        Expr::Null { .. } => Shape::Primary,
        Expr::This { .. } => Shape::Primary,
        Expr::Paren { .. } => Shape::Primary,
        Expr::Step { .. } => Shape::Change,
        Expr::Assign { .. } => Shape::Change,
        Expr::InstanceOf { .. } => Shape::TypeTest,
        Expr::Unary { .. } => Shape::Operation,
        Expr::Cast { .. } => Shape::Operation,
        Expr::Binary { .. } => Shape::Operation,
        Expr::Cond { .. } => Shape::Operation,
    }
}

/// Whether the expression can be assigned to.
pub fn is_place(expr: &Expr) -> bool
    ensures { result ≡ grammar.is_place (expr_of expr.now) }
{
    shape_of(expr).is_place()
}

fn is_array_creation(expr: &Expr) -> bool
    ensures { result ≡ grammar.is_array_creation (expr_of expr.now) }
{
    shape_of(expr).is_array_creation()
}

/// Whether the expression may be a statement (JLS 14.8).
pub fn is_statement_expression(expr: &Expr) -> bool
    ensures { result ≡ grammar.is_statement_expression (expr_of expr.now) }
{
    shape_of(expr).is_statement_expression()
}

fn is_primary(expr: &Expr) -> bool
    ensures { result ≡ rule.is_primary (expr_of expr.now) }
{
    shape_of(expr).is_primary()
}

fn is_type_test(expr: &Expr) -> bool
    ensures { result ≡ rule.is_type_test (expr_of expr.now) }
{
    shape_of(expr).is_type_test()
}

/// Whether it may follow such an expression.
pub fn allows(joining: Joining, expr: &Expr) -> bool
    ensures { result ≡ rule.allows joining (expr_of expr.now) }
{
    match joining {
        Joining::Binary(op) => operator_level(op) <= RELATIONAL || !is_type_test(expr),
        Joining::Assign(_) | Joining::Step(_) => is_place(expr),
        Joining::Dot => is_primary(expr),
        Joining::Bracket => is_primary(expr) && !is_array_creation(expr),
        Joining::Question | Joining::InstanceOf | Joining::Nothing => true,
    }
}

/// Whether an expression of a least level may begin so.
pub fn begins(least: u8, beginning: Beginning) -> bool
    ensures { result ≡ rule.begins least beginning }
{
    match beginning {
        Beginning::Nothing => false,
        Beginning::Signed(_) | Beginning::Stepped(_) => least <= UNARY,
        _ => true,
    }
}

pub fn is_step(beginning: Beginning) -> bool
    ensures { result ≡ rule.is_step beginning }
{
    matches!(beginning, Beginning::Stepped(_))
}

/// Whether what begins so is no statement without a selector behind it.
pub fn needs_selector(beginning: Beginning) -> bool
    ensures { result ≡ rule.needs_selector beginning }
{
    matches!(
        beginning,
        Beginning::Int | Beginning::Bool(_) | Beginning::Null | Beginning::This | Beginning::Paren
    )
}

/// Whether a statement goes on so behind a name.
pub fn follows_name(cursor: &Cursor<'_>) -> bool
    ensures { result ≡ rule.follows_name (terminal_at cursor.now) }
{
    matches!(
        cursor.joining(),
        Joining::Assign(_) | Joining::Step(_) | Joining::Dot | Joining::Bracket
    )
}

/// Where the refused token stands behind the expression of a statement.
pub fn site_behind(site: Site, expr: &Expr) -> Site
    ensures { result ≡ rule.site_behind site (expr_of expr.now) }
{
    shape_of(expr).site_behind(site)
}
