//! Expressions that are statements.

ghost use Rattle.std.specs.Prelude.{◌≡◌, ◌+◌, ◌≤◌, ◌<◌, map, length, IfOk};
ghost use Rattle.bcj_parser_trees.specs.Plain.{expr_of, stmt_of};
ghost use Rattle.bcj_parser_rules.specs.function.Expressions as expr;
ghost use Rattle.bcj_parser_rules.specs.function.Expressions.{room_bound, fresh};
ghost use Rattle.bcj_parser_rules.specs.Grammar as grammar;
ghost use Rattle.bcj_parser_rules.specs.function.Statements as rule;
ghost use Rattle.bcj_parser_rules.specs.function.Steps.{Reads};
ghost use Rattle.bcj_parser_rules.specs.declared.stop.Site.TheVariants as site_is;
ghost use Rattle.bcj_parser_expression.specs.function.Begin.{begin_of};

use bcj_parser_cursor::Cursor;
use bcj_parser_expression::{Begin, statement_expression};
use bcj_parser_rules::{Mark, Site, Stop};
use bcj_parser_trees::{Expr, Stmt};
use std::alloc::{AllocError, Global};

/// The first byte of an expression.
fn start_of(begin: &Begin, cursor: &Cursor<'_>) -> u32
    ensures { result ≡ expr.start_of (begin_of begin.now) cursor.now }
{
    match begin {
        Begin::Fresh => cursor.at(),
        Begin::Name { at, .. } => *at,
        Begin::Bracket { at, .. } => *at,
        Begin::This { at } => *at,
        Begin::Super { at } => *at,
    }
}

/// The first byte of an expression that was read.
#[tactic(auto, using(bcj_parser_trees::proofs::PlainLemmas::tree_rules))]
fn at_of(value: &Expr) -> u32
    ensures { result ≡ grammar.at_of (expr_of value.now) }
{
    match value {
        Expr::Int { at, .. } => *at,
        Expr::Bool { at, .. } => *at,
        Expr::Null { at } => *at,
        Expr::This { at } => *at,
        Expr::Name { at, .. } => *at,
        Expr::Paren { at, .. } => *at,
        Expr::Dot { at, .. } => *at,
        Expr::SuperField { at, .. } => *at,
        Expr::Call { at, .. } => *at,
        Expr::DotCall { at, .. } => *at,
        Expr::SuperCall { at, .. } => *at,
        Expr::New { at, .. } => *at,
        Expr::NewArray { at, .. } => *at,
        Expr::Elem { at, .. } => *at,
        Expr::Unary { at, .. } => *at,
        Expr::Step { at, .. } => *at,
        Expr::Cast { at, .. } => *at,
        Expr::Binary { at, .. } => *at,
        Expr::InstanceOf { at, .. } => *at,
        Expr::Cond { at, .. } => *at,
        Expr::Assign { at, .. } => *at,
    }
}

/// An expression at most `room` high with its semicolon, as a statement; with its height.
#[tactic(auto, unfolding(bcj_parser_rules::specs::function::Statements::evaluated), using(bcj_parser_trees::proofs::PlainLemmas::tree_rules))]
pub fn evaluated(
    alloc: Global,
    cursor: &mut Cursor<'_>,
    room: u32,
    begin: Begin,
    site: Site,
) -> Result<(Stmt, u32), Stop>
    requires { room < room_bound }
    ensures reads { Reads (λ p. (stmt_of p.0, p.1)) (rule.evaluated room (begin_of begin) site cursor.old) result cursor.new }
    ensures low { IfOk result (λ p. p.1 ≤ room + 1) }
{
    let at = start_of(&begin, cursor);
    let (value, height) = statement_expression(alloc, cursor, room, begin, site)?;
    cursor.expect(Mark::Semicolon, Site::Elsewhere)?;
    Ok((Stmt::Eval { at, value }, height + 1))
}

/// The expressions behind commas, appended to `found`, of which the highest is `high` high.
fn further_evaluations(
    alloc: Global,
    cursor: &mut Cursor<'_>,
    room: u32,
    mut found: Vec<Expr>,
    mut high: u32,
) -> Result<(Vec<Expr>, u32), Stop>
    requires room { room < room_bound }
    requires high { high ≤ room }
    ensures reads { Reads (λ p. (map expr_of p.0.items, p.1)) (expr.separated (expr.statement_expression room fresh site_is.Elsewhere) (length cursor.old) (map expr_of found.items) high cursor.old) result cursor.new }
    ensures low { IfOk result (λ p. p.1 ≤ room) }
{
    for _turn in 0..cursor.len() {
        if !cursor.sees(Mark::Comma) {
            return Ok((found, high));
        }
        cursor.advance();
        let (next, height) = statement_expression(
            alloc,
            cursor,
            room,
            Begin::Fresh,
            Site::Elsewhere,
        )?;
        found.push(next)?;
        high = high.max(height);
    }
    Ok((found, high))
}

/// Expressions with commas between, up to a closing terminal.
#[tactic(auto, unfolding(bcj_parser_rules::specs::function::Statements::evaluations, bcj_parser_rules::specs::function::Expressions::listed))]
pub fn evaluations(
    alloc: Global,
    cursor: &mut Cursor<'_>,
    room: u32,
    begin: Begin,
    site: Site,
    closing: Mark,
) -> Result<(Vec<Expr>, u32), Stop>
    requires { room < room_bound }
    ensures reads { Reads (λ p. (map expr_of p.0.items, p.1)) (rule.evaluations room (begin_of begin) site closing cursor.old) result cursor.new }
    ensures low { IfOk result (λ p. p.1 ≤ room) }
{
    let (first, height) = statement_expression(alloc, cursor, room, begin, site)?;
    let first = vec![in alloc; first]?;
    let (found, high) = further_evaluations(alloc, cursor, room, first, height)?;
    cursor.expect(closing, Site::Elsewhere)?;
    Ok((found, high))
}

/// Each expression as a statement.
pub fn evaluation_nodes(alloc: Global, values: Vec<Expr>) -> Result<Vec<Stmt>, AllocError>
    ensures { IfOk result (λ nodes. map stmt_of nodes.items ≡ rule.evaluation_nodes (map expr_of values.items)) }
{
    let mut nodes = Vec::new(alloc);
    for value in values {
        let at = at_of(&value);
        nodes.push(Stmt::Eval { at, value })?;
    }
    Ok(nodes)
}
