//! The parts of statements that are no statements.

ghost use Rattle.std.specs.Prelude.{◌≡◌, ◌+◌, ◌≤◌, ◌<◌, map, IfOk};
ghost use Rattle.bcj_parser_trees.specs.Plain.{expr_of, exprs_of, option_of, stmt_of};
ghost use Rattle.bcj_parser_rules.specs.function.Statements as rule;
ghost use Rattle.bcj_parser_rules.specs.function.Steps.{Reads};
ghost use Rattle.bcj_parser_expression.specs.function.Begin.{begin_of};
ghost use Rattle.bcj_parser_rules.specs.function.Expressions.{room_bound};

use crate::evaluation::{evaluation_nodes, evaluations};
use crate::opening::{Opening, local_opening};
use bcj_parser_cursor::Cursor;
use bcj_parser_cursor::level::ASSIGNMENT;
use bcj_parser_expression::{Begin, expression};
use bcj_parser_rules::{Mark, Site, Stop};
use bcj_parser_trees::{Expr, Stmt};
use sqlite_items::Items;
use std::alloc::Global;

/// An expression in parentheses.
#[tactic(auto, unfolding(bcj_parser_rules::specs::function::Statements::condition))]
pub fn condition(alloc: Global, cursor: &mut Cursor<'_>, room: u32) -> Result<(Expr, u32), Stop>
    requires { room < room_bound }
    ensures reads { Reads (λ p. (expr_of p.0, p.1)) (rule.condition room cursor.old) result cursor.new }
    ensures low { IfOk result (λ p. p.1 ≤ room) }
{
    cursor.expect(Mark::LeftParen, Site::Elsewhere)?;
    let (value, height) = expression(alloc, cursor, room, Begin::Fresh, ASSIGNMENT)?;
    cursor.expect(Mark::RightParen, Site::Elsewhere)?;
    Ok((value, height))
}

/// An expression that may be missing, with its semicolon.
#[tactic(auto, unfolding(bcj_parser_rules::specs::function::Statements::maybe_expression))]
pub fn maybe_expression(
    alloc: Global,
    cursor: &mut Cursor<'_>,
    room: u32,
) -> Result<(Option<Expr>, u32), Stop>
    requires { room < room_bound }
    ensures reads { Reads (λ p. (option_of p.0, p.1)) (rule.maybe_expression room cursor.old) result cursor.new }
    ensures low { IfOk result (λ p. p.1 ≤ room) }
{
    if cursor.sees(Mark::Semicolon) {
        cursor.advance();
        return Ok((None, 0));
    }
    let (value, height) = expression(alloc, cursor, room, Begin::Fresh, ASSIGNMENT)?;
    cursor.expect(Mark::Semicolon, Site::Elsewhere)?;
    Ok((Some(value), height))
}

/// The expressions that begin a `for`, with their semicolon.
#[tactic(auto, unfolding(bcj_parser_rules::specs::function::Statements::init_evaluations))]
fn init_evaluations(
    alloc: Global,
    cursor: &mut Cursor<'_>,
    room: u32,
    begin: Begin,
) -> Result<(Vec<Stmt>, u32), Stop>
    requires { room < room_bound }
    ensures reads { Reads (λ p. (map stmt_of p.0.items, p.1)) (rule.init_evaluations room (begin_of begin) cursor.old) result cursor.new }
    ensures low { IfOk result (λ p. p.1 ≤ room + 1) }
{
    let (values, high) = evaluations(alloc, cursor, room, begin, Site::TypeName, Mark::Semicolon)?;
    let nodes = evaluation_nodes(alloc, values)?;
    Ok((nodes, high + 1))
}

/// What begins a `for`, with its semicolon.
#[tactic(auto, unfolding(bcj_parser_rules::specs::function::Statements::for_init), using(crate::proofs::Openings::local_or_is))]
pub fn for_init(alloc: Global, cursor: &mut Cursor<'_>, room: u32) -> Result<(Vec<Stmt>, u32), Stop>
    requires { room < room_bound }
    ensures reads { Reads (λ p. (map stmt_of p.0.items, p.1)) (rule.for_init room cursor.old) result cursor.new }
    ensures low { IfOk result (λ p. p.1 ≤ room + 1) }
{
    if cursor.sees(Mark::Semicolon) {
        cursor.advance();
        return Ok((Vec::new(alloc), 0));
    }
    match local_opening(alloc, cursor, room, Site::LoopName)? {
        Opening::Declared(nodes, high) => Ok((nodes, high)),
        Opening::Begun(begin) => init_evaluations(alloc, cursor, room, begin),
    }
}

/// What a `for` evaluates behind its body, with the closing parenthesis.
#[tactic(auto, unfolding(bcj_parser_rules::specs::function::Statements::for_update))]
pub fn for_update(
    alloc: Global,
    cursor: &mut Cursor<'_>,
    room: u32,
) -> Result<(Items<Expr>, u32), Stop>
    requires { room < room_bound }
    ensures reads { Reads (λ p. (exprs_of p.0, p.1)) (rule.for_update room cursor.old) result cursor.new }
    ensures low { IfOk result (λ p. p.1 ≤ room) }
{
    if cursor.sees(Mark::RightParen) {
        cursor.advance();
        return Ok((Items::new(alloc), 0));
    }
    let (values, high) = evaluations(
        alloc,
        cursor,
        room,
        Begin::Fresh,
        Site::Elsewhere,
        Mark::RightParen,
    )?;
    Ok((Items::from_vec(values), high))
}
