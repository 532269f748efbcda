ghost use Rattle.std.specs.Prelude.{◌≡◌, ◌+◌, ◌≤◌, ◌<◌, IfOk, map};
ghost use Rattle.bcj_parser_trees.specs.Plain.{stmt_of, body_of, first_of_constructor};
ghost use Rattle.bcj_parser_rules.specs.function.Declarations as rule;
ghost use Rattle.bcj_parser_rules.specs.function.Steps.{Reads};
ghost use Rattle.bcj_parser_expression.specs.function.Begin.{begin_of};
ghost use Rattle.bcj_parser_declaration.specs.function.Views as view;
ghost use Rattle.bcj_parser_rules.specs.function.Declarations.{levels_above};
ghost use Rattle.bcj_parser_rules.specs.function.Expressions.{room_bound};

use bcj_parser_cursor::Cursor;
use bcj_parser_expression::{Begin, arguments};
use bcj_parser_rules::{Mark, Site, Stop};
use bcj_parser_statement::{block, evaluated, statements_from};
use bcj_parser_trees::{First, Stmt};
use sqlite_items::Items;
use std::alloc::Global;

/// The first call of a constructor and the statements behind it, each with the height of the highest part.
#[derive(Drop)]
pub struct Body {
    pub first: Option<First>,
    pub first_high: u32,
    pub statements: Vec<Stmt>,
    pub high: u32,
}

/// A method's block, or the semicolon in its place; an interface has no block.
#[tactic(auto, unfolding(bcj_parser_rules::specs::function::Declarations::method_body))]
pub fn method_body(
    alloc: Global,
    cursor: &mut Cursor<'_>,
    room: u32,
    interface: bool,
    site: Site,
) -> Result<(Option<Items<Stmt>>, u32), Stop>
    requires { room + levels_above < room_bound }
    ensures reads { Reads (λ p. (body_of p.0, p.1)) (rule.method_body room interface site cursor.old) result cursor.new }
    ensures low { IfOk result (λ p. p.1 ≤ room + 1) }
{
    if cursor.sees(Mark::Semicolon) {
        cursor.advance();
        return Ok((None, 0));
    }
    if interface {
        return Err(Stop::Refused(site));
    }
    let (statements, high) = block(alloc, cursor, room + 1, site)?;
    Ok((Some(Items::from_vec(statements)), high))
}

/// The statements behind the first call, and behind those that are read.
#[tactic(auto, unfolding(bcj_parser_rules::specs::function::Declarations::body_from))]
fn body_from(alloc: Global, cursor: &mut Cursor<'_>, room: u32, begun: Body) -> Result<Body, Stop>
    requires room { room + levels_above < room_bound }
    requires high { begun.high ≤ room + 1 }
    ensures reads { Reads view.body_of (rule.body_from room (first_of_constructor begun.first) begun.first_high (map stmt_of begun.statements.items) begun.high cursor.old) result cursor.new }
    ensures low { IfOk result (λ b. b.high ≤ room + 1) }
    ensures first { IfOk result (λ b. b.first_high ≡ begun.first_high) }
{
    let Body {
        first,
        first_high,
        statements,
        high,
    } = begun;
    let (statements, high) = statements_from(alloc, cursor, room + 1, statements, high)?;
    Ok(Body {
        first,
        first_high,
        statements,
        high,
    })
}

/// The arguments of the first call, its semicolon and the statements behind it.
#[tactic(auto, unfolding(bcj_parser_rules::specs::function::Declarations::first_call))]
fn first_call(
    alloc: Global,
    cursor: &mut Cursor<'_>,
    room: u32,
    at: u32,
    to_super: bool,
) -> Result<Body, Stop>
    requires { room + levels_above < room_bound }
    ensures reads { Reads view.body_of (rule.first_call room at to_super cursor.old) result cursor.new }
    ensures low { IfOk result (λ b. (b.first_high ≤ room + 1) × (b.high ≤ room + 1)) }
{
    let (args, high) = arguments(alloc, cursor, room)?;
    cursor.expect(Mark::Semicolon, Site::Elsewhere)?;
    let begun = Body {
        first: Some(First { at, to_super, args }),
        first_high: high + 1,
        statements: Vec::new(alloc),
        high: 0,
    };
    body_from(alloc, cursor, room, begun)
}

/// The body behind `this` or `super`, with which its first call or its first statement begins.
#[tactic(auto, unfolding(bcj_parser_rules::specs::function::Declarations::begun_body))]
fn begun_body(
    alloc: Global,
    cursor: &mut Cursor<'_>,
    room: u32,
    at: u32,
    to_super: bool,
    begin: Begin,
) -> Result<Body, Stop>
    requires { room + levels_above < room_bound }
    ensures reads { Reads view.body_of (rule.begun_body room at to_super (begin_of begin) cursor.old) result cursor.new }
    ensures low { IfOk result (λ b. (b.first_high ≤ room + 1) × (b.high ≤ room + 1)) }
{
    if cursor.sees(Mark::LeftParen) {
        return first_call(alloc, cursor, room, at, to_super);
    }
    let (statement, high) = evaluated(alloc, cursor, room, begin, Site::Elsewhere)?;
    let mut statements = Vec::new(alloc);
    statements.push(statement)?;
    let begun = Body {
        first: None,
        first_high: 0,
        statements,
        high,
    };
    body_from(alloc, cursor, room, begun)
}

/// What stands between the braces of a constructor.
#[tactic(auto, unfolding(bcj_parser_rules::specs::function::Declarations::constructor_body))]
pub fn constructor_body(alloc: Global, cursor: &mut Cursor<'_>, room: u32) -> Result<Body, Stop>
    requires { room + levels_above < room_bound }
    ensures reads { Reads view.body_of (rule.constructor_body room cursor.old) result cursor.new }
    ensures low { IfOk result (λ b. (b.first_high ≤ room + 1) × (b.high ≤ room + 1)) }
{
    let at = cursor.at();
    if cursor.sees(Mark::This) {
        cursor.advance();
        return begun_body(alloc, cursor, room, at, false, Begin::This { at });
    }
    if cursor.sees(Mark::Super) {
        cursor.advance();
        return begun_body(alloc, cursor, room, at, true, Begin::Super { at });
    }
    let begun = Body {
        first: None,
        first_high: 0,
        statements: Vec::new(alloc),
        high: 0,
    };
    body_from(alloc, cursor, room, begun)
}
