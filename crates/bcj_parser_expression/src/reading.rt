ghost use Rattle.std.specs.Prelude.{◌≡◌, ◌+◌, ◌≤◌, ◌<◌, suc, Err, IfOk};
ghost use Rattle.bcj_parser_trees.specs.Plain.{expr_of, exprs_of};
ghost use Rattle.bcj_parser_rules.specs.function.Expressions as rule;
ghost use Rattle.bcj_parser_rules.specs.function.Expressions.{room_bound};
ghost use Rattle.bcj_parser_rules.specs.function.Steps.{Reads};
ghost use Rattle.bcj_parser_expression.specs.function.Begin.{begin_of};
ghost use Rattle.bcj_parser_expression.specs.function.Nests.{Nests, one_of};

use crate::begin::Begin;
use crate::grammar::Grammar;
use crate::shape::{begins, follows_name, is_step, needs_selector};
use bcj_parser_cursor::Cursor;
use bcj_parser_cursor::level::{PRIMARY, UNARY};
use bcj_parser_rules::{Mark, Site, Stop};
use bcj_parser_trees::Expr;
use sqlite_items::Items;
use std::alloc::Global;

/// The first byte of the expression.
pub fn start_of(begin: &Begin, cursor: &Cursor<'_>) -> u32
    ensures { result ≡ rule.start_of (begin_of begin.now) cursor.now }
{
    match begin {
        Begin::Fresh => cursor.at(),
        Begin::Name { at, .. } | Begin::Bracket { at, .. } => *at,
        Begin::This { at } | Begin::Super { at } => *at,
    }
}

/// Why there is no expression where there is no room for one.
pub fn roomless(cursor: &Cursor<'_>, begin: &Begin, least: u8) -> Stop
    ensures { rule.roomless (begin_of begin.now) least cursor.now ≡ (Err result, cursor.now) }
{
    if matches!(begin, Begin::Fresh) && !begins(least, cursor.beginning()) {
        return Stop::Refused(Site::Elsewhere);
    }
    Stop::TooDeep
}

/// Why there is no statement where there is no room for its expression.
pub fn roomless_statement(cursor: &Cursor<'_>, begin: &Begin, site: Site) -> Stop
    ensures { rule.roomless_statement (begin_of begin.now) site cursor.now ≡ (Err result, cursor.now) }
{
    let goes_on = match begin {
        Begin::Fresh => begins(PRIMARY, cursor.beginning()) || is_step(cursor.beginning()),
        Begin::Name { .. } => follows_name(cursor) || cursor.sees(Mark::LeftParen),
        Begin::Bracket { .. } => true,
        Begin::This { .. } => cursor.sees(Mark::Dot) || cursor.sees(Mark::LeftBracket),
        Begin::Super { .. } => cursor.sees(Mark::Dot),
    };
    if goes_on {
        Stop::TooDeep
    } else if matches!(begin, Begin::Name { .. }) {
        Stop::Refused(site)
    } else {
        Stop::Refused(Site::Elsewhere)
    }
}

impl<F: Fn(Global, &mut Cursor<'_>, u32, Begin, u8) -> Result<(Expr, u32), Stop>> Grammar<F> {
    /// An expression that is one level higher at most than its parts.
    #[tactic(auto, unfolding(bcj_parser_rules::specs::function::Expressions::expression))]
    fn expression(
        &self,
        cursor: &mut Cursor<'_>,
        begin: Begin,
        least: u8,
    ) -> Result<(Expr, u32), Stop>
        requires small { self.now.room + 1 < room_bound }
        requires nests { Nests self.now.room (F.pre self.now.reader) (F.post self.now.reader) }
        ensures reads { Reads one_of (rule.expression (suc self.now.room) (begin_of begin) least cursor.old) result cursor.new }
        ensures low { IfOk result (λ p. p.1 ≤ self.now.room + 1) }
    {
        let at = start_of(&begin, cursor);
        let (left, high) = self.operand_from(cursor, least, at, begin)?;
        self.climb(cursor, least, at, left, high)
    }
}

/// An expression of a least level, at most `room` high, with its height.
#[tactic(auto, unfolding(bcj_parser_rules::specs::function::Expressions::expression))]
pub fn expression(
    alloc: Global,
    cursor: &mut Cursor<'_>,
    room: u32,
    begin: Begin,
    least: u8,
) -> Result<(Expr, u32), Stop>
    requires { room < room_bound }
    ensures reads { Reads (λ p. (expr_of p.0, p.1)) (rule.expression room (begin_of begin) least cursor.old) result cursor.new }
    ensures low { IfOk result (λ p. p.1 ≤ room) }
{
    if room == 0 {
        return Err(roomless(cursor, &begin, least));
    }
    let grammar = Grammar {
        alloc,
        room: room - 1,
        reader: expression,
    };
    grammar.expression(cursor, begin, least)
}

/// An operand at most `room` high, with a selector above it.
#[tactic(auto, unfolding(bcj_parser_rules::specs::function::Expressions::below_selector))]
fn below_selector(
    alloc: Global,
    cursor: &mut Cursor<'_>,
    room: u32,
    at: u32,
) -> Result<(Expr, u32), Stop>
    requires { room + 1 < room_bound }
    ensures reads { Reads one_of (rule.below_selector room at cursor.old) result cursor.new }
    ensures low { IfOk result (λ p. p.1 ≤ room) }
{
    if room == 0 {
        return Err(Stop::TooDeep);
    }
    let grammar = Grammar {
        alloc,
        room: room - 1,
        reader: expression,
    };
    grammar.operand(cursor, PRIMARY, at)
}

/// A primary that begins a statement, at most `room + 1` high; a selector that it needs counts at once.
#[tactic(auto, unfolding(bcj_parser_rules::specs::function::Expressions::first_primary))]
fn first_primary(alloc: Global, cursor: &mut Cursor<'_>, room: u32) -> Result<(Expr, u32), Stop>
    requires { room + 1 < room_bound }
    ensures reads { Reads one_of (rule.first_primary room cursor.old) result cursor.new }
    ensures low { IfOk result (λ p. p.1 ≤ room + 1) }
{
    if !needs_selector(cursor.beginning()) {
        return expression(alloc, cursor, room + 1, Begin::Fresh, PRIMARY);
    }
    let at = cursor.at();
    let (left, high) = below_selector(alloc, cursor, room, at)?;
    let grammar = Grammar {
        alloc,
        room,
        reader: expression,
    };
    grammar.climb(cursor, PRIMARY, at, left, high)
}

fn primary_from(
    alloc: Global,
    cursor: &mut Cursor<'_>,
    room: u32,
    begin: Begin,
) -> Result<(Expr, u32), Stop>
    requires { room + 1 < room_bound }
    ensures reads { Reads one_of (rule.primary_from room (begin_of begin) cursor.old) result cursor.new }
    ensures low { IfOk result (λ p. p.1 ≤ room + 1) }
{
    match begin {
        Begin::Fresh => first_primary(alloc, cursor, room),
        _ => expression(alloc, cursor, room + 1, begin, PRIMARY),
    }
}

/// An expression that may be a statement, at most `room` high, with its height.
#[tactic(auto, unfolding(bcj_parser_rules::specs::function::Expressions::statement_expression))]
pub fn statement_expression(
    alloc: Global,
    cursor: &mut Cursor<'_>,
    room: u32,
    begin: Begin,
    site: Site,
) -> Result<(Expr, u32), Stop>
    requires { room < room_bound }
    ensures reads { Reads (λ p. (expr_of p.0, p.1)) (rule.statement_expression room (begin_of begin) site cursor.old) result cursor.new }
    ensures low { IfOk result (λ p. p.1 ≤ room) }
{
    if room == 0 {
        return Err(roomless_statement(cursor, &begin, site));
    }
    if matches!(begin, Begin::Fresh) && is_step(cursor.beginning()) {
        return expression(alloc, cursor, room, Begin::Fresh, UNARY);
    }
    let at = start_of(&begin, cursor);
    let (left, high) = primary_from(alloc, cursor, room - 1, begin)?;
    let grammar = Grammar {
        alloc,
        room: room - 1,
        reader: expression,
    };
    grammar.ended(cursor, at, site, left, high)
}

/// Arguments in parentheses, each at most `room` high, with the height of the highest.
pub fn arguments(
    alloc: Global,
    cursor: &mut Cursor<'_>,
    room: u32,
) -> Result<(Items<Expr>, u32), Stop>
    requires { room < room_bound }
    ensures reads { Reads (λ p. (exprs_of p.0, p.1)) (rule.arguments (rule.expression room) cursor.old) result cursor.new }
    ensures low { IfOk result (λ p. p.1 ≤ room) }
{
    let grammar = Grammar {
        alloc,
        room,
        reader: expression,
    };
    grammar.arguments(cursor)
}
