ghost use Rattle.std.specs.Prelude.{◌≡◌, ◌≤◌, ◌<◌, map, IfOk};
ghost use Rattle.bcj_parser_trees.specs.Plain.{stmt_of};
ghost use Rattle.bcj_parser_rules.specs.function.Statements as rule;
ghost use Rattle.bcj_parser_rules.specs.function.Steps.{Reads};
ghost use Rattle.bcj_parser_rules.specs.function.Expressions.{room_bound};

use crate::grammar::{Grammar, statement};
use bcj_parser_cursor::Cursor;
use bcj_parser_rules::{Site, Stop};
use bcj_parser_trees::Stmt;
use std::alloc::Global;

/// Statements and declarations of a block up to its closing brace, each at most `room` high, appended to `found`, of which
/// the highest is `high` high; with the height of the highest.
pub fn statements_from(
    alloc: Global,
    cursor: &mut Cursor<'_>,
    room: u32,
    found: Vec<Stmt>,
    high: u32,
) -> Result<(Vec<Stmt>, u32), Stop>
    requires room { room < room_bound }
    requires high { high ≤ room }
    ensures reads { Reads (λ p. (map stmt_of p.0.items, p.1)) (rule.statements_from room (rule.statement room) (map stmt_of found.items) high cursor.old) result cursor.new }
    ensures low { IfOk result (λ p. p.1 ≤ room) }
{
    let grammar = Grammar {
        alloc,
        room,
        inner: statement,
    };
    grammar.statements_from(cursor, found, high)
}

/// A block with its braces, of statements at most `room` high; with the height of the highest. `site` is that of a token
/// refused in the place of the opening brace.
pub fn block(
    alloc: Global,
    cursor: &mut Cursor<'_>,
    room: u32,
    site: Site,
) -> Result<(Vec<Stmt>, u32), Stop>
    requires { room < room_bound }
    ensures reads { Reads (λ p. (map stmt_of p.0.items, p.1)) (rule.block room (rule.statement room) site cursor.old) result cursor.new }
    ensures low { IfOk result (λ p. p.1 ≤ room) }
{
    let grammar = Grammar {
        alloc,
        room,
        inner: statement,
    };
    grammar.block(cursor, site)
}
