//! What begins as a declaration of locals or as an expression.

ghost use Rattle.std.specs.Prelude.{◌≤◌, ◌<◌, ◌+◌, IfOk};
ghost use Rattle.bcj_parser_rules.specs.function.Steps.{Reads};
ghost use Rattle.bcj_parser_statement.specs.function.Openings as rule;
ghost use Rattle.bcj_parser_statement.specs.function.Views.{opening_of, IsLow};
ghost use Rattle.bcj_parser_rules.specs.function.Expressions.{room_bound};

use crate::local::{array_locals, class_locals, typed_locals};
use bcj_names::Name;
use bcj_parser_cursor::Cursor;
use bcj_parser_expression::Begin;
use bcj_parser_rules::{Mark, Site, Stop, TypeBeginning};
use bcj_parser_trees::Stmt;
use std::alloc::Global;

#[derive(Drop)]
pub enum Opening {
    /// Declared locals with the height of the highest.
    Declared(Vec<Stmt>, u32),
    /// Tokens that begin an expression.
    Begun(Begin),
}

/// Behind a name and at `[`.
#[tactic(auto, unfolding(crate::specs::function::Openings::bracket_opening))]
fn bracket_opening(
    alloc: Global,
    cursor: &mut Cursor<'_>,
    room: u32,
    site: Site,
    at: u32,
    name: Name,
) -> Result<Opening, Stop>
    requires { room < room_bound }
    ensures reads { Reads opening_of (rule.bracket_opening room site at name cursor.old) result cursor.new }
    ensures low { IfOk result (λ o. IsLow (room + 1) o) }
{
    if room == 0 {
        return Err(Stop::TooDeep);
    }
    cursor.advance();
    if !cursor.sees(Mark::RightBracket) {
        return Ok(Opening::Begun(Begin::Bracket { at, name }));
    }
    cursor.advance();
    let (nodes, high) = array_locals(alloc, cursor, room - 1, site, at, name)?;
    Ok(Opening::Declared(nodes, high))
}

/// Behind a name.
#[tactic(auto, unfolding(crate::specs::function::Openings::named_opening))]
fn named_opening(
    alloc: Global,
    cursor: &mut Cursor<'_>,
    room: u32,
    site: Site,
    at: u32,
    name: Name,
) -> Result<Opening, Stop>
    requires { room < room_bound }
    ensures reads { Reads opening_of (rule.named_opening room site at name cursor.old) result cursor.new }
    ensures low { IfOk result (λ o. IsLow (room + 1) o) }
{
    if cursor.sees(Mark::Identifier) {
        let (nodes, high) = class_locals(alloc, cursor, room, site, at, name)?;
        return Ok(Opening::Declared(nodes, high));
    }
    if cursor.sees(Mark::LeftBracket) {
        return bracket_opening(alloc, cursor, room, site, at, name);
    }
    Ok(Opening::Begun(Begin::Name { at, name }))
}

/// A declaration at most `room` + 1 high, or what begins an expression. `site` is that of a token refused behind the first
/// name that is declared.
#[tactic(auto, unfolding(crate::specs::function::Openings::local_opening))]
pub fn local_opening(
    alloc: Global,
    cursor: &mut Cursor<'_>,
    room: u32,
    site: Site,
) -> Result<Opening, Stop>
    requires { room < room_bound }
    ensures reads { Reads opening_of (rule.local_opening room site cursor.old) result cursor.new }
    ensures low { IfOk result (λ o. IsLow (room + 1) o) }
{
    let at = cursor.at();
    match cursor.type_beginning() {
        TypeBeginning::Int | TypeBeginning::Bool => {
            let (nodes, high) = typed_locals(alloc, cursor, room, site, at)?;
            Ok(Opening::Declared(nodes, high))
        }
        TypeBeginning::Name => {
            let name = cursor.name(alloc)?;
            cursor.advance();
            named_opening(alloc, cursor, room, site, at, name)
        }
        TypeBeginning::Nothing => Ok(Opening::Begun(Begin::Fresh)),
    }
}
