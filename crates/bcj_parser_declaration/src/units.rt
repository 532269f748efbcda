ghost use Rattle.std.specs.Prelude.{◌≡◌, ◌+◌, ◌≤◌, ◌<◌, IfOk, map};
ghost use Rattle.bcj_parser_trees.specs.Plain.{type_of};
ghost use Rattle.bcj_parser_rules.specs.function.Declarations as rule;
ghost use Rattle.bcj_parser_rules.specs.function.Steps.{Reads};
ghost use Rattle.bcj_parser_rules.specs.function.Declarations.{levels_above};
ghost use Rattle.bcj_parser_rules.specs.function.Expressions.{room_bound};

use crate::types::type_declaration;
use bcj_parser_cursor::Cursor;
use bcj_parser_rules::{Site, Stop, UnitBeginning};
use bcj_parser_trees::TypeDecl;
use std::alloc::Global;

/// The end of the text behind such types.
fn unit_end(
    cursor: &mut Cursor<'_>,
    found: Vec<TypeDecl>,
    high: u32,
) -> Result<(Vec<TypeDecl>, u32), Stop>
    ensures reads { Reads (λ p. (map type_of p.0.items, p.1)) (rule.unit_end (map type_of found.items) high cursor.old) result cursor.new }
    ensures low { IfOk result (λ p. p.1 ≡ high) }
{
    if cursor.len() == 0 {
        Ok((found, high))
    } else {
        Err(Stop::Refused(Site::Elsewhere))
    }
}

/// The types of a text, `limit` at most and each at most `levels_above` above `room`, up to its last token; with the height of the highest.
#[tactic(auto, unfolding(bcj_parser_rules::specs::function::Declarations::unit, bcj_parser_rules::specs::function::Declarations::types_from))]
pub fn unit(
    alloc: Global,
    cursor: &mut Cursor<'_>,
    room: u32,
    limit: u32,
) -> Result<(Vec<TypeDecl>, u32), Stop>
    requires { room + levels_above < room_bound }
    ensures reads { Reads (λ p. (map type_of p.0.items, p.1)) (rule.unit room limit cursor.old) result cursor.new }
    ensures low { IfOk result (λ p. p.1 ≤ room + levels_above) }
{
    let mut found = Vec::new(alloc);
    let mut high = 0;
    let mut left = limit;
    for _turn in 0..cursor.len() {
        match cursor.unit_beginning() {
            UnitBeginning::Semicolon => cursor.advance(),
            UnitBeginning::Nothing => return unit_end(cursor, found, high),
            _ => {
                if left == 0 {
                    return Err(Stop::TooMany);
                }
                left -= 1;
                let (declaration, height) = type_declaration(alloc, cursor, room)?;
                found.push(declaration)?;
                high = high.max(height);
            }
        }
    }
    unit_end(cursor, found, high)
}
