ghost use Rattle.std.specs.Prelude.{◌≡◌, ◌≤◌, ◌<◌, IfOk};
ghost use Rattle.bcj_parser_rules.specs.function.Declarations as rule;
ghost use Rattle.bcj_parser_rules.specs.function.Expressions as expr;
ghost use Rattle.bcj_parser_rules.specs.function.Steps.{Reads};
ghost use Rattle.bcj_parser_rules.specs.function.Expressions.{room_bound};

use bcj_parser_cursor::Cursor;
use bcj_parser_expression::type_name;
use bcj_parser_rules::{Mark, Site, Stop};
use bcj_parser_trees::Param;
use sqlite_items::Items;
use std::alloc::Global;

#[tactic(auto, unfolding(bcj_parser_rules::specs::function::Declarations::parameter))]
fn parameter(alloc: Global, cursor: &mut Cursor<'_>, room: u32) -> Result<(Param, u32), Stop>
    requires { room < room_bound }
    ensures reads { Reads (λ p. p) (rule.parameter room cursor.old) result cursor.new }
    ensures low { IfOk result (λ p. p.1 ≤ room) }
{
    let ty = type_name(alloc, cursor, room, Site::Elsewhere)?;
    let name = cursor.named(alloc, Site::TypeName)?;
    let dims = ty.dims;
    Ok((Param { ty, name }, dims))
}

/// One or more parameters, with the number of brackets of the type that has the most.
#[tactic(auto, unfolding(bcj_parser_rules::specs::function::Expressions::listed))]
fn some_parameters(
    alloc: Global,
    cursor: &mut Cursor<'_>,
    room: u32,
) -> Result<(Items<Param>, u32), Stop>
    requires { room < room_bound }
    ensures reads { Reads (λ p. p) (expr.listed (rule.parameter room) (rule.parameter room) cursor.old) result cursor.new }
    ensures low { IfOk result (λ p. p.1 ≤ room) }
{
    let (first, mut high) = parameter(alloc, cursor, room)?;
    let mut found = Vec::new(alloc);
    found.push(first)?;
    for _turn in 0..cursor.len() {
        if !cursor.sees(Mark::Comma) {
            return Ok((Items::from_vec(found), high));
        }
        cursor.advance();
        let (next, dims) = parameter(alloc, cursor, room)?;
        found.push(next)?;
        high = high.max(dims);
    }
    Ok((Items::from_vec(found), high))
}

/// Parameters in parentheses, with the number of brackets of the type that has the most.
#[tactic(auto, unfolding(bcj_parser_rules::specs::function::Declarations::parameters))]
pub fn parameters(
    alloc: Global,
    cursor: &mut Cursor<'_>,
    room: u32,
) -> Result<(Items<Param>, u32), Stop>
    requires { room < room_bound }
    ensures reads { Reads (λ p. p) (rule.parameters room cursor.old) result cursor.new }
    ensures low { IfOk result (λ p. p.1 ≤ room) }
{
    cursor.expect(Mark::LeftParen, Site::DeclaredName)?;
    if cursor.sees(Mark::RightParen) {
        cursor.advance();
        return Ok((Items::new(alloc), 0));
    }
    let (found, high) = some_parameters(alloc, cursor, room)?;
    cursor.expect(Mark::RightParen, Site::DeclaredName)?;
    Ok((found, high))
}
