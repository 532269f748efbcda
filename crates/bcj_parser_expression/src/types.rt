ghost use Rattle.std.specs.Prelude.{◌+◌, ◌≤◌, ◌<◌, IfOk};
ghost use Rattle.bcj_parser_rules.specs.function.Expressions as rule;
ghost use Rattle.bcj_parser_rules.specs.function.Expressions.{room_bound};
ghost use Rattle.bcj_parser_rules.specs.function.Steps.{Reads};

use bcj_parser_cursor::Cursor;
use bcj_parser_rules::{Mark, Site, Stop, TypeBeginning};
use bcj_parser_trees::{Base, TypeName};
use std::alloc::Global;

/// Pairs of empty brackets behind `dims` pairs, at most `room` of them; how many there are in all.
#[tactic(auto, unfolding(bcj_parser_rules::specs::function::Expressions::brackets))]
pub fn brackets(cursor: &mut Cursor<'_>, site: Site, room: u32, dims: u32) -> Result<u32, Stop>
    requires { room + dims < room_bound }
    ensures reads { Reads (λ d. d) (rule.brackets site room dims cursor.old) result cursor.new }
    ensures low { IfOk result (λ d. d ≤ room + dims) }
{
    if !cursor.sees(Mark::LeftBracket) {
        return Ok(dims);
    }
    if room == 0 {
        return Err(Stop::TooDeep);
    }
    cursor.advance();
    cursor.expect(Mark::RightBracket, site)?;
    brackets(cursor, site, room - 1, dims + 1)
}

fn type_of_base(cursor: &mut Cursor<'_>, room: u32, base: Base) -> Result<TypeName, Stop>
    requires { room < room_bound }
    ensures reads { Reads (λ ty. ty) (rule.type_of_base room base cursor.old) result cursor.new }
    ensures low { IfOk result (λ ty. ty.dims ≤ room) }
{
    let dims = brackets(cursor, Site::Elsewhere, room, 0)?;
    Ok(TypeName { base, dims })
}

/// A type's name, with at most `room` pairs of brackets.
#[tactic(auto, unfolding(bcj_parser_rules::specs::function::Expressions::type_name))]
pub fn type_name(
    alloc: Global,
    cursor: &mut Cursor<'_>,
    room: u32,
    site: Site,
) -> Result<TypeName, Stop>
    requires { room < room_bound }
    ensures reads { Reads (λ ty. ty) (rule.type_name room site cursor.old) result cursor.new }
    ensures low { IfOk result (λ ty. ty.dims ≤ room) }
{
    match cursor.type_beginning() {
        TypeBeginning::Int => {
            cursor.advance();
            type_of_base(cursor, room, Base::Int)
        }
        TypeBeginning::Bool => {
            cursor.advance();
            type_of_base(cursor, room, Base::Bool)
        }
        TypeBeginning::Name => {
            let name = cursor.name(alloc)?;
            cursor.advance();
            type_of_base(cursor, room, Base::Named(name))
        }
        TypeBeginning::Nothing => Err(Stop::Refused(site)),
    }
}
