ghost use Rattle.std.specs.Prelude.{◌≡◌, ◌≤◌, ◌<◌, ◌∷◌, map, length, IfOk};
ghost use Rattle.bcj_parser_rules.specs.function.Expressions as expr;
ghost use Rattle.bcj_parser_rules.specs.function.Statements as rule;
ghost use Rattle.bcj_parser_rules.specs.function.Steps.{Reads};
ghost use Rattle.bcj_parser_statement.specs.function.Variables.{variable_of};
ghost use Rattle.bcj_parser_rules.specs.function.Expressions.{room_bound};

use bcj_names::Name;
use bcj_parser_cursor::Cursor;
use bcj_parser_cursor::level::ASSIGNMENT;
use bcj_parser_expression::{Begin, expression};
use bcj_parser_rules::{Mark, Site, Stop};
use bcj_parser_trees::Expr;
use std::alloc::Global;

/// A variable of a declaration, with its initial value where it has one.
#[derive(Drop)]
pub struct Variable {
    pub name: Name,
    pub init: Option<Expr>,
}

/// A variable behind its name, its initial value at most `room` high; with the height of that.
#[tactic(auto, unfolding(bcj_parser_rules::specs::function::Statements::variable_behind))]
fn variable_behind(
    alloc: Global,
    cursor: &mut Cursor<'_>,
    room: u32,
    name: Name,
) -> Result<(Variable, u32), Stop>
    requires { room < room_bound }
    ensures reads { Reads (λ p. (variable_of p.0, p.1)) (rule.variable_behind (expr.expression room) name cursor.old) result cursor.new }
    ensures low { IfOk result (λ p. p.1 ≤ room) }
{
    if !cursor.sees(Mark::Assign) {
        return Ok((Variable { name, init: None }, 0));
    }
    cursor.advance();
    let (value, height) = expression(alloc, cursor, room, Begin::Fresh, ASSIGNMENT)?;
    let init = Some(value);
    Ok((Variable { name, init }, height))
}

/// A variable behind a comma.
#[tactic(auto, unfolding(bcj_parser_rules::specs::function::Statements::further_variable))]
fn further_variable(
    alloc: Global,
    cursor: &mut Cursor<'_>,
    room: u32,
) -> Result<(Variable, u32), Stop>
    requires { room < room_bound }
    ensures reads { Reads (λ p. (variable_of p.0, p.1)) (rule.further_variable (expr.expression room) cursor.old) result cursor.new }
    ensures low { IfOk result (λ p. p.1 ≤ room) }
{
    let name = cursor.named(alloc, Site::Variable)?;
    variable_behind(alloc, cursor, room, name)
}

/// The variables behind commas, appended to `found`, of which the highest initial value is `high` high.
fn further_variables(
    alloc: Global,
    cursor: &mut Cursor<'_>,
    room: u32,
    mut found: Vec<Variable>,
    mut high: u32,
) -> Result<(Vec<Variable>, u32), Stop>
    requires room { room < room_bound }
    requires high { high ≤ room }
    ensures reads { Reads (λ p. (map variable_of p.0.items, p.1)) (expr.separated (rule.further_variable (expr.expression room)) (length cursor.old) (map variable_of found.items) high cursor.old) result cursor.new }
    ensures low { IfOk result (λ p. p.1 ≤ room) }
{
    for _turn in 0..cursor.len() {
        if !cursor.sees(Mark::Comma) {
            return Ok((found, high));
        }
        cursor.advance();
        let (next, height) = further_variable(alloc, cursor, room)?;
        found.push(next)?;
        high = high.max(height);
    }
    Ok((found, high))
}

/// The site of a token refused behind all variables; `site` is that of one right behind the first name.
fn site_of_variables(site: Site, variables: &[Variable]) -> Site
    ensures { result ≡ rule.site_of_variables site (map variable_of variables.now) }
{
    match variables {
        [] => site,
        [only] => match only.init {
            None => site,
            Some(_) => Site::Elsewhere,
        },
        _ => Site::DeclaredName,
    }
}

/// Variables behind the name of the first one, up to their semicolon, each initial value at most `room` high; with the height
/// of the highest. `site` is that of a token refused right behind the first name.
#[tactic(auto, unfolding(bcj_parser_rules::specs::function::Statements::variables_behind, bcj_parser_rules::specs::function::Expressions::listed))]
pub fn variables_behind(
    alloc: Global,
    cursor: &mut Cursor<'_>,
    room: u32,
    site: Site,
    name: Name,
) -> Result<(Vec<Variable>, u32), Stop>
    requires { room < room_bound }
    ensures reads { Reads (λ p. (map variable_of p.0.items, p.1)) (rule.variables_behind (expr.expression room) site name cursor.old) result cursor.new }
    ensures low { IfOk result (λ p. p.1 ≤ room) }
{
    let (first, height) = variable_behind(alloc, cursor, room, name)?;
    let first = vec![in alloc; first]?;
    let (found, high) = further_variables(alloc, cursor, room, first, height)?;
    cursor.expect(Mark::Semicolon, site_of_variables(site, found.as_slice()))?;
    Ok((found, high))
}

/// Variables behind their type. `site` is that of a token refused right behind the first name.
#[tactic(auto, unfolding(bcj_parser_rules::specs::function::Statements::variables))]
pub fn variables(
    alloc: Global,
    cursor: &mut Cursor<'_>,
    room: u32,
    site: Site,
) -> Result<(Vec<Variable>, u32), Stop>
    requires { room < room_bound }
    ensures reads { Reads (λ p. (map variable_of p.0.items, p.1)) (rule.variables (expr.expression room) site cursor.old) result cursor.new }
    ensures low { IfOk result (λ p. p.1 ≤ room) }
{
    let name = cursor.named(alloc, Site::TypeName)?;
    variables_behind(alloc, cursor, room, site, name)
}
