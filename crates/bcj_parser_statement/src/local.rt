//! Declarations of locals.

ghost use Rattle.std.specs.Prelude.{◌≡◌, ◌≤◌, ◌<◌, ◌+◌, map, IfOk};
ghost use Rattle.bcj_parser_trees.specs.declared.names.Base.TheVariants as base;
ghost use Rattle.bcj_parser_trees.specs.Plain.{stmt_of};
ghost use Rattle.bcj_parser_rules.specs.function.Statements as rule;
ghost use Rattle.bcj_parser_rules.specs.function.Steps.{Reads};
ghost use Rattle.bcj_parser_statement.specs.function.Variables.{variable_of};
ghost use Rattle.bcj_parser_rules.specs.function.Expressions.{room_bound};

use crate::variable::{Variable, variables};
use bcj_names::Name;
use bcj_parser_cursor::Cursor;
use bcj_parser_expression::{brackets, type_name};
use bcj_parser_rules::{Site, Stop};
use bcj_parser_trees::{Base, Stmt, TypeName};
use std::alloc::{AllocError, Global};

fn copy_type(alloc: Global, ty: &TypeName) -> Result<TypeName, AllocError>
    ensures { IfOk result (λ copy. copy ≡ ty.now) }
{
    let base = match &ty.base {
        Base::Int => Base::Int,
        Base::Bool => Base::Bool,
        Base::Void => Base::Void,
        Base::Named(name) => Base::Named(name.copy(alloc)?),
    };
    let dims = ty.dims;
    Ok(TypeName { base, dims })
}

/// A declaration of each variable alone.
fn local_nodes(
    alloc: Global,
    at: u32,
    ty: &TypeName,
    variables: Vec<Variable>,
) -> Result<Vec<Stmt>, AllocError>
    ensures { IfOk result (λ nodes. map stmt_of nodes.items ≡ rule.local_nodes at ty.now (map variable_of variables.items)) }
{
    let mut nodes = Vec::new(alloc);
    for variable in variables {
        let Variable { name, init } = variable;
        let ty = copy_type(alloc, ty)?;
        nodes.push(Stmt::Local { at, ty, name, init })?;
    }
    Ok(nodes)
}

/// Locals behind their type, each initial value at most `room` high; with the height of the highest local.
#[tactic(auto, unfolding(bcj_parser_rules::specs::function::Statements::locals_of_type))]
pub fn locals_of_type(
    alloc: Global,
    cursor: &mut Cursor<'_>,
    room: u32,
    site: Site,
    at: u32,
    ty: TypeName,
) -> Result<(Vec<Stmt>, u32), Stop>
    requires room { room < room_bound }
    requires dims { ty.dims ≤ room }
    ensures reads { Reads (λ p. (map stmt_of p.0.items, p.1)) (rule.locals_of_type room site at ty cursor.old) result cursor.new }
    ensures low { IfOk result (λ p. p.1 ≤ room + 1) }
{
    let (found, high) = variables(alloc, cursor, room, site)?;
    let nodes = local_nodes(alloc, at, &ty, found)?;
    Ok((nodes, ty.dims.max(high) + 1))
}

/// Locals of a type that begins here.
#[tactic(auto, unfolding(bcj_parser_rules::specs::function::Statements::typed_locals))]
pub fn typed_locals(
    alloc: Global,
    cursor: &mut Cursor<'_>,
    room: u32,
    site: Site,
    at: u32,
) -> Result<(Vec<Stmt>, u32), Stop>
    requires { room < room_bound }
    ensures reads { Reads (λ p. (map stmt_of p.0.items, p.1)) (rule.typed_locals room site at cursor.old) result cursor.new }
    ensures low { IfOk result (λ p. p.1 ≤ room + 1) }
{
    let ty = type_name(alloc, cursor, room, Site::Elsewhere)?;
    locals_of_type(alloc, cursor, room, site, at, ty)
}

/// Locals of a class behind its name.
pub fn class_locals(
    alloc: Global,
    cursor: &mut Cursor<'_>,
    room: u32,
    site: Site,
    at: u32,
    name: Name,
) -> Result<(Vec<Stmt>, u32), Stop>
    requires { room < room_bound }
    ensures reads { Reads (λ p. (map stmt_of p.0.items, p.1)) (rule.locals_of_type room site at (record { base = base.Named name; dims = 0 }) cursor.old) result cursor.new }
    ensures low { IfOk result (λ p. p.1 ≤ room + 1) }
{
    let base = Base::Named(name);
    locals_of_type(alloc, cursor, room, site, at, TypeName { base, dims: 0 })
}

/// Locals of an array type behind its first pair of brackets, with room for so many more pairs.
#[tactic(auto, unfolding(bcj_parser_rules::specs::function::Statements::array_locals))]
pub fn array_locals(
    alloc: Global,
    cursor: &mut Cursor<'_>,
    room: u32,
    site: Site,
    at: u32,
    name: Name,
) -> Result<(Vec<Stmt>, u32), Stop>
    requires { room + 1 < room_bound }
    ensures reads { Reads (λ p. (map stmt_of p.0.items, p.1)) (rule.array_locals room site at name cursor.old) result cursor.new }
    ensures low { IfOk result (λ p. p.1 ≤ room + 2) }
{
    let dims = brackets(cursor, Site::Elsewhere, room, 1)?;
    let base = Base::Named(name);
    locals_of_type(alloc, cursor, room + 1, site, at, TypeName { base, dims })
}
