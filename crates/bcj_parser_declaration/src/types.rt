ghost use Rattle.std.specs.Prelude.{◌≡◌, ◌+◌, ◌≤◌, ◌<◌, IfOk};
ghost use Rattle.bcj_parser_trees.specs.Plain.{type_of};
ghost use Rattle.bcj_parser_rules.specs.function.Declarations as rule;
ghost use Rattle.bcj_parser_rules.specs.function.Steps.{Reads};
ghost use Rattle.bcj_parser_rules.specs.function.Declarations.{levels_above};
ghost use Rattle.bcj_parser_rules.specs.function.Expressions.{room_bound};

use crate::member::Grammar;
use crate::modifiers::type_modifiers;
use crate::names::{names_behind, superclass};
use bcj_names::Name;
use bcj_parser_cursor::Cursor;
use bcj_parser_rules::{Mark, Site, Stop, UnitBeginning};
use bcj_parser_trees::TypeDecl;
use sqlite_items::Items;
use std::alloc::Global;

/// The place of a token that is refused behind the header of a type.
fn site_behind_header(extends: &[Name], implements: &[Name]) -> Site
    ensures { result ≡ rule.site_behind_header extends.now implements.now }
{
    match (extends, implements) {
        ([], []) => Site::HeaderName,
        _ => Site::TypeName,
    }
}

/// A class behind `class`.
#[tactic(auto, unfolding(bcj_parser_rules::specs::function::Declarations::class_rest))]
fn class_rest(
    alloc: Global,
    cursor: &mut Cursor<'_>,
    room: u32,
    at: u32,
    is_abstract: bool,
) -> Result<(TypeDecl, u32), Stop>
    requires { room + levels_above < room_bound }
    ensures reads { Reads (λ p. (type_of p.0, p.1)) (rule.class_rest room at is_abstract cursor.old) result cursor.new }
    ensures low { IfOk result (λ p. p.1 ≤ room + levels_above) }
{
    let name = cursor.named(alloc, Site::Elsewhere)?;
    let extends = superclass(alloc, cursor)?;
    let implements = names_behind(alloc, cursor, Mark::Implements)?;
    let site = site_behind_header(extends.as_slice(), implements.as_slice());
    cursor.expect(Mark::LeftBrace, site)?;
    let interface = false;
    let grammar = Grammar {
        alloc,
        room,
        interface,
    };
    let (members, high) = grammar.members(cursor)?;
    let declaration = TypeDecl {
        at,
        interface,
        is_abstract,
        name,
        extends,
        implements,
        members,
    };
    Ok((declaration, high + 1))
}

/// An interface behind `interface`.
#[tactic(auto, unfolding(bcj_parser_rules::specs::function::Declarations::interface_rest))]
fn interface_rest(
    alloc: Global,
    cursor: &mut Cursor<'_>,
    room: u32,
    at: u32,
    is_abstract: bool,
) -> Result<(TypeDecl, u32), Stop>
    requires { room + levels_above < room_bound }
    ensures reads { Reads (λ p. (type_of p.0, p.1)) (rule.interface_rest room at is_abstract cursor.old) result cursor.new }
    ensures low { IfOk result (λ p. p.1 ≤ room + levels_above) }
{
    let name = cursor.named(alloc, Site::Elsewhere)?;
    let extends = names_behind(alloc, cursor, Mark::Extends)?;
    let implements = Items::new(alloc);
    let site = site_behind_header(extends.as_slice(), implements.as_slice());
    cursor.expect(Mark::LeftBrace, site)?;
    let interface = true;
    let grammar = Grammar {
        alloc,
        room,
        interface,
    };
    let (members, high) = grammar.members(cursor)?;
    let declaration = TypeDecl {
        at,
        interface,
        is_abstract,
        name,
        extends,
        implements,
        members,
    };
    Ok((declaration, high + 1))
}

/// A class or an interface, with its height.
#[tactic(auto, unfolding(bcj_parser_rules::specs::function::Declarations::type_declaration))]
pub fn type_declaration(
    alloc: Global,
    cursor: &mut Cursor<'_>,
    room: u32,
) -> Result<(TypeDecl, u32), Stop>
    requires { room + levels_above < room_bound }
    ensures reads { Reads (λ p. (type_of p.0, p.1)) (rule.type_declaration room cursor.old) result cursor.new }
    ensures low { IfOk result (λ p. p.1 ≤ room + levels_above) }
{
    let at = cursor.at();
    let is_abstract = type_modifiers(cursor);
    match cursor.unit_beginning() {
        UnitBeginning::Class => {
            cursor.advance();
            class_rest(alloc, cursor, room, at, is_abstract)
        }
        UnitBeginning::Interface => {
            cursor.advance();
            interface_rest(alloc, cursor, room, at, is_abstract)
        }
        _ => Err(Stop::Refused(Site::Elsewhere)),
    }
}
