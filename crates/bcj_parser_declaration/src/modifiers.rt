ghost use Rattle.std.specs.Prelude.{◌≡◌, length, Ok, Some, None, if◌then◌else◌, false};
ghost use Rattle.bcj_parser_rules.specs.Grammar as grammar;
ghost use Rattle.bcj_parser_rules.specs.function.Declarations as rule;

use bcj_parser_cursor::Cursor;
use bcj_parser_rules::{Terminal, UnitBeginning};
use bcj_parser_trees::{Access, Mods};

/// The modifiers of a member that has none.
pub fn no_mods() -> Mods
    ensures { result ≡ grammar.no_mods }
{
    Mods {
        access: Access::Open,
        is_static: false,
        is_abstract: false,
        is_final: false,
    }
}

fn with_access(access: Access, mods: Mods) -> Option<Mods>
    ensures { result ≡ (if grammar.with_access mods then Some (record mods { access = access }) else None) }
{
    match mods.access {
        Access::Open => Some(Mods { access, ..mods }),
        _ => None,
    }
}

/// The modifiers with one more, where it may stand behind them.
fn with_modifier(terminal: Terminal, mods: Mods) -> Option<Mods>
    ensures { result ≡ grammar.with_modifier terminal mods }
{
    match terminal {
        Terminal::Public => with_access(Access::Public, mods),
        Terminal::Protected => with_access(Access::Protected, mods),
        Terminal::Private => with_access(Access::Private, mods),
        Terminal::Static if !mods.is_static => Some(Mods {
            is_static: true,
            ..mods
        }),
        Terminal::Abstract if !mods.is_abstract => Some(Mods {
            is_abstract: true,
            ..mods
        }),
        Terminal::Final if !mods.is_final => Some(Mods {
            is_final: true,
            ..mods
        }),
        _ => None,
    }
}

/// The modifiers that stand next, with those before.
#[tactic(auto, unfolding(bcj_parser_rules::specs::function::Declarations::modifiers))]
pub fn modifiers(cursor: &mut Cursor<'_>, before: Mods) -> Mods
    ensures { rule.modifiers (length cursor.old) before cursor.old ≡ (Ok result, cursor.new) }
{
    let mut found = before;
    for _turn in 0..cursor.len() {
        let Some(more) = with_modifier(cursor.terminal(), found) else {
            return found;
        };
        cursor.advance();
        found = more;
    }
    found
}

/// The modifiers of a type that stand next; whether `abstract` is among them.
#[tactic(auto, unfolding(bcj_parser_rules::specs::function::Declarations::type_modifiers))]
pub fn type_modifiers(cursor: &mut Cursor<'_>) -> bool
    ensures { rule.type_modifiers (length cursor.old) false cursor.old ≡ (Ok result, cursor.new) }
{
    let mut is_abstract = false;
    for _turn in 0..cursor.len() {
        match cursor.unit_beginning() {
            UnitBeginning::Public => {}
            UnitBeginning::Abstract => is_abstract = true,
            _ => return is_abstract,
        }
        cursor.advance();
    }
    is_abstract
}
