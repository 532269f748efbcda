ghost use Rattle.std.specs.Prelude.{◌≡◌, is_some};
ghost use Rattle.bcj_parser_trees.specs.Plain.{body_of, option_of};
ghost use Rattle.bcj_decl_rules.specs.World as spec;
ghost use Rattle.bcj_decl_rules.specs.Faults as fault;
ghost use Rattle.bcj_decl_member_faults.specs.Decisions as decide;

use bcj_parser_trees::{Access, Expr, Mods, Stmt};
use sqlite_items::Items;

/// Whether it is private (JLS 6.6).
pub fn is_private(mods: Mods) -> bool
    ensures { result ≡ spec.is_private mods }
{
    match mods.access {
        Access::Private => true,
        Access::Open | Access::Public | Access::Protected => false,
    }
}

/// Whether it has an access that no member of an interface has (JLS 9.3, 9.4).
pub fn is_restricted(mods: Mods) -> bool
    ensures { result ≡ fault.is_restricted mods }
{
    match mods.access {
        Access::Private | Access::Protected => true,
        Access::Open | Access::Public => false,
    }
}

/// Whether a method of such a type has a modifier that it can't have (JLS 8.1.1.1, 8.4.3, 9.4).
pub fn has_wrong_modifier(interface: bool, abstract_type: bool, mods: Mods) -> bool
    ensures { result ≡ decide.has_wrong_modifier interface abstract_type mods }
{
    (!interface && (!abstract_type && mods.is_abstract))
        || ((mods.is_static && mods.is_abstract)
            || ((is_private(mods) && mods.is_abstract)
                || (interface && (mods.is_static || is_restricted(mods)))))
}

/// Whether an abstract method has a body or another has none (JLS 8.4.7).
pub fn has_wrong_body(is_abstract: bool, body: &Option<Items<Stmt>>) -> bool
    ensures { result ≡ decide.has_wrong_body is_abstract (body_of body.now) }
{
    match body {
        Some(_) => is_abstract,
        None => !is_abstract,
    }
}

/// Whether there is no initialiser.
pub fn is_absent(init: &Option<Expr>) -> bool
    ensures { result ≡ decide.is_absent (option_of init.now) }
{
    match init {
        Some(_) => false,
        None => true,
    }
}
