#![tactic(auto, using(crate::proofs::Rules::initial_rules))]

ghost use Rattle.std.specs.Prelude.{◌≡◌, ◌++◌, map, IfOk, OnOk};
ghost use Rattle.std.specs.List.{flat_map};
ghost use Rattle.std.specs.Option.{option_to_list};
ghost use Rattle.bcj_parser_trees.specs.Plain as tree;
ghost use Rattle.bcj_decl_rules.specs.World.{source_types};
ghost use Rattle.bcj_decl_constants.specs.Books.{initial_of};
ghost use Rattle.bcj_decl_constants.specs.Initials.{boot_initials, initial_in, initials_in, initials_of_type};

use bcj_parser_trees::{Expr, Member, TypeDecl, Unit};
use std::alloc::{AllocError, Global};

pub type Initialisers<'a> = Vec<Option<&'a Expr>>;

fn push_initialiser<'a>(member: &'a Member, items: &mut Initialisers<'a>) -> Result<(), AllocError>
    ensures { OnOk result (map initial_of items.new.items ≡ map initial_of items.old.items ++ option_to_list (initial_in (tree.member_of member.now))) }
{
    match member {
        Member::Field {
            at: _,
            mods: _,
            ty: _,
            name: _,
            init,
        } => {
            items.push(init.as_ref())?;
            Ok(())
        }
        Member::Method { .. } | Member::Constructor { .. } | Member::Static { .. } => Ok(()),
    }
}

fn push_type<'a>(decl: &'a TypeDecl, items: &mut Initialisers<'a>) -> Result<(), AllocError>
    ensures { OnOk result (map initial_of items.new.items ≡ map initial_of items.old.items ++ initials_of_type (tree.type_of decl.now)) }
{
    for member in decl.members.as_slice() {
        push_initialiser(member, items)?;
    }
    Ok(())
}

fn push_unit<'a>(unit: &'a Unit, items: &mut Initialisers<'a>) -> Result<(), AllocError>
    ensures { OnOk result (map initial_of items.new.items ≡ map initial_of items.old.items ++ flat_map initials_of_type (tree.unit_of unit.now)) }
{
    for decl in unit.types.as_slice() {
        push_type(decl, items)?;
    }
    Ok(())
}

fn push_units<'a>(units: &'a [Unit], items: &mut Initialisers<'a>) -> Result<(), AllocError>
    ensures { OnOk result (map initial_of items.new.items ≡ map initial_of items.old.items ++ flat_map initials_of_type (source_types (map tree.unit_of units.now))) }
{
    for unit in units {
        push_unit(unit, items)?;
    }
    Ok(())
}

fn boot_initialisers<'a>(alloc: Global) -> Result<Initialisers<'a>, AllocError>
    ensures { IfOk result (λ items. map initial_of items.items ≡ boot_initials) }
{
    let mut items = Vec::new(alloc);
    items.push(None)?;
    Ok(items)
}

/// The initialisers of all fields by their numbers.
pub fn initialisers<'a>(alloc: Global, units: &'a [Unit]) -> Result<Initialisers<'a>, AllocError>
    ensures { IfOk result (λ items. map initial_of items.items ≡ initials_in (map tree.unit_of units.now)) }
{
    let mut items = boot_initialisers(alloc)?;
    push_units(units, &mut items)?;
    Ok(items)
}
