ghost use Rattle.std.specs.Prelude.{◌≡◌, ◌++◌, List, IfOk, OnOk};
ghost use Rattle.std.specs.Option.{option_to_list};
ghost use Rattle.bcj_parser_trees.specs.Plain.{type_of};
ghost use Rattle.bcj_decl_rules.specs.World as spec;
ghost use Rattle.bcj_decl_rules.specs.Subtypes.{or_object, direct_supertypes};
ghost use Rattle.bcj_decl_table.specs.Views.{world_in};
ghost use Rattle.bcj_decl_member_faults.specs.Inherited.{AreNamesOf};

use crate::earlier::earlier_of;
use bcj_decl_graph::{Places, places_of_names};
use bcj_decl_listing::Listing;
use bcj_names::Name;
use bcj_parser_trees::TypeDecl;
use bcj_symbolic_trees::{Names, OBJECT, Sequence};
use std::alloc::{AllocError, Global};

/// What the members of one type are tested with: for each the last one before it that is like it, and the places above
/// the type.
#[derive(Drop)]
pub struct MemberNames {
    pub earlier: Vec<Option<usize>>,
    pub above: Places,
}

fn push_names(alloc: Global, names: &[Name], all: &mut Names) -> Result<(), AllocError>
    ensures { OnOk result (all.new ≡ all.old ++ names.now) }
{
    for name in names {
        all.push(name.copy(alloc)?)?;
    }
    Ok(())
}

fn push_superclass(alloc: Global, decl: &TypeDecl, all: &mut Names) -> Result<(), AllocError>
    ensures { OnOk result (all.new ≡ all.old ++ option_to_list (spec.superclass_of (type_of decl.now))) }
{
    if decl.interface {
        return Ok(());
    }
    match decl.extends.as_slice() {
        [] => all.push(Name::from_str(alloc, OBJECT)?),
        [name, ..] => all.push(name.copy(alloc)?),
    }
}

fn interfaces_of(decl: &TypeDecl) -> &[Name]
    ensures { result.now ≡ spec.interfaces_of (type_of decl.now) }
{
    if decl.interface {
        decl.extends.as_slice()
    } else {
        decl.implements.as_slice()
    }
}

fn push_interfaces(alloc: Global, decl: &TypeDecl, all: &mut Names) -> Result<(), AllocError>
    ensures { OnOk result (all.new ≡ all.old ++ or_object decl.now.interface (spec.interfaces_of (type_of decl.now))) }
{
    let names = interfaces_of(decl);
    if decl.interface && names.is_empty() {
        all.push(Name::from_str(alloc, OBJECT)?)
    } else {
        push_names(alloc, names, all)
    }
}

/// The names of the direct supertypes (JLS 4.10.2).
fn supertypes_of(alloc: Global, decl: &TypeDecl) -> Result<Names, AllocError>
    ensures { IfOk result (λ ns. ns ≡ direct_supertypes (spec.declared_type (type_of decl.now))) }
{
    let mut all = Sequence::new(alloc);
    push_superclass(alloc, decl, &mut all)?;
    push_interfaces(alloc, decl, &mut all)?;
    Ok(all)
}

impl MemberNames {
    /// What the members of a type are tested with. Made once a type, it takes time linear in the members.
    pub fn of(alloc: Global, listing: &Listing, decl: &TypeDecl) -> Result<MemberNames, AllocError>
        ensures { IfOk result (λ n. AreNamesOf (world_in listing.now.types) (type_of decl.now) n) }
    {
        let names = supertypes_of(alloc, decl)?;
        Ok(MemberNames {
            earlier: earlier_of(alloc, decl.members.as_slice())?,
            above: places_of_names(alloc, listing, names.as_slice())?,
        })
    }
}
