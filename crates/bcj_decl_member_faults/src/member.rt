ghost use Rattle.std.specs.Prelude.{◌≡◌, ◌<◌, Some, take, map, slice_get, length, IfOk};
ghost use Rattle.std.specs.Bool.{Decides};
ghost use Rattle.bcj_parser_trees.specs.Trees.{PlainMember};
ghost use Rattle.bcj_parser_trees.specs.Plain.{member_of, type_of};
ghost use Rattle.bcj_decl_table.specs.Views.{world_in};
ghost use Rattle.bcj_decl_listing.specs.Places.{steps_of_world};
ghost use Rattle.bcj_decl_member_faults.specs.Decisions.{IsBad};
ghost use Rattle.bcj_decl_member_faults.specs.Inherited.{AreNamesOf};
ghost use Rattle.bcj_decl_member_faults.specs.Refusal.{IsFirstRefusal};

use crate::earlier::stands_before;
use crate::known::first_unknown;
use crate::names::MemberNames;
use crate::wrong::is_wrong;
use bcj_decl_graph::{Search, Steps};
use bcj_decl_listing::Listing;
use bcj_names::Name;
use bcj_parser_trees::TypeDecl;
use std::alloc::{AllocError, Global};

/// What is refused of a member, an unknown name before all else.
#[derive(Drop)]
pub enum MemberRefusal {
    Unknown(Name),
    BadMember,
}

/// The world in which members are tested, with a search that is used again.
#[derive(Drop)]
pub struct Context<'a> {
    pub listing: &'a Listing,
    pub steps: &'a Steps,
    pub search: Search,
}

fn is_bad(
    alloc: Global,
    listing: &Listing,
    steps: &Steps,
    search: &mut Search,
    names: &MemberNames,
    decl: &TypeDecl,
    position: usize,
) -> Result<bool, AllocError>
    requires steps { steps.now ≡ steps_of_world (world_in listing.now.types) }
    requires names { AreNamesOf (world_in listing.now.types) (type_of decl.now) names.now }
    requires within { position < length decl.now.members }
    ensures { IfOk result (λ b. (m : PlainMember) → slice_get (type_of decl.now).members position ≡ Some m → Decides b (IsBad (world_in listing.now.types) (type_of decl.now) (take position (type_of decl.now).members) m)) }
{
    let members = decl.members.as_slice();
    if stands_before(members, names.earlier.as_slice(), position) {
        return Ok(true);
    }
    is_wrong(
        alloc,
        listing,
        steps,
        search,
        &names.above,
        decl,
        &members[position],
    )
}

/// The first refusal of the member at a position, or none where it has no fault.
pub fn refusal_in(
    alloc: Global,
    listing: &Listing,
    steps: &Steps,
    search: &mut Search,
    names: &MemberNames,
    decl: &TypeDecl,
    position: usize,
) -> Result<Option<MemberRefusal>, AllocError>
    requires steps { steps.now ≡ steps_of_world (world_in listing.now.types) }
    requires names { AreNamesOf (world_in listing.now.types) (type_of decl.now) names.now }
    requires within { position < length decl.now.members }
    ensures { IfOk result (λ r. (m : PlainMember) → slice_get (type_of decl.now).members position ≡ Some m → IsFirstRefusal (world_in listing.now.types) (type_of decl.now) (take position (type_of decl.now).members) m r) }
{
    let members = decl.members.as_slice();
    if let Some(name) = first_unknown(listing, &members[position]) {
        return Ok(Some(MemberRefusal::Unknown(name.copy(alloc)?)));
    }
    if is_bad(alloc, listing, steps, search, names, decl, position)? {
        Ok(Some(MemberRefusal::BadMember))
    } else {
        Ok(None)
    }
}

/// What is refused of the member at a position of a type, or none where it has no fault (JLS 8.3, 8.4, 8.8, 9.3, 9.4).
/// The names are those of the type, by `MemberNames::of`.
pub fn member_refusal(
    alloc: Global,
    context: &mut Context<'_>,
    names: &MemberNames,
    decl: &TypeDecl,
    position: usize,
) -> Result<Option<MemberRefusal>, AllocError>
    requires steps { context.old.steps.now ≡ steps_of_world (world_in context.old.listing.now.types) }
    requires names { AreNamesOf (world_in context.old.listing.now.types) (type_of decl.now) names.now }
    requires within { position < length decl.now.members }
    ensures first { IfOk result (λ r. (m : PlainMember) → slice_get (type_of decl.now).members position ≡ Some m → IsFirstRefusal (world_in context.old.listing.now.types) (type_of decl.now) (take position (type_of decl.now).members) m r) }
    ensures listing { context.new.listing.now ≡ context.old.listing.now }
    ensures steps { context.new.steps.now ≡ context.old.steps.now }
{
    refusal_in(
        alloc,
        context.listing,
        context.steps,
        &mut context.search,
        names,
        decl,
        position,
    )
}
