ghost use Rattle.std.specs.Prelude.{◌≡◌, ◌<◌, map, length, IfOk};
ghost use Rattle.std.specs.Option.{option_map};
ghost use Rattle.bcj_parser_trees.specs.Plain as tree;
ghost use Rattle.bcj_decl_rules.specs.Faults.{member_at};
ghost use Rattle.bcj_decl_table.specs.Views.{world_in};
ghost use Rattle.bcj_decl_listing.specs.Places.{steps_of_world};
ghost use Rattle.bcj_decl_member_faults.specs.Inherited.{AreNamesOf};
ghost use Rattle.bcj_decl_member_faults.specs.Refusal as member;
ghost use Rattle.bcj_decl_faults.specs.Refusals.{refusal_of, spot_of};
ghost use Rattle.bcj_decl_faults.specs.Spots.{IsLeast};
ghost use Rattle.bcj_decl_faults.specs.Parts.{Below, MemberSpot};

use crate::fault::{Found, Refusal, earlier};
use bcj_decl_graph::{Search, Steps};
use bcj_decl_listing::Listing;
use bcj_decl_member_faults::{Context, MemberNames, MemberRefusal, member_refusal};
use bcj_parser_trees::{Member, TypeDecl};
use std::alloc::{AllocError, Global};
use std::mem;

fn of_member(refusal: MemberRefusal) -> Refusal
    ensures { refusal_of result ≡ member.refusal_of refusal }
{
    match refusal {
        MemberRefusal::Unknown(name) => Refusal::Unknown(name),
        MemberRefusal::BadMember => Refusal::BadMember,
    }
}

fn first_byte(member: &Member) -> u32
    ensures { result ≡ member_at (tree.member_of member.now) }
{
    match member {
        Member::Field { at, .. } => *at,
        Member::Method { at, .. } => *at,
        Member::Constructor { at, .. } => *at,
        Member::Static { at, .. } => *at,
    }
}

/// The first fault of the member at a position.
fn member_found(
    alloc: Global,
    context: &mut Context<'_>,
    names: &MemberNames,
    decl: &TypeDecl,
    position: usize,
) -> Result<Option<Found>, AllocError>
    requires steps { context.old.steps.now ≡ steps_of_world (world_in context.old.listing.now.types) }
    requires names { AreNamesOf (world_in context.old.listing.now.types) (tree.type_of decl.now) names.now }
    requires within { position < length decl.now.members }
    ensures least { IfOk result (λ o. IsLeast (MemberSpot (world_in context.old.listing.now.types) (tree.type_of decl.now) position) (option_map spot_of o)) }
    ensures listing { context.new.listing.now ≡ context.old.listing.now }
    ensures steps { context.new.steps.now ≡ context.old.steps.now }
{
    let member = &decl.members.as_slice()[position];
    match member_refusal(alloc, context, names, decl, position)? {
        None => Ok(None),
        Some(refusal) => Ok(Some(Found {
            at: first_byte(member),
            refusal: of_member(refusal),
        })),
    }
}

fn least_of_members(
    alloc: Global,
    context: &mut Context<'_>,
    names: &MemberNames,
    decl: &TypeDecl,
) -> Result<Option<Found>, AllocError>
    requires steps { context.old.steps.now ≡ steps_of_world (world_in context.old.listing.now.types) }
    requires names { AreNamesOf (world_in context.old.listing.now.types) (tree.type_of decl.now) names.now }
    ensures { IfOk result (λ o. IsLeast (Below (MemberSpot (world_in context.old.listing.now.types) (tree.type_of decl.now)) (length (map tree.member_of decl.now.members))) (option_map spot_of o)) }
{
    let mut least = None;
    for position in 0..decl.members.len() {
        least = earlier(least, member_found(alloc, context, names, decl, position)?);
    }
    Ok(least)
}

/// The first fault of the members of a type.
pub fn members_found(
    alloc: Global,
    listing: &Listing,
    steps: &Steps,
    decl: &TypeDecl,
    search: &mut Search,
) -> Result<Option<Found>, AllocError>
    requires { steps.now ≡ steps_of_world (world_in listing.now.types) }
    ensures { IfOk result (λ o. IsLeast (Below (MemberSpot (world_in listing.now.types) (tree.type_of decl.now)) (length (map tree.member_of decl.now.members))) (option_map spot_of o)) }
{
    let names = MemberNames::of(alloc, listing, decl)?;
    let mut context = Context {
        listing,
        steps,
        search: mem::replace(search, Search::new(alloc)),
    };
    let least = least_of_members(alloc, &mut context, &names, decl);
    let Context {
        listing: _,
        steps: _,
        search: used,
    } = context;
    *search = used;
    least
}
