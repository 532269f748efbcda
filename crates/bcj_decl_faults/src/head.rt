ghost use Rattle.std.specs.Prelude.{◌≡◌, List, IfOk};
ghost use Rattle.std.specs.Option.{option_map};
ghost use Rattle.bcj_parser_trees.specs.Trees.{PlainType};
ghost use Rattle.bcj_parser_trees.specs.Plain as tree;
ghost use Rattle.bcj_decl_table.specs.Views.{world_in};
ghost use Rattle.bcj_decl_listing.specs.Places.{steps_of_world};
ghost use Rattle.bcj_decl_head_faults.specs.Refusals as head;
ghost use Rattle.bcj_decl_faults.specs.Refusals.{refusal_of, spot_of};
ghost use Rattle.bcj_decl_faults.specs.Spots.{IsLeast};
ghost use Rattle.bcj_decl_faults.specs.Parts.{HeadSpot};

use crate::fault::{Found, Refusal};
use bcj_decl_graph::Steps;
use bcj_decl_head_faults::{HeadRefusal, Searches, head_refusal};
use bcj_decl_listing::Listing;
use bcj_parser_trees::TypeDecl;
use std::alloc::{AllocError, Global};

fn of_head(refusal: HeadRefusal) -> Refusal
    ensures { refusal_of result ≡ head.refusal_of refusal }
{
    match refusal {
        HeadRefusal::Duplicate(name) => Refusal::Duplicate(name),
        HeadRefusal::Unknown(name) => Refusal::Unknown(name),
        HeadRefusal::BadHierarchy => Refusal::BadHierarchy,
        HeadRefusal::BadMember => Refusal::BadMember,
    }
}

/// The first fault of a head.
pub fn head_found(
    alloc: Global,
    listing: &Listing,
    steps: &Steps,
    decl: &TypeDecl,
    place: usize,
    searches: &mut Searches,
) -> Result<Option<Found>, AllocError>
    requires { steps.now ≡ steps_of_world (world_in listing.now.types) }
    ensures { (before : List PlainType) → head.StandsBehind (world_in listing.now.types) place before (tree.type_of decl.now)
        → IfOk result (λ o. IsLeast (HeadSpot (world_in listing.now.types) before (tree.type_of decl.now)) (option_map spot_of o)) }
{
    match head_refusal(alloc, listing, steps, decl, place, searches)? {
        None => Ok(None),
        Some(refusal) => Ok(Some(Found {
            at: decl.at,
            refusal: of_head(refusal),
        })),
    }
}
