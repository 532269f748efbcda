ghost use Rattle.std.specs.Prelude.{◌≡◌, ◌≤◌, ◌<◌, ◌+◌, ◌^◌, List, map, length, IfOk};
ghost use Rattle.std.specs.Option.{option_map};
ghost use Rattle.bcj_parser_trees.specs.Trees.{PlainType};
ghost use Rattle.bcj_parser_trees.specs.Plain as tree;
ghost use Rattle.bcj_decl_table.specs.Views.{world_in};
ghost use Rattle.bcj_decl_listing.specs.Places.{steps_of_world};
ghost use Rattle.bcj_decl_head_faults.specs.Refusals.{StandsBehind};
ghost use Rattle.bcj_decl_faults.specs.Refusals.{spot_of};
ghost use Rattle.bcj_decl_faults.specs.Spots.{IsLeast};
ghost use Rattle.bcj_decl_faults.specs.Parts.{TypeSpot, FileSpot, FileStands};

use crate::fault::{Found, earlier};
use crate::head::head_found;
use crate::member::members_found;
use bcj_decl_graph::{Search, Steps};
use bcj_decl_head_faults::Searches;
use bcj_decl_listing::Listing;
use bcj_parser_trees::TypeDecl;
use std::alloc::{AllocError, Global};

/// The memory of all searches, for use again from type to type.
#[derive(Drop)]
pub struct Memory {
    of_heads: Searches,
    of_members: Search,
}

impl Memory {
    pub fn new(alloc: Global) -> Memory {
        Memory {
            of_heads: Searches::new(alloc),
            of_members: Search::new(alloc),
        }
    }
}

/// The first fault of the type at a place.
fn type_found(
    alloc: Global,
    listing: &Listing,
    steps: &Steps,
    decl: &TypeDecl,
    place: usize,
    memory: &mut Memory,
) -> Result<Option<Found>, AllocError>
    requires { steps.now ≡ steps_of_world (world_in listing.now.types) }
    ensures { (before : List PlainType) → StandsBehind (world_in listing.now.types) place before (tree.type_of decl.now)
        → IfOk result (λ o. IsLeast (TypeSpot (world_in listing.now.types) before (tree.type_of decl.now)) (option_map spot_of o)) }
{
    let of_head = head_found(alloc, listing, steps, decl, place, &mut memory.of_heads)?;
    let of_members = members_found(alloc, listing, steps, decl, &mut memory.of_members)?;
    Ok(earlier(of_head, of_members))
}

/// The first fault of the types of a file, the first of which stands at this place.
pub fn file_found(
    alloc: Global,
    listing: &Listing,
    steps: &Steps,
    decls: &[TypeDecl],
    start: usize,
    memory: &mut Memory,
) -> Result<Option<Found>, AllocError>
    requires steps { steps.now ≡ steps_of_world (world_in listing.now.types) }
    requires fits { start + length decls.now < 2 ^ 64 }
    ensures { (before : List PlainType) → FileStands (world_in listing.now.types) start before (map tree.type_of decls.now)
        → IfOk result (λ o. IsLeast (FileSpot (world_in listing.now.types) before (map tree.type_of decls.now)) (option_map spot_of o)) }
{
    let mut least = None;
    for (index, decl) in decls.iter().enumerate() {
        least = earlier(
            least,
            type_found(alloc, listing, steps, decl, start + index, memory)?,
        );
    }
    Ok(least)
}
