ghost use Rattle.std.specs.Prelude.{◌≡◌, ◌||◌, List, length, IfOk};
ghost use Rattle.std.specs.Option.{option_map};
ghost use Rattle.bcj_parser_trees.specs.Trees.{PlainType};
ghost use Rattle.bcj_parser_trees.specs.Plain as tree;
ghost use Rattle.bcj_decl_rules.specs.World.{declared_type, interfaces_of};
ghost use Rattle.bcj_decl_rules.specs.Faults.{HeadFault, stands_twice};
ghost use Rattle.bcj_decl_table.specs.Views.{declared_of, world_in};
ghost use Rattle.bcj_decl_listing.specs.Places.{steps_from, steps_of_world};
ghost use Rattle.bcj_decl_graph.specs.Reached.{AreBelow, IsWithin};
ghost use Rattle.bcj_decl_head_faults.specs.Kinds.{names_wrong_kind};
ghost use Rattle.bcj_decl_head_faults.specs.Refusals.{StandsBehind, IsFirstRefusal, refusal_of, IsRefusedAbove};

use crate::ancestor::{find_above, has_found, lacks_any};
use crate::name::{is_taken, names_twice, names_wrong_kind, unknown_name};
use bcj_decl_graph::{Search, Steps, circles_are_reached, passing_methods_are_reached};
use bcj_decl_listing::Listing;
use bcj_decl_table::TypeInfo;
use bcj_names::Name;
use bcj_parser_trees::TypeDecl;
use std::alloc::{AllocError, Global};

/// What is refused of the head of a type (JLS 8.1, 9.1).
#[derive(Drop)]
pub enum HeadRefusal {
    /// A type before it has its name.
    Duplicate(Name),
    /// No type has this name, the first such of the head.
    Unknown(Name),
    /// It names a type of the wrong kind, an interface twice, or stands above itself.
    BadHierarchy,
    /// A class that isn't abstract has an abstract method without a body.
    BadMember,
}

/// The memory of searches, for use again from type to type.
#[derive(Drop)]
pub struct Searches {
    above: Search,
    passing: Search,
}

impl Searches {
    /// Searches that have found nothing yet.
    pub fn new(alloc: Global) -> Searches {
        Searches {
            above: Search::new(alloc),
            passing: Search::new(alloc),
        }
    }
}

/// What is refused by the types above a type.
fn refusal_above(
    listing: &Listing,
    steps: &Steps,
    info: &TypeInfo,
    from: &[usize],
    place: usize,
    searches: &mut Searches,
) -> Result<Option<HeadRefusal>, AllocError>
    requires within { IsWithin steps.now }
    requires starts { AreBelow (length steps.now) from.now }
    ensures { IfOk result (λ r. IsRefusedAbove (world_in listing.now.types) steps.now (declared_of info.now) from.now place (option_map refusal_of r)) }
{
    find_above(steps, from, &mut searches.above)?;
    if has_found(&searches.above, place) {
        return Ok(Some(HeadRefusal::BadHierarchy));
    }
    if info.head.interface {
        return Ok(None);
    }
    if info.head.is_abstract {
        return Ok(None);
    }
    let places = searches.above.places();
    if lacks_any(listing, steps, info, from, places, &mut searches.passing)? {
        Ok(Some(HeadRefusal::BadMember))
    } else {
        Ok(None)
    }
}

fn refusal_at(
    listing: &Listing,
    steps: &Steps,
    place: usize,
    searches: &mut Searches,
) -> Result<Option<HeadRefusal>, AllocError>
    requires { steps.now ≡ steps_of_world (world_in listing.now.types) }
    ensures { (before : List PlainType) (t : PlainType) → StandsBehind (world_in listing.now.types) place before t
        → IfOk result (λ r. IsRefusedAbove (world_in listing.now.types) steps.now (declared_type t) (steps_from (world_in listing.now.types) (declared_type t)) place (option_map refusal_of r)) }
{
    match listing.types.get(place) {
        None => Ok(None),
        Some(info) => match steps.get(place) {
            None => Ok(None),
            Some(from) => refusal_above(listing, steps, info, from.as_slice(), place, searches),
        },
    }
}

fn has_bad_names(alloc: Global, listing: &Listing, decl: &TypeDecl) -> Result<bool, AllocError>
    ensures { IfOk result (λ b. b ≡ (names_wrong_kind (world_in listing.now.types) (tree.type_of decl.now) || stands_twice (interfaces_of (tree.type_of decl.now)))) }
{
    if names_wrong_kind(listing, decl) {
        return Ok(true);
    }
    names_twice(alloc, decl)
}

/// What is refused of the head of a type that stands at this place of the listing's world, and of several refusals one of least
/// rank; none just where the head has no fault. The world may be any, with circles and with names that are unknown or stand twice.
pub fn head_refusal(
    alloc: Global,
    listing: &Listing,
    steps: &Steps,
    decl: &TypeDecl,
    place: usize,
    searches: &mut Searches,
) -> Result<Option<HeadRefusal>, AllocError>
    requires { steps.now ≡ steps_of_world (world_in listing.now.types) }
    ensures { (before : List PlainType) → StandsBehind (world_in listing.now.types) place before (tree.type_of decl.now)
        → IfOk result (λ r. IsFirstRefusal (HeadFault (world_in listing.now.types) before (tree.type_of decl.now)) (option_map refusal_of r)) }
{
    circles_are_reached();
    passing_methods_are_reached();
    if is_taken(listing, &decl.name, place) {
        return Ok(Some(HeadRefusal::Duplicate(decl.name.copy(alloc)?)));
    }
    if let Some(name) = unknown_name(listing, decl) {
        return Ok(Some(HeadRefusal::Unknown(name.copy(alloc)?)));
    }
    if has_bad_names(alloc, listing, decl)? {
        return Ok(Some(HeadRefusal::BadHierarchy));
    }
    refusal_at(listing, steps, place, searches)
}
