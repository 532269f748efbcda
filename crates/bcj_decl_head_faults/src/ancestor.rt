ghost use Rattle.std.specs.Prelude.{◌≡◌, ◌↔◌, ◌<◌, ◌&&◌, ℕ, false, not, List, map, length, nat_eq, IfOk, OnOk, slice_get};
ghost use Rattle.std.specs.List.{Contains, list_any};
ghost use Rattle.bcj_decl_table.specs.Views.{method_of_info, declared_of, world_in};
ghost use Rattle.bcj_decl_graph.specs.Reached.{AreBelow, IsWithin, Reached, steps_of};
ghost use Rattle.bcj_decl_graph.specs.Found.{found_of};
ghost use Rattle.bcj_decl_head_faults.specs.Lacks.{closed_by, may_lack, AnswersWhether, Lacks, SomeOf, LacksOf};

use crate::body::{declares, is_constructor, lacks_body};
use bcj_decl_graph::{Barrier, Nowhere, Search, Steps};
use bcj_decl_listing::Listing;
use bcj_decl_table::{MethodInfo, TypeInfo};
use std::alloc::AllocError;

/// Closes the places of the types that declare a method of this name and these parameters.
#[derive(Clone, Copy)]
struct Declaring<'a> {
    listing: &'a Listing,
    method: &'a MethodInfo,
}

impl Barrier for Declaring<'_> {
    ghost use Rattle.bcj_decl_table.specs.Views.{method_of_info, world_in};
    ghost use Rattle.bcj_decl_head_faults.specs.Lacks.{closed_by};

    ghost closed = { λ s k. closed_by (world_in s.listing.now.types) (method_of_info s.method.now) k };

    fn is_closed(&self, place: usize) -> bool {
        match self.listing.types.get(place) {
            None => false,
            Some(info) => declares(info, self.method),
        }
    }
}

/// Finds the places of the types above the type at a place.
pub fn find_above(steps: &Steps, from: &[usize], above: &mut Search) -> Result<(), AllocError>
    requires within { IsWithin steps.now }
    requires starts { AreBelow (length steps.now) from.now }
    ensures { OnOk result ((k : ℕ) → Contains (found_of above.new) k ↔ Reached steps.now (λ j. false) from.now k) }
{
    above.run(steps, from, &Nowhere)
}

/// Whether a place is among those that a search has found.
pub fn has_found(search: &Search, place: usize) -> bool
    ensures { result ≡ list_any (nat_eq place) (found_of search.now) }
{
    for found in search.places() {
        if place == *found {
            return true;
        }
    }
    false
}

fn may_lack(listing: &Listing, info: &TypeInfo, method: &MethodInfo) -> bool
    ensures { result ≡ may_lack (world_in listing.now.types) (declared_of info.now) (method_of_info method.now) }
{
    if method.is_private {
        return false;
    }
    if is_constructor(method) {
        return false;
    }
    lacks_body(listing, info, method)
}

/// Whether a method of the type at a place passes to the class, which lacks its body.
fn lacks(
    listing: &Listing,
    steps: &Steps,
    info: &TypeInfo,
    from: &[usize],
    place: usize,
    method: &MethodInfo,
    passing: &mut Search,
) -> Result<bool, AllocError>
    requires within { IsWithin steps.now }
    requires starts { AreBelow (length steps.now) from.now }
    ensures { IfOk result (λ b. AnswersWhether b (Lacks (world_in listing.now.types) steps.now (declared_of info.now) from.now place (method_of_info method.now))) }
{
    if !may_lack(listing, info, method) {
        return Ok(false);
    }
    passing.run(steps, from, &Declaring { listing, method })?;
    Ok(has_found(passing, place))
}

fn lacks_one(
    listing: &Listing,
    steps: &Steps,
    info: &TypeInfo,
    from: &[usize],
    place: usize,
    methods: &[MethodInfo],
    passing: &mut Search,
) -> Result<bool, AllocError>
    requires within { IsWithin steps.now }
    requires starts { AreBelow (length steps.now) from.now }
    ensures { IfOk result (λ b. AnswersWhether b (SomeOf (λ m. Lacks (world_in listing.now.types) steps.now (declared_of info.now) from.now place (method_of_info m)) methods.now)) }
{
    for method in methods {
        if lacks(listing, steps, info, from, place, method, passing)? {
            return Ok(true);
        }
    }
    Ok(false)
}

fn lacks_at(
    listing: &Listing,
    steps: &Steps,
    info: &TypeInfo,
    from: &[usize],
    place: usize,
    passing: &mut Search,
) -> Result<bool, AllocError>
    requires within { IsWithin steps.now }
    requires starts { AreBelow (length steps.now) from.now }
    ensures { IfOk result (λ b. AnswersWhether b (LacksOf (world_in listing.now.types) steps.now (declared_of info.now) from.now place)) }
{
    match listing.types.get(place) {
        None => Ok(false),
        Some(above) => lacks_one(
            listing,
            steps,
            info,
            from,
            place,
            above.methods.as_slice(),
            passing,
        ),
    }
}

/// Whether a method of one of these types passes to the class, which lacks its body.
pub fn lacks_any(
    listing: &Listing,
    steps: &Steps,
    info: &TypeInfo,
    from: &[usize],
    places: &[usize],
    passing: &mut Search,
) -> Result<bool, AllocError>
    requires within { IsWithin steps.now }
    requires starts { AreBelow (length steps.now) from.now }
    ensures { IfOk result (λ b. AnswersWhether b (SomeOf (LacksOf (world_in listing.now.types) steps.now (declared_of info.now) from.now) places.now)) }
{
    for place in places {
        if lacks_at(listing, steps, info, from, *place, passing)? {
            return Ok(true);
        }
    }
    Ok(false)
}
