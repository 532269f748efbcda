ghost use Rattle.std.specs.Prelude.{◌≡◌, true, map, length, List, ℕ, IfOk};
ghost use Rattle.std.specs.Bool.{Decides};
ghost use Rattle.std.specs.List.{list_any};
ghost use Rattle.bcj_decl_rules.specs.World.{Declared};
ghost use Rattle.bcj_decl_rules.specs.Members.{same_signature};
ghost use Rattle.bcj_decl_table.specs.Views.{method_of_info, world_in};
ghost use Rattle.bcj_decl_listing.specs.Places.{steps_from, steps_of_world};
ghost use Rattle.bcj_decl_graph.specs.Reached.{AreBelow};
ghost use Rattle.bcj_decl_member_faults.specs.Decisions.{Clash};
ghost use Rattle.bcj_decl_member_faults.specs.Inherited as spec;

use crate::method::{has_same_signature, is_clash};
use bcj_decl_graph::{Barrier, Places, Search, Steps, passing_methods_are_reached};
use bcj_decl_listing::Listing;
use bcj_decl_table::MethodInfo;
use std::alloc::AllocError;

fn is_same_at(methods: &[MethodInfo], position: usize, method: &MethodInfo) -> bool
    ensures { result ≡ spec.method_at (same_signature (method_of_info method.now)) (map method_of_info methods.now) position }
{
    match methods.get(position) {
        None => false,
        Some(other) => has_same_signature(method, other),
    }
}

fn is_clash_at(methods: &[MethodInfo], position: usize, method: &MethodInfo) -> bool
    ensures { result ≡ spec.method_at (spec.is_clash (method_of_info method.now)) (map method_of_info methods.now) position }
{
    match methods.get(position) {
        None => false,
        Some(other) => is_clash(method, other),
    }
}

fn has_same(methods: &[MethodInfo], positions: &[usize], method: &MethodInfo) -> bool
    ensures { result ≡ list_any (spec.method_at (same_signature (method_of_info method.now)) (map method_of_info methods.now)) positions.now }
{
    for position in positions {
        if is_same_at(methods, *position, method) {
            return true;
        }
    }
    false
}

fn has_clash(methods: &[MethodInfo], positions: &[usize], method: &MethodInfo) -> bool
    ensures { result ≡ list_any (spec.method_at (spec.is_clash (method_of_info method.now)) (map method_of_info methods.now)) positions.now }
{
    for position in positions {
        if is_clash_at(methods, *position, method) {
            return true;
        }
    }
    false
}

fn declares_at(listing: &Listing, place: usize, method: &MethodInfo) -> bool
    ensures { result ≡ spec.declares_at (world_in listing.now.types) (method_of_info method.now) place }
{
    match listing.type_at(place) {
        None => false,
        Some(info) => has_same(
            info.methods.as_slice(),
            listing.method_positions(place, &method.name),
            method,
        ),
    }
}

fn clashes_at(listing: &Listing, place: usize, method: &MethodInfo) -> bool
    ensures { result ≡ spec.clashes_at (world_in listing.now.types) (method_of_info method.now) place }
{
    match listing.type_at(place) {
        None => false,
        Some(info) => has_clash(
            info.methods.as_slice(),
            listing.method_positions(place, &method.name),
            method,
        ),
    }
}

fn clashes_at_one(listing: &Listing, places: &[usize], method: &MethodInfo) -> bool
    ensures { result ≡ list_any (spec.clashes_at (world_in listing.now.types) (method_of_info method.now)) places.now }
{
    for place in places {
        if clashes_at(listing, *place, method) {
            return true;
        }
    }
    false
}

/// Closes the types that declare a method of the same name and parameters, which hides those above them (JLS 8.4.8).
#[derive(Clone, Copy)]
struct Declaring<'a> {
    listing: &'a Listing,
    method: &'a MethodInfo,
}

impl<'a> Barrier for Declaring<'a> {
    ghost use Rattle.bcj_decl_table.specs.Views.{method_of_info, world_in};
    ghost use Rattle.bcj_decl_member_faults.specs.Inherited.{declares_at};

    ghost closed = { λ s k. declares_at (world_in s.listing.now.types) (method_of_info s.method.now) k };

    fn is_closed(&self, place: usize) -> bool {
        declares_at(self.listing, place, self.method)
    }
}

/// Whether a method that passes to the type above which these places stand is at odds with one of the type.
pub fn clashes(
    listing: &Listing,
    steps: &Steps,
    search: &mut Search,
    above: &Places,
    method: &MethodInfo,
) -> Result<bool, AllocError>
    requires steps { steps.now ≡ steps_of_world (world_in listing.now.types) }
    requires starts { AreBelow (length steps.now) above.now }
    ensures { IfOk result (λ b. (t : Declared) → above.now ≡ steps_from (world_in listing.now.types) t → Decides b (Clash (world_in listing.now.types) t (method_of_info method.now))) }
{
    passing_methods_are_reached();
    let barrier = Declaring { listing, method };
    search.run(steps, above.as_slice(), &barrier)?;
    Ok(clashes_at_one(listing, search.places(), method))
}
