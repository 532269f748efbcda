ghost use Rattle.std.specs.Prelude.{◌≡◌, ◌||◌, false, length};
ghost use Rattle.std.specs.List.{flat_map};
ghost use Rattle.std.specs.Option.{option_to_list};
ghost use Rattle.bcj_symbolic_trees.specs.Types.{args_of};
ghost use Rattle.bcj_decl_rules.specs.function.Above.{IsAcyclic};
ghost use Rattle.bcj_decl_table.specs.Views.{method_of_info, world_in};
ghost use Rattle.bcj_decl_methods.specs.Candidates.{is_open};
ghost use Rattle.bcj_decl_methods.specs.Search.{method_at, best_of, shown, offered, candidates_at};
ghost use Rattle.bcj_decl_fields.specs.Searches.{superclass_place, places_up};
ghost use Rattle.bcj_decl_methods.specs.Passes.{Passed};
ghost use Rattle.bcj_decl_orders.specs.Orders.{AreOrders, list_at};
ghost use Rattle.bcj_decl_fields.specs.Hierarchy.{IsHierarchy};

use crate::contest::{Call, Contest, MethodId, consider, method};
use bcj_decl_listing::Listing;
use bcj_decl_orders::{Orders, places_above};
use bcj_decl_table::MethodInfo;
use bcj_symbolic_trees::CONSTRUCTOR;

/// Whether a method may pass to another type: it is neither private nor a constructor (JLS 8.4.8, 8.8).
fn is_open(method: &MethodInfo) -> bool
    ensures { result ≡ is_open (method_of_info method.now) }
{
    !method.is_private && method.name.as_str() != CONSTRUCTOR
}

fn is_offered(all: bool, method: &MethodInfo) -> bool
    ensures { result ≡ (all || is_open (method_of_info method.now)) }
{
    all || is_open(method)
}

/// Passes the method of an id; without `all` only one that may pass to another type.
fn consider_at(
    listing: &Listing,
    orders: &Orders,
    call: Call,
    contest: Contest,
    all: bool,
    id: MethodId,
) -> Contest
    requires acyclic { IsAcyclic (world_in listing.now.types) }
    requires hierarchy { IsHierarchy (world_in listing.now.types) }
    requires orders { AreOrders (world_in listing.now.types) orders.now }
    ensures { Passed (world_in listing.now.types) call.entry.from.now (args_of call.entry.args.now) (best_of (world_in listing.now.types) contest)
        (shown all (option_to_list (method_at (world_in listing.now.types) id))) (best_of (world_in listing.now.types) result) }
{
    match method(listing, id) {
        None => contest,
        Some(info) => {
            if is_offered(all, info) {
                consider(listing, orders, call, contest, id, info)
            } else {
                contest
            }
        }
    }
}

/// Passes the methods of the name in the type at a place.
fn consider_type(
    listing: &Listing,
    orders: &Orders,
    call: Call,
    contest: Contest,
    all: bool,
    place: usize,
) -> Contest
    requires acyclic { IsAcyclic (world_in listing.now.types) }
    requires hierarchy { IsHierarchy (world_in listing.now.types) }
    requires orders { AreOrders (world_in listing.now.types) orders.now }
    ensures { Passed (world_in listing.now.types) call.entry.from.now (args_of call.entry.args.now) (best_of (world_in listing.now.types) contest)
        (offered all (world_in listing.now.types) call.entry.name.now place) (best_of (world_in listing.now.types) result) }
{
    let mut contest = contest;
    for at in listing.method_positions(place, call.name) {
        contest = consider_at(
            listing,
            orders,
            call,
            contest,
            all,
            MethodId {
                class: place,
                at: *at,
            },
        );
    }
    contest
}

/// Passes those of the superinterfaces of the type at a place.
fn consider_superinterfaces(
    listing: &Listing,
    orders: &Orders,
    call: Call,
    contest: Contest,
    place: usize,
) -> Contest
    requires acyclic { IsAcyclic (world_in listing.now.types) }
    requires hierarchy { IsHierarchy (world_in listing.now.types) }
    requires orders { AreOrders (world_in listing.now.types) orders.now }
    ensures { Passed (world_in listing.now.types) call.entry.from.now (args_of call.entry.args.now) (best_of (world_in listing.now.types) contest)
        (flat_map (offered false (world_in listing.now.types) call.entry.name.now) (list_at orders.now place)) (best_of (world_in listing.now.types) result) }
{
    let mut contest = contest;
    for other in places_above(orders, place) {
        contest = consider_type(listing, orders, call, contest, false, *other);
    }
    contest
}

fn superclass(listing: &Listing, place: usize) -> Option<usize>
    ensures { result ≡ superclass_place (world_in listing.now.types) place }
{
    match listing.type_at(place) {
        None => None,
        Some(t) => match &t.head.superclass {
            None => None,
            Some(name) => listing.place(name),
        },
    }
}

/// Passes the methods of the superclasses of the type at a place, from near to far.
fn consider_superclasses(
    listing: &Listing,
    orders: &Orders,
    call: Call,
    contest: Contest,
    place: usize,
) -> Contest
    requires acyclic { IsAcyclic (world_in listing.now.types) }
    requires hierarchy { IsHierarchy (world_in listing.now.types) }
    requires orders { AreOrders (world_in listing.now.types) orders.now }
    ensures { Passed (world_in listing.now.types) call.entry.from.now (args_of call.entry.args.now) (best_of (world_in listing.now.types) contest)
        (flat_map (offered false (world_in listing.now.types) call.entry.name.now)
        (places_up (length listing.now.types) (world_in listing.now.types) (superclass_place (world_in listing.now.types) place))) (best_of (world_in listing.now.types) result) }
{
    let mut contest = contest;
    let mut next = superclass(listing, place);
    for step in 0..listing.len() {
        let Some(class) = next else { return contest };
        contest = consider_type(listing, orders, call, contest, false, class);
        next = superclass(listing, class);
    }
    contest
}

/// Passes the methods of the superinterfaces of these superclasses.
fn consider_farther_superinterfaces(
    listing: &Listing,
    orders: &Orders,
    call: Call,
    contest: Contest,
    place: usize,
) -> Contest
    requires acyclic { IsAcyclic (world_in listing.now.types) }
    requires hierarchy { IsHierarchy (world_in listing.now.types) }
    requires orders { AreOrders (world_in listing.now.types) orders.now }
    ensures { Passed (world_in listing.now.types) call.entry.from.now (args_of call.entry.args.now) (best_of (world_in listing.now.types) contest)
        (flat_map (λ k. flat_map (offered false (world_in listing.now.types) call.entry.name.now) (list_at orders.now k))
        (places_up (length listing.now.types) (world_in listing.now.types) (superclass_place (world_in listing.now.types) place))) (best_of (world_in listing.now.types) result) }
{
    let mut contest = contest;
    let mut next = superclass(listing, place);
    for step in 0..listing.len() {
        let Some(class) = next else { return contest };
        contest = consider_superinterfaces(listing, orders, call, contest, class);
        next = superclass(listing, class);
    }
    contest
}

/// Passes all methods of the name that the type at a place and the types above it have, in the order of a search.
pub fn consider_all(
    listing: &Listing,
    orders: &Orders,
    call: Call,
    contest: Contest,
    place: usize,
) -> Contest
    requires acyclic { IsAcyclic (world_in listing.now.types) }
    requires hierarchy { IsHierarchy (world_in listing.now.types) }
    requires orders { AreOrders (world_in listing.now.types) orders.now }
    ensures { Passed (world_in listing.now.types) call.entry.from.now (args_of call.entry.args.now) (best_of (world_in listing.now.types) contest)
        (candidates_at (world_in listing.now.types) orders.now call.entry.name.now place) (best_of (world_in listing.now.types) result) }
{
    let own = consider_type(listing, orders, call, contest, true, place);
    let classes = consider_superclasses(listing, orders, call, own, place);
    let near = consider_superinterfaces(listing, orders, call, classes, place);
    consider_farther_superinterfaces(listing, orders, call, near, place)
}
