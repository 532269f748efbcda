ghost use Rattle.std.specs.Prelude.{◌≡◌, [], ◌∷◌, Some};
ghost use Rattle.std.specs.Option.{option_copied, option_map, option_and_then};
ghost use Rattle.bcj_symbolic_trees.specs.Types.{args_of};
ghost use Rattle.bcj_decl_rules.specs.function.Above.{IsAcyclic};
ghost use Rattle.bcj_decl_table.specs.Views.{method_of_info, world_in};
ghost use Rattle.bcj_decl_methods.specs.Search.{method_at, best_of};
ghost use Rattle.bcj_decl_methods.specs.Passes.{Passed};
ghost use Rattle.bcj_decl_orders.specs.Orders.{AreOrders};
ghost use Rattle.bcj_decl_fields.specs.Hierarchy.{IsHierarchy};

use crate::applicable::{is_applicable, is_as_specific};
use bcj_decl_listing::Listing;
use bcj_decl_orders::Orders;
use bcj_decl_table::MethodInfo;
use bcj_names::Name;
use bcj_symbolic_trees::Arg;

/// A method by the place of its type and its position in the type.
#[derive(Clone, Copy)]
pub struct MethodId {
    pub class: usize,
    pub at: usize,
}

/// A call for which a method is chosen: the type that holds it, the name and the arguments.
#[derive(Clone, Copy)]
pub struct Call<'a> {
    pub from: &'a Name,
    pub name: &'a Name,
    pub args: &'a [Arg],
}

/// The best of the methods that were passed, and whether it changed.
#[derive(Clone, Copy)]
pub struct Contest {
    pub best: Option<MethodId>,
    pub changed: bool,
}

/// The method that an id means.
pub fn method<'a>(listing: &'a Listing, id: MethodId) -> Option<&'a MethodInfo>
    ensures { option_map method_of_info (option_copied result) ≡ method_at (world_in listing.now.types) id }
{
    match listing.type_at(id.class) {
        None => None,
        Some(t) => t.methods.get(id.at),
    }
}

fn best<'a>(listing: &'a Listing, contest: Contest) -> Option<&'a MethodInfo>
    ensures { option_map method_of_info (option_copied result) ≡ option_and_then (method_at (world_in listing.now.types)) contest.best }
{
    match contest.best {
        None => None,
        Some(id) => method(listing, id),
    }
}

/// Passes one method: it is the best from here on if it is applicable and the best so far isn't as specific.
pub fn consider(
    listing: &Listing,
    orders: &Orders,
    call: Call,
    contest: Contest,
    id: MethodId,
    info: &MethodInfo,
) -> Contest
    requires acyclic { IsAcyclic (world_in listing.now.types) }
    requires hierarchy { IsHierarchy (world_in listing.now.types) }
    requires orders { AreOrders (world_in listing.now.types) orders.now }
    requires is_it { method_at (world_in listing.now.types) id ≡ Some (method_of_info info.now) }
    ensures { Passed (world_in listing.now.types) call.entry.from.now (args_of call.entry.args.now) (best_of (world_in listing.now.types) contest) (method_of_info info.now ∷ [])
        (best_of (world_in listing.now.types) result) }
{
    if !is_applicable(listing, orders, call.from, info, call.args) {
        return contest;
    }
    if let Some(other) = best(listing, contest) {
        if is_as_specific(listing, orders, other, info) {
            return contest;
        }
    }
    Contest {
        best: Some(id),
        changed: true,
    }
}
