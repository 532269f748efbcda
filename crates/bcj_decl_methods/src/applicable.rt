ghost use Rattle.std.specs.Prelude.{◌≡◌, ◌⊎◌, ◌↔◌, false, IsTrue};
ghost use Rattle.std.specs.List.{AllZip};
ghost use Rattle.bcj_symbolic_trees.specs.Types.{args_of, types_of};
ghost use Rattle.bcj_decl_rules.specs.Methods.{IsApplicable, IsAsSpecific};
ghost use Rattle.bcj_decl_rules.specs.Subtypes.{Subtype, Fits};
ghost use Rattle.bcj_decl_rules.specs.function.Above.{IsAcyclic};
ghost use Rattle.bcj_decl_table.specs.Views.{method_of_info, world_in};
ghost use Rattle.bcj_decl_orders.specs.Orders.{AreOrders};
ghost use Rattle.bcj_decl_fields.specs.Hierarchy.{IsHierarchy};

use bcj_decl_fields::{fits, subtype};
use bcj_decl_listing::Listing;
use bcj_decl_orders::Orders;
use bcj_decl_table::MethodInfo;
use bcj_names::Name;
use bcj_symbolic_trees::{Arg, Ty};

fn each_fits(listing: &Listing, orders: &Orders, args: &[Arg], params: &[Ty]) -> bool
    requires acyclic { IsAcyclic (world_in listing.now.types) }
    requires hierarchy { IsHierarchy (world_in listing.now.types) }
    requires orders { AreOrders (world_in listing.now.types) orders.now }
    ensures { IsTrue result ↔ AllZip (Fits (world_in listing.now.types)) (args_of args.now) (types_of params.now) }
{
    if args.len() != params.len() {
        return false;
    }
    for i in 0..args.len() {
        if !fits(listing, orders, &args[i], &params[i]) {
            return false;
        }
    }
    true
}

fn each_is_subtype(listing: &Listing, orders: &Orders, types: &[Ty], others: &[Ty]) -> bool
    requires acyclic { IsAcyclic (world_in listing.now.types) }
    requires hierarchy { IsHierarchy (world_in listing.now.types) }
    requires orders { AreOrders (world_in listing.now.types) orders.now }
    ensures { IsTrue result ↔ AllZip (Subtype (world_in listing.now.types)) (types_of types.now) (types_of others.now) }
{
    if types.len() != others.len() {
        return false;
    }
    for i in 0..types.len() {
        if !subtype(listing, orders, &types[i], &others[i]) {
            return false;
        }
    }
    true
}

fn is_accessible(from: &Name, method: &MethodInfo) -> bool
    ensures { IsTrue result ↔ ((method.now.is_private ≡ false) ⊎ (method.now.class ≡ from.now)) }
{
    !method.is_private || method.class.same(from)
}

/// Whether a call in the type `from` with these arguments can take the method (JLS 6.6.1, 15.12.2.2). It takes no memory.
pub fn is_applicable(
    listing: &Listing,
    orders: &Orders,
    from: &Name,
    method: &MethodInfo,
    args: &[Arg],
) -> bool
    requires acyclic { IsAcyclic (world_in listing.now.types) }
    requires hierarchy { IsHierarchy (world_in listing.now.types) }
    requires orders { AreOrders (world_in listing.now.types) orders.now }
    ensures { IsTrue result ↔ IsApplicable (world_in listing.now.types) from.now (method_of_info method.now) (args_of args.now) }
{
    is_accessible(from, method) && each_fits(listing, orders, args, method.params.as_slice())
}

/// Whether each parameter of the first method steps to that of the second (JLS 15.12.2.5).
pub fn is_as_specific(
    listing: &Listing,
    orders: &Orders,
    method: &MethodInfo,
    other: &MethodInfo,
) -> bool
    requires acyclic { IsAcyclic (world_in listing.now.types) }
    requires hierarchy { IsHierarchy (world_in listing.now.types) }
    requires orders { AreOrders (world_in listing.now.types) orders.now }
    ensures { IsTrue result ↔ IsAsSpecific (world_in listing.now.types) (method_of_info method.now) (method_of_info other.now) }
{
    each_is_subtype(
        listing,
        orders,
        method.params.as_slice(),
        other.params.as_slice(),
    )
}
