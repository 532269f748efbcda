ghost use Rattle.std.specs.Prelude.{◌≡◌, length, IfOk};
ghost use Rattle.bcj_decl_rules.specs.function.Above.{IsAcyclic};
ghost use Rattle.bcj_decl_table.specs.Views.{world_in};
ghost use Rattle.bcj_decl_orders.specs.Orders.{AreOrders, list_at};

use crate::gather::{Places, list_in};
use crate::rounds::run;
use bcj_decl_listing::Listing;
use bcj_symbolic_trees::Sequence;
use std::alloc::{AllocError, Global};

/// For each place a list of places.
pub type Orders = Sequence<Places>;

fn empty_lists(alloc: Global, count: usize) -> Result<Vec<Places>, AllocError>
    ensures { IfOk result (λ v. length v.items ≡ count) }
{
    let mut lists = Vec::new(alloc);
    for _ in 0..count {
        lists.push(Sequence::new(alloc))?;
    }
    Ok(lists)
}

/// The places of the superinterfaces of each type, in the order in which a search of its members meets them (JLS 8.4.8, 9.4.1) and each
/// once.
pub fn orders(alloc: Global, listing: &Listing) -> Result<Orders, AllocError>
    requires { IsAcyclic (world_in listing.now.types) }
    ensures { IfOk result (λ o. AreOrders (world_in listing.now.types) o) }
{
    let mut lists = empty_lists(alloc, listing.len())?;
    let mut done = vec![in alloc; false; listing.len()]?;
    run(alloc, listing, lists.as_mut_slice(), done.as_mut_slice())?;
    Ok(Sequence::of(lists))
}

/// The list at a place, an empty one past the end. It takes no memory.
pub fn places_above(orders: &Orders, place: usize) -> &[usize]
    ensures { result.now ≡ list_at orders.now place }
{
    list_in(orders.as_slice(), place)
}
