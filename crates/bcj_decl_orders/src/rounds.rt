ghost use Rattle.std.specs.Prelude.{◌≡◌, ◌<◌, length, OnOk};
ghost use Rattle.std.specs.List.{list_all};
ghost use Rattle.bcj_decl_rules.specs.function.Above.{IsAcyclic};
ghost use Rattle.bcj_decl_table.specs.Views.{world_in};
ghost use Rattle.bcj_decl_orders.specs.Orders.{AreOrders};
ghost use Rattle.bcj_decl_orders.specs.Rounds.{is_done, are_done, AreRight, StayDone, IsMade, IsInRound};

use crate::gather::{Places, gather};
use bcj_decl_listing::Listing;
use bcj_names::Name;
use std::alloc::{AllocError, Global};

fn is_name_done(listing: &Listing, done: &[bool], name: &Name) -> bool
    ensures { result ≡ is_done (world_in listing.now.types) done.now name.now }
{
    match listing.place(name) {
        None => true,
        Some(place) => matches!(done.get(place), Some(true)),
    }
}

fn are_names_done(listing: &Listing, done: &[bool], names: &[Name]) -> bool
    ensures { result ≡ are_done (world_in listing.now.types) done.now names.now }
{
    names.iter().all(|name| is_name_done(listing, done, name))
}

fn are_all_done(done: &[bool]) -> bool
    ensures { result ≡ list_all (λ d. d) done.now }
{
    done.iter().all(|d| *d)
}

/// Lists the superinterfaces of the type at a place, where theirs are listed.
fn visit(
    alloc: Global,
    listing: &Listing,
    lists: &mut [Places],
    done: &mut [bool],
    place: usize,
) -> Result<(), AllocError>
    requires acyclic { IsAcyclic (world_in listing.now.types) }
    requires within { place < length listing.now.types }
    requires lists_of_all { length lists.old ≡ length listing.now.types }
    requires flags_of_all { length done.old ≡ length listing.now.types }
    requires right { AreRight (world_in listing.now.types) lists.old done.old }
    ensures right { OnOk result (AreRight (world_in listing.now.types) lists.new done.new) }
    ensures stay { OnOk result (StayDone done.old done.new) }
    ensures made { OnOk result (IsMade (world_in listing.now.types) done.old done.new place) }
{
    let names = listing.as_slice()[place].head.interfaces.as_slice();
    if done[place] || !are_names_done(listing, done, names) {
        return Ok(());
    }
    lists[place] = gather(alloc, listing, lists, names)?;
    done[place] = true;
    Ok(())
}

/// Visits each type once.
fn round(
    alloc: Global,
    listing: &Listing,
    lists: &mut [Places],
    done: &mut [bool],
) -> Result<(), AllocError>
    requires acyclic { IsAcyclic (world_in listing.now.types) }
    requires lists_of_all { length lists.old ≡ length listing.now.types }
    requires flags_of_all { length done.old ≡ length listing.now.types }
    requires right { AreRight (world_in listing.now.types) lists.old done.old }
    ensures { OnOk result (IsInRound (world_in listing.now.types) done.old lists.new done.new (length listing.now.types)) }
{
    for place in 0..listing.len() {
        visit(alloc, listing, lists, done, place)?;
    }
    Ok(())
}

/// Goes round until all types have their lists: one round for types without superinterfaces, and a further one for each type that
/// stands before one of its superinterfaces on the longest way up.
pub fn run(
    alloc: Global,
    listing: &Listing,
    lists: &mut [Places],
    done: &mut [bool],
) -> Result<(), AllocError>
    requires acyclic { IsAcyclic (world_in listing.now.types) }
    requires lists_of_all { length lists.old ≡ length listing.now.types }
    requires flags_of_all { length done.old ≡ length listing.now.types }
    requires right { AreRight (world_in listing.now.types) lists.old done.old }
    ensures { OnOk result (AreOrders (world_in listing.now.types) lists.new) }
{
    for _ in 0..listing.len() {
        if are_all_done(done) {
            return Ok(());
        }
        round(alloc, listing, lists, done)?;
    }
    round(alloc, listing, lists, done)?;
    Ok(())
}
