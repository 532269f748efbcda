ghost use Rattle.std.specs.Prelude.{◌≡◌, [], nat_eq, IfOk, OnOk};
ghost use Rattle.std.specs.List.{IsDistinct};
ghost use Rattle.indexmap.specs.IndexSet.{insert_all};
ghost use Rattle.bcj_decl_table.specs.Views.{world_in};
ghost use Rattle.bcj_decl_orders.specs.Orders.{list_at};
ghost use Rattle.bcj_decl_orders.specs.Rounds.{gathered, places_over};

use bcj_decl_listing::Listing;
use bcj_names::Name;
use bcj_symbolic_trees::Sequence;
use indexmap::IndexSet;
use std::alloc::{AllocError, Global};

/// Places in a listing.
pub type Places = Sequence<usize>;

/// The list at a place, an empty one past the end.
pub fn list_in(lists: &[Places], place: usize) -> &[usize]
    ensures { result.now ≡ list_at lists.now place }
{
    match lists.get(place) {
        None => &[],
        Some(list) => list.as_slice(),
    }
}

fn put_each(found: &mut IndexSet<usize>, places: &[usize]) -> Result<(), AllocError>
    ensures { OnOk result (found.new.keys ≡ insert_all nat_eq found.old.keys places.now) }
{
    for place in places {
        found.insert(*place)?;
    }
    Ok(())
}

/// Puts the place of a name into the set, and then the list there.
fn put_name(
    found: &mut IndexSet<usize>,
    listing: &Listing,
    lists: &[Places],
    name: &Name,
) -> Result<(), AllocError>
    ensures { OnOk result (found.new.keys ≡ insert_all nat_eq found.old.keys (places_over (world_in listing.now.types) lists.now name.now)) }
{
    match listing.place(name) {
        None => Ok(()),
        Some(place) => {
            found.insert(place)?;
            put_each(found, list_in(lists, place))
        }
    }
}

/// The places of these names, each with the list of its type behind it.
pub fn gather(
    alloc: Global,
    listing: &Listing,
    lists: &[Places],
    names: &[Name],
) -> Result<Places, AllocError>
    ensures places { IfOk result (λ l. l ≡ gathered (world_in listing.now.types) lists.now [] names.now) }
    ensures once { IfOk result (λ l. IsDistinct nat_eq l) }
{
    let mut found = IndexSet::new(alloc);
    for name in names {
        put_name(&mut found, listing, lists, name)?;
    }
    Ok(Sequence::of(Vec::from_slice(alloc, found.as_slice())?))
}
