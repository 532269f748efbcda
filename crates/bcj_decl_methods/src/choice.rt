ghost use Rattle.std.specs.Prelude.{◌≡◌, Some};
ghost use Rattle.bcj_symbolic_trees.specs.Types.{args_of};
ghost use Rattle.bcj_decl_rules.specs.Methods as rule;
ghost use Rattle.bcj_decl_rules.specs.function.Above.{IsAcyclic};
ghost use Rattle.bcj_decl_table.specs.Views.{world_in};
ghost use Rattle.bcj_decl_methods.specs.Laws as law;
ghost use Rattle.bcj_decl_methods.specs.Search.{best_of, choice_of, decided};
ghost use Rattle.bcj_decl_orders.specs.Orders.{AreOrders};
ghost use Rattle.bcj_decl_fields.specs.Hierarchy.{IsHierarchy};

use crate::contest::{Call, Contest, MethodId, method};
use crate::search::consider_all;
use bcj_decl_listing::Listing;
use bcj_decl_orders::Orders;
use bcj_names::Name;
use bcj_symbolic_trees::Arg;

/// What a call takes. Several methods can be applicable with none of them the most specific.
#[derive(Clone, Copy)]
pub enum Choice {
    One(MethodId),
    NoneApplies,
    Ambiguous,
}

/// What the best of a first pass comes to, where the second one says whether it changed again.
fn decide(listing: &Listing, first: Contest, changed: bool) -> Choice
    ensures { choice_of (world_in listing.now.types) result ≡ Some (decided (best_of (world_in listing.now.types) first).method changed) }
{
    let Some(id) = first.best else {
        return Choice::NoneApplies;
    };
    match method(listing, id) {
        None => Choice::NoneApplies,
        Some(_) => {
            if changed {
                Choice::Ambiguous
            } else {
                Choice::One(id)
            }
        }
    }
}

/// The method or constructor of a name that a call in the type `from` takes of those that a class has (JLS 15.12.2). It takes no
/// memory. A first pass keeps a best method, and a second one tests it against all.
pub fn most_specific(
    listing: &Listing,
    orders: &Orders,
    from: &Name,
    class: &Name,
    name: &Name,
    args: &[Arg],
) -> Choice
    requires acyclic { IsAcyclic (world_in listing.now.types) }
    requires hierarchy { IsHierarchy (world_in listing.now.types) }
    requires orders { AreOrders (world_in listing.now.types) orders.now }
    requires alone { law.PrivateMethodsStandAlone (world_in listing.now.types) }
    requires transitive { law.SubtypesGoOn (world_in listing.now.types) }
    ensures { (c : _) × (choice_of (world_in listing.now.types) result ≡ Some c) × rule.MostSpecific (world_in listing.now.types) from.now class.now name.now (args_of args.now) c }
{
    let Some(place) = listing.place(class) else {
        return Choice::NoneApplies;
    };
    let call = Call { from, name, args };
    let start = Contest {
        best: None,
        changed: false,
    };
    let first = consider_all(listing, orders, call, start, place);
    let again = Contest {
        best: first.best,
        changed: false,
    };
    let second = consider_all(listing, orders, call, again, place);
    decide(listing, first, second.changed)
}
