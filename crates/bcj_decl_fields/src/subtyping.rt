#![tactic(auto, using(std::proofs::lemmas::Grind::common_steps))]

ghost use Rattle.std.specs.Prelude.{◌≡◌, ◌↔◌, length, IsTrue};
ghost use Rattle.std.specs.List.{list_any};
ghost use Rattle.bcj_symbolic_trees.specs.Types.{ty_of, arg_of};
ghost use Rattle.bcj_decl_rules.specs.Subtypes.{Subtype, Fits, is_reference};
ghost use Rattle.bcj_decl_rules.specs.function.Above.{IsAcyclic};
ghost use Rattle.bcj_decl_table.specs.Views.{world_in};
ghost use Rattle.bcj_decl_fields.specs.Hierarchy.{IsHierarchy};
ghost use Rattle.bcj_decl_orders.specs.Orders.{AreOrders};
ghost use Rattle.bcj_decl_fields.specs.Searches as search_spec;

use crate::climbing::{declared_at, superclass_place};
use bcj_decl_listing::Listing;
use bcj_decl_orders::{Orders, places_above};
use bcj_symbolic_trees::{Arg, Name, OBJECT, Ty};

fn is_named_at(listing: &Listing, place: usize, name: &Name) -> bool
    ensures { result ≡ search_spec.is_named_at (world_in listing.now.types) name.now place }
{
    match declared_at(listing, place) {
        None => false,
        Some(info) => info.head.name.same(name),
    }
}

fn any_named(listing: &Listing, places: &[usize], name: &Name) -> bool
    ensures { result ≡ list_any (search_spec.is_named_at (world_in listing.now.types) name.now) places.now }
{
    places
        .iter()
        .any(|place| is_named_at(listing, *place, name))
}

/// Whether the class at a place, or an interface over it, has the name.
fn meets(listing: &Listing, orders: &Orders, place: usize, name: &Name) -> bool
    ensures { result ≡ search_spec.meets (world_in listing.now.types) orders.now name.now place }
{
    is_named_at(listing, place, name) || any_named(listing, places_above(orders, place), name)
}

/// The same of the classes from a place up.
fn any_meets(listing: &Listing, orders: &Orders, start: Option<usize>, name: &Name) -> bool
    ensures { result ≡ search_spec.any_meets (world_in listing.now.types) orders.now name.now (length listing.now.types) start }
{
    let mut next = start;
    for _step in 0..listing.len() {
        match next {
            None => return false,
            Some(place) => {
                if meets(listing, orders, place, name) {
                    return true;
                }
                next = superclass_place(listing, place);
            }
        }
    }
    false
}

fn is_above(listing: &Listing, orders: &Orders, place: usize, name: &Name) -> bool
    ensures { result ≡ search_spec.is_above (world_in listing.now.types) orders.now name.now place }
{
    name.as_str() == OBJECT
        || meets(listing, orders, place, name)
        || any_meets(listing, orders, superclass_place(listing, place), name)
}

fn is_sub(listing: &Listing, orders: &Orders, name: &Name, other: &Name) -> bool
    requires { AreOrders (world_in listing.now.types) orders.now }
    ensures { result ≡ search_spec.is_sub (world_in listing.now.types) name.now other.now }
{
    if name.same(other) {
        return true;
    }
    match listing.place(name) {
        None => false,
        Some(place) => is_above(listing, orders, place, other),
    }
}

#[tactic(auto, using(bcj_symbolic_trees::proofs::PlainLemmas::tree_rules))]
fn is_subtype(listing: &Listing, orders: &Orders, ty: &Ty, other: &Ty) -> bool
    requires { AreOrders (world_in listing.now.types) orders.now }
    ensures { result ≡ search_spec.is_subtype (world_in listing.now.types) (ty_of ty.now) (ty_of other.now) }
{
    match ty {
        Ty::Int => match other {
            Ty::Int => true,
            Ty::Bool | Ty::Void | Ty::Class(_) | Ty::Array(_) => false,
        },
        Ty::Bool => match other {
            Ty::Bool => true,
            Ty::Int | Ty::Void | Ty::Class(_) | Ty::Array(_) => false,
        },
        Ty::Void => match other {
            Ty::Void => true,
            Ty::Int | Ty::Bool | Ty::Class(_) | Ty::Array(_) => false,
        },
        Ty::Class(name) => match other {
            Ty::Class(other_name) => is_sub(listing, orders, name, other_name),
            Ty::Int | Ty::Bool | Ty::Void | Ty::Array(_) => false,
        },
        Ty::Array(component) => match other {
            Ty::Array(other_component) => {
                is_subtype(listing, orders, component.get(), other_component.get())
            }
            Ty::Class(name) => name.as_str() == OBJECT,
            Ty::Int | Ty::Bool | Ty::Void => false,
        },
    }
}

#[tactic(auto, using(bcj_symbolic_trees::proofs::PlainLemmas::tree_rules))]
fn is_reference(ty: &Ty) -> bool
    ensures { result ≡ is_reference (ty_of ty.now) }
{
    match ty {
        Ty::Class(_) | Ty::Array(_) => true,
        Ty::Int | Ty::Bool | Ty::Void => false,
    }
}

/// Whether a type is a subtype of the other (JLS 4.10). It takes no memory.
pub fn subtype(listing: &Listing, orders: &Orders, ty: &Ty, other: &Ty) -> bool
    requires acyclic { IsAcyclic (world_in listing.now.types) }
    requires hierarchy { IsHierarchy (world_in listing.now.types) }
    requires orders { AreOrders (world_in listing.now.types) orders.now }
    ensures { IsTrue result ↔ Subtype (world_in listing.now.types) (ty_of ty.now) (ty_of other.now) }
{
    is_subtype(listing, orders, ty, other)
}

fn does_fit(listing: &Listing, orders: &Orders, arg: &Arg, ty: &Ty) -> bool
    requires { AreOrders (world_in listing.now.types) orders.now }
    ensures { result ≡ search_spec.does_fit (world_in listing.now.types) (arg_of arg.now) (ty_of ty.now) }
{
    match arg {
        Arg::Given(given) => is_subtype(listing, orders, given, ty),
        Arg::Null => is_reference(ty),
    }
}

/// Whether an argument fits a parameter of the type (JLS 15.12.2.2). It takes no memory.
pub fn fits(listing: &Listing, orders: &Orders, arg: &Arg, ty: &Ty) -> bool
    requires acyclic { IsAcyclic (world_in listing.now.types) }
    requires hierarchy { IsHierarchy (world_in listing.now.types) }
    requires orders { AreOrders (world_in listing.now.types) orders.now }
    ensures { IsTrue result ↔ Fits (world_in listing.now.types) (arg_of arg.now) (ty_of ty.now) }
{
    does_fit(listing, orders, arg, ty)
}
