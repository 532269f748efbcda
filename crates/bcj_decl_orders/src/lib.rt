//! The superinterfaces of each type of a world, and that searches of a world end.
#![tactic(auto)]

ghost use Rattle.bcj_decl_orders.specs.Laws as law;

mod gather;
mod rounds;
mod superinterfaces;

pub use gather::Places;
pub use superinterfaces::{Orders, orders, places_above};

/// Where nothing is refused, no type stands above itself (JLS 8.1.4, 9.1.3).
pub fn declared_worlds_are_acyclic()
    ensures { law.DeclaredWorldsAreAcyclic }
{}

/// Where no type stands above itself, a search with as many steps as the world has types finds all.
pub fn searches_end()
    ensures types { law.TypesAboveEnd }
    ensures classes { law.SuperclassesEnd }
    ensures interfaces { law.InterfacesEnd }
{}
