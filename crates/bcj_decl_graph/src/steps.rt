#![tactic(auto, using(crate::proofs::Rules::step_rules))]

ghost use Rattle.std.specs.Prelude.{◌≡◌, [], ◌++◌, IfOk, OnOk};
ghost use Rattle.std.specs.Option.{option_to_list};
ghost use Rattle.bcj_symbolic_trees.specs.Names.{object_name};
ghost use Rattle.bcj_decl_rules.specs.Subtypes.{or_object};
ghost use Rattle.bcj_decl_table.specs.Views.{declared_of, world_in};
ghost use Rattle.bcj_decl_listing.specs.Places.{place_of, places_of, steps_from, steps_of_world};
ghost use Rattle.bcj_decl_graph.specs.Reached.{IsWithin};

use bcj_decl_listing::Listing;
use bcj_decl_table::TypeInfo;
use bcj_names::Name;
use bcj_symbolic_trees::{OBJECT, Sequence};
use std::alloc::{AllocError, Global};

/// Places in a listing.
pub type Places = Sequence<usize>;

/// For each place the places to which it steps.
pub type Steps = Sequence<Places>;

fn push_place(listing: &Listing, name: &Name, places: &mut Places) -> Result<(), AllocError>
    ensures { OnOk result (places.new ≡ places.old ++ option_to_list (place_of (world_in listing.now.types) name.now)) }
{
    match listing.place(name) {
        None => Ok(()),
        Some(place) => places.push(place),
    }
}

fn push_places(listing: &Listing, names: &[Name], places: &mut Places) -> Result<(), AllocError>
    ensures { OnOk result (places.new ≡ places.old ++ places_of (world_in listing.now.types) names.now) }
{
    for name in names {
        push_place(listing, name, places)?;
    }
    Ok(())
}

/// The places of the types that these names mean, in their order. A name of no type has none.
pub fn places_of_names(
    alloc: Global,
    listing: &Listing,
    names: &[Name],
) -> Result<Places, AllocError>
    ensures { IfOk result (λ ps. ps ≡ places_of (world_in listing.now.types) names.now) }
{
    let mut places = Sequence::new(alloc);
    push_places(listing, names, &mut places)?;
    Ok(places)
}

fn push_superclass(
    listing: &Listing,
    superclass: &Option<Name>,
    places: &mut Places,
) -> Result<(), AllocError>
    ensures { OnOk result (places.new ≡ places.old ++ places_of (world_in listing.now.types) (option_to_list superclass.now)) }
{
    match superclass {
        None => Ok(()),
        Some(name) => push_place(listing, name, places),
    }
}

/// An interface without superinterfaces steps to Object (JLS 4.10.2).
fn push_superinterfaces(
    listing: &Listing,
    object: &Name,
    interface: bool,
    names: &[Name],
    places: &mut Places,
) -> Result<(), AllocError>
    requires { object.now ≡ object_name }
    ensures { OnOk result (places.new ≡ places.old ++ places_of (world_in listing.now.types) (or_object interface names.now)) }
{
    if interface && names.is_empty() {
        push_place(listing, object, places)
    } else {
        push_places(listing, names, places)
    }
}

fn steps_of_type(
    alloc: Global,
    listing: &Listing,
    object: &Name,
    info: &TypeInfo,
) -> Result<Places, AllocError>
    requires { object.now ≡ object_name }
    ensures { IfOk result (λ ps. ps ≡ steps_from (world_in listing.now.types) (declared_of info.now)) }
{
    let mut places = Sequence::new(alloc);
    push_superclass(listing, &info.head.superclass, &mut places)?;
    push_superinterfaces(
        listing,
        object,
        info.head.interface,
        info.head.interfaces.as_slice(),
        &mut places,
    )?;
    Ok(places)
}

/// The steps from each type to its superclass and its superinterfaces (JLS 4.10.2).
pub fn steps_of_listing(alloc: Global, listing: &Listing) -> Result<Steps, AllocError>
    ensures steps { IfOk result (λ s. s ≡ steps_of_world (world_in listing.now.types)) }
    ensures within { IfOk result (λ s. IsWithin s) }
{
    let object = Name::from_str(alloc, OBJECT)?;
    let mut steps = Sequence::new(alloc);
    for info in listing.as_slice() {
        steps.push(steps_of_type(alloc, listing, &object, info)?)?;
    }
    Ok(steps)
}
