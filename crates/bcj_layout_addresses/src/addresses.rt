ghost use Rattle.std.specs.Prelude.{◌≡◌, map, IfOk};
ghost use Rattle.bcj_layout_places.specs.Places.{ArePlaces};
ghost use Rattle.bcj_layout_addresses.specs.Addresses.{AreAddresses};

use crate::lists::{field_lists, found_lists, own_lists};
use bcj_layout_members::Members;
use bcj_layout_places::{Places, Words};
use bcj_layout_resolution::Resolver;
use bcj_symbolic_trees::Sequence;
use std::alloc::{AllocError, Global};

/// A list of words for each class.
pub type WordLists = Sequence<Words>;

/// Where the members of each class are, by their numbers in its record.
#[derive(Drop)]
pub struct Addresses {
    /// The address of the code of each method.
    pub own: WordLists,
    /// The same, but for methods that share a name and a descriptor that of the first: where a search finds them.
    pub methods: WordLists,
    /// The address of each static field, and the offset in objects of each other field of a class that loads; 0 where it doesn't.
    pub fields: WordLists,
}

/// Where the members of all classes are. An address past 32 bits fits no memory.
pub fn find_addresses(
    alloc: Global,
    resolver: &Resolver,
    members: &Members<'_>,
    places: &Places,
    main: &str,
) -> Result<Addresses, AllocError>
    requires same { members.now ≡ resolver.now }
    requires places { ArePlaces resolver.now main.now places.now }
    ensures { IfOk result (AreAddresses resolver.now main.now) }
{
    let _distinct = resolver.hier().len();
    let classes = resolver.records().classes.as_slice();
    Ok(Addresses {
        own: own_lists(alloc, classes, places.text.as_slice())?,
        methods: found_lists(alloc, classes, places.text.as_slice())?,
        fields: field_lists(alloc, resolver, members, places.statics.as_slice())?,
    })
}
