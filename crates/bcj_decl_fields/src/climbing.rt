ghost use Rattle.std.specs.Prelude.{◌≡◌, slice_get};
ghost use Rattle.std.specs.Option.{option_copied, option_map};
ghost use Rattle.bcj_decl_table.specs.Views.{declared_of, world_in};
ghost use Rattle.bcj_decl_fields.specs.Searches as search_spec;

use bcj_decl_listing::Listing;
use bcj_decl_table::TypeInfo;

/// The type at a place. It takes no memory.
pub fn declared_at(listing: &Listing, place: usize) -> Option<&TypeInfo>
    ensures { option_map declared_of (option_copied result) ≡ slice_get (world_in listing.now.types) place }
{
    listing.type_at(place)
}

/// The place of the superclass of the type at a place. It takes no memory.
pub fn superclass_place(listing: &Listing, place: usize) -> Option<usize>
    ensures { result ≡ search_spec.superclass_place (world_in listing.now.types) place }
{
    match declared_at(listing, place) {
        None => None,
        Some(info) => match &info.head.superclass {
            None => None,
            Some(name) => listing.place(name),
        },
    }
}
