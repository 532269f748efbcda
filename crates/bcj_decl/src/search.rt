ghost use Rattle.bcj_decl_table.specs.Views.{world_in};

use bcj_decl_constants::FieldSearch;
use bcj_decl_fields::lookup_field;
use bcj_decl_listing::Listing;
use bcj_decl_orders::Orders;
use bcj_names::Name;
use std::marker::Model;

/// A search for fields in a declared world; contracts see it as the types there.
#[derive(Drop)]
pub struct Search<'a> {
    pub listing: &'a Listing,
    pub orders: &'a Orders,
}

impl<'a> Model for Search<'a> {
    ghost use Rattle.std.specs.Prelude.{List};
    ghost use Rattle.std.specs.Coded.{codes};
    ghost use Rattle.bcj_decl_table.specs.declared.info.TypeInfo.{TypeInfo};
    ghost use Rattle.bcj_decl_table.specs.contracts.info.TypeInfo as info;
    ghost use Rattle.bcj_decl.specs.Searched.{IsSearched};

    ghost Value = { List TypeInfo };

    ghost coded = { Prim.hlevel (codes, info.the_row.coded) };

    ghost view = { λ s. s.listing.now.types };

    ghost invariant = { λ s. IsSearched s.listing.now.types s.orders.now };
}

impl FieldSearch for Search<'_> {
    ghost world = { λ types. world_in types };

    fn find(&self, class: &Name, name: &Name) -> Option<(usize, usize)> {
        match lookup_field(self.listing, self.orders, class, name) {
            None => None,
            Some(id) => Some((id.class, id.at)),
        }
    }
}
