ghost use Rattle.std.specs.Prelude.{◌≡◌, ◌<◌, ◌^◌, ℕ, map, length, Some, IfOk};
ghost use Rattle.bcj_parser_trees.specs.Plain as tree;
ghost use Rattle.bcj_decl_rules.specs.World.{world_of};
ghost use Rattle.bcj_decl_table.specs.Views.{field_of_info, world_in};
ghost use Rattle.bcj_decl_constants.specs.Books.{IsBookOf, initial_of};
ghost use Rattle.bcj_decl_constants.specs.Initials.{FieldsStandOnce};
ghost use Rattle.bcj_decl_constants.specs.Laws.{AreConstants};
ghost use Rattle.bcj_decl_constants.specs.Needs.{fields_in};
ghost use Rattle.bcj_decl_constants.specs.Numbers.{meant, needs_of, offsets_from};
ghost use Rattle.bcj_decl_constants.specs.Waiting.{list_at};

use crate::book::Book;
use crate::build::{Fields, needs_of_number, number_fields};
use crate::initials::initialisers;
use crate::needs::Numbers;
use crate::search::FieldSearch;
use crate::work::values_of;
use bcj_decl_listing::Listing;
use bcj_decl_rules::Value;
use bcj_parser_trees::{Expr, Unit};
use std::alloc::{AllocError, Global};

/// What each field needs, by its number.
fn needs_of_all<L: FieldSearch>(
    alloc: Global,
    search: &L,
    fields: &Fields,
    initialisers: &[Option<&Expr>],
) -> Result<Vec<Numbers>, AllocError>
    requires offsets { fields.now.offsets.items ≡ offsets_from 0 (L.world search.now) }
    requires fields { map (λ r. field_of_info r.now) fields.now.fields.items ≡ fields_in (L.world search.now) }
    requires small { length (fields_in (L.world search.now)) < 2 ^ 64 }
    ensures many { IfOk result (λ needs. length needs.items ≡ length fields.now.fields.items) }
    ensures means { IfOk result (λ needs. (n : ℕ) → n < length fields.now.fields.items → meant (L.world search.now) (list_at needs.items n) ≡ map Some (needs_of (L.world search.now) (map initial_of initialisers.now) n)) }
{
    let mut needs = Vec::new(alloc);
    for number in 0..fields.fields.len() {
        needs.push(needs_of_number(alloc, search, fields, initialisers, number)?)?;
    }
    Ok(needs)
}

/// The fields of a world with what is known of each before any value is.
fn book_of<'a, L: FieldSearch>(
    alloc: Global,
    listing: &'a Listing,
    units: &'a [Unit],
    search: &L,
) -> Result<Book<'a>, AllocError>
    requires search { L.world search.now ≡ world_in listing.now.types }
    requires world { world_in listing.now.types ≡ world_of (map tree.unit_of units.now) }
    requires once { FieldsStandOnce (map tree.unit_of units.now) }
    ensures { IfOk result (λ b. IsBookOf (map tree.unit_of units.now) b) }
{
    let fields = number_fields(alloc, listing.as_slice())?;
    let initialisers = initialisers(alloc, units)?;
    let needs = needs_of_all(alloc, search, &fields, initialisers.as_slice())?;
    let Fields { offsets, fields } = fields;
    Ok(Book {
        offsets,
        fields,
        initialisers,
        needs,
    })
}

/// The values of the constant variables of declared units (JLS 4.12.4, 15.28), by the numbers of the fields in the world's order.
pub fn constants<L: FieldSearch>(
    alloc: Global,
    listing: &Listing,
    units: &[Unit],
    search: &L,
) -> Result<Vec<Option<Value>>, AllocError>
    requires search { L.world search.now ≡ world_in listing.now.types }
    requires world { world_in listing.now.types ≡ world_of (map tree.unit_of units.now) }
    requires once { FieldsStandOnce (map tree.unit_of units.now) }
    ensures { IfOk result (λ values. AreConstants (map tree.unit_of units.now) values.items) }
{
    let book = book_of(alloc, listing, units, search)?;
    values_of(alloc, &book, search)
}
