ghost use Rattle.std.specs.Prelude.{◌≡◌, ◌<◌, length};
ghost use Rattle.bcj_parser_trees.specs.Plain.{expr_of};
ghost use Rattle.bcj_parser_trees.specs.Trees.{absent, present};
ghost use Rattle.bcj_decl_table.specs.Views.{field_of_info};
ghost use Rattle.bcj_decl_constants.specs.Needs.{fields_in, known_in};
ghost use Rattle.bcj_decl_constants.specs.Numbers as spec;
ghost use Rattle.bcj_decl_constants.specs.Numbers.{EachOnce, offsets_from};
ghost use Rattle.bcj_decl_constants.specs.Waiting.{list_at};
ghost use Rattle.bcj_decl_constants.specs.Books.{IsBook, worth_in};

use crate::expression::value_in;
use crate::needs::Numbers;
use crate::search::FieldSearch;
use bcj_decl_rules::Value;
use bcj_decl_table::FieldInfo;
use bcj_decl_values::of_type;
use bcj_parser_trees::Expr;

/// The fields of a world by number, each with its initialiser and the numbers of the fields that it names, and the number of the
/// first field of each type.
#[derive(Drop)]
pub struct Book<'a> {
    pub offsets: Vec<usize>,
    pub fields: Vec<&'a FieldInfo>,
    pub initialisers: Vec<Option<&'a Expr>>,
    pub needs: Vec<Numbers>,
}

/// The numbers of the fields that the field of a number needs.
pub fn needs_at<'b>(book: &'b Book, number: usize) -> &'b [usize]
    ensures { result.now ≡ list_at book.now.needs.items number }
{
    match book.needs.get(number) {
        None => &[],
        Some(needs) => needs.as_slice(),
    }
}

fn worth_of<L: FieldSearch>(
    search: &L,
    offsets: &[usize],
    values: &[Option<Value>],
    field: &FieldInfo,
    init: &Expr,
) -> Option<Value>
    requires offsets { offsets.now ≡ offsets_from 0 (L.world search.now) }
    requires once { EachOnce (fields_in (L.world search.now)) }
    requires length { length values.now ≡ length (fields_in (L.world search.now)) }
    ensures { result ≡ spec.worth_of (L.world search.now) (known_in (fields_in (L.world search.now)) values.now) (field_of_info field.now) (present (expr_of init.now)) }
{
    if !field.is_final {
        return None;
    }
    match value_in(search, offsets, values, &field.class, init) {
        None => None,
        Some(value) => of_type(&field.ty, value),
    }
}

/// What the field of a number is worth by the values that are known.
pub fn worth<L: FieldSearch>(
    book: &Book,
    search: &L,
    values: &[Option<Value>],
    number: usize,
) -> Option<Value>
    requires book { IsBook (L.world search.now) book.now }
    requires length { length values.now ≡ length (fields_in (L.world search.now)) }
    ensures { result ≡ worth_in (L.world search.now) book.now values.now number }
{
    let field: &FieldInfo = match book.fields.get(number) {
        None => return None,
        Some(field) => *field,
    };
    match book.initialisers.get(number) {
        None | Some(None) => None,
        Some(Some(init)) => worth_of(search, book.offsets.as_slice(), values, field, *init),
    }
}
