ghost use Rattle.std.specs.Prelude.{◌≡◌, ◌<◌, ◌^◌, None, Some, length, slice_index};
ghost use Rattle.bcj_decl_rules.specs.Members.{field_of};
ghost use Rattle.bcj_decl_constants.specs.Needs.{fields_in};
ghost use Rattle.bcj_decl_constants.specs.Numbers.{offsets_from, IsNumberOf, value_of_number};

use crate::search::FieldSearch;
use bcj_decl_rules::Value;
use bcj_names::Name;

fn offset_at(offsets: &[usize], place: usize) -> usize
    requires { place < length offsets.now }
    ensures { result ≡ slice_index offsets.now place }
{
    offsets[place]
}

/// The value at a number, if one is known.
pub fn value_at(values: &[Option<Value>], number: usize) -> Option<Value>
    ensures { result ≡ value_of_number values.now number }
{
    match values.get(number) {
        None => None,
        Some(value) => *value,
    }
}

/// The number of the field that a name means in a type.
pub fn number_of<L: FieldSearch>(
    search: &L,
    offsets: &[usize],
    class: &Name,
    name: &Name,
) -> Option<usize>
    requires offsets { offsets.now ≡ offsets_from 0 (L.world search.now) }
    requires small { length (fields_in (L.world search.now)) < 2 ^ 64 }
    ensures { IsNumberOf (L.world search.now) (field_of (L.world search.now) class.now name.now) result }
{
    match search.find(class, name) {
        None => None,
        Some((place, position)) => Some(offset_at(offsets, place) + position),
    }
}
