ghost use Rattle.std.specs.Prelude.{◌≡◌, ◌+◌, ◌<◌, ◌&&◌, not, length, map, None, Some};
ghost use Rattle.std.specs.List.{filter, position};
ghost use Rattle.std.specs.Option.{option_map_or};
ghost use Rattle.bcj_hier_rules.specs.Shapes.{field_of_record, is_field};

use bcj_names::Name;
use bcj_tables_rules::FieldRecord;

fn is_called(field: &FieldRecord, name: &Name, desc: &Name) -> bool
    ensures { result ≡ is_field name.now desc.now (field_of_record field.now) }
{
    field.name.same(name) && field.ty.same(desc)
}

/// The number of the field among those that aren't static.
pub fn own_field_number(fields: &[FieldRecord], name: &Name, desc: &Name) -> Option<usize>
    ensures { result ≡ position (is_field name.now desc.now) (filter (λ f. not f.is_static) (map field_of_record fields.now)) }
{
    let mut k = 0;
    for field in fields {
        if !field.is_static {
            if is_called(field, name, desc) {
                return Some(k);
            }
            k += 1;
        }
    }
    None
}

/// The number of a field in objects of its class, by how many those of the superclass have and those of the class.
pub fn number_in(fields: &[FieldRecord], before: u32, total: u32, field: &FieldRecord) -> u32
    requires { total ≡ before + length (filter (λ f. not f.is_static) fields.now) }
    ensures { result ≡ before + option_map_or (λ k. k) (position (is_field field.now.name field.now.ty) (filter (λ f. not f.is_static) (map field_of_record fields.now))) 0 }
{
    match own_field_number(fields, &field.name, &field.ty) {
        None => before,
        Some(k) => before + k as u32,
    }
}
