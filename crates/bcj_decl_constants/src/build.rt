ghost use Rattle.std.specs.Prelude.{◌≡◌, ◌++◌, ◌<◌, ◌^◌, [], ◌∷◌, Some, IfOk, OnOk, length, map};
ghost use Rattle.bcj_parser_trees.specs.Plain.{expr_of};
ghost use Rattle.bcj_parser_trees.specs.Trees.{present};
ghost use Rattle.bcj_decl_table.specs.Views.{declared_of, field_of_info, world_in};
ghost use Rattle.bcj_decl_constants.specs.Needs.{fields_in};
ghost use Rattle.bcj_decl_constants.specs.Numbers.{offsets_from, meant, needs_with, needs_of};
ghost use Rattle.bcj_decl_constants.specs.Books.{initial_of};

use crate::needs::{Numbers, push_needs};
use crate::search::FieldSearch;
use bcj_decl_table::{FieldInfo, TypeInfo};
use bcj_parser_trees::Expr;
use bcj_symbolic_trees::Sequence;
use std::alloc::{AllocError, Global};

/// The fields of types in their order, and the number of the first field of each type.
#[derive(Drop)]
pub struct Fields<'a> {
    pub offsets: Vec<usize>,
    pub fields: Vec<&'a FieldInfo>,
}

fn push_fields<'a>(info: &'a TypeInfo, fields: &mut Vec<&'a FieldInfo>) -> Result<(), AllocError>
    ensures { OnOk result (map (λ r. field_of_info r.now) fields.new.items ≡ map (λ r. field_of_info r.now) fields.old.items ++ (declared_of info.now).fields) }
{
    for field in info.fields.as_slice() {
        fields.push(field)?;
    }
    Ok(())
}

/// Numbers the fields of types.
pub fn number_fields<'a>(alloc: Global, types: &'a [TypeInfo]) -> Result<Fields<'a>, AllocError>
    ensures offsets { IfOk result (λ f. f.offsets.items ≡ offsets_from 0 (world_in types.now)) }
    ensures fields { IfOk result (λ f. map (λ r. field_of_info r.now) f.fields.items ≡ fields_in (world_in types.now)) }
{
    let mut offsets = Vec::new(alloc);
    let mut fields = Vec::new(alloc);
    for info in types {
        offsets.push(fields.len())?;
        push_fields(info, &mut fields)?;
    }
    Ok(Fields { offsets, fields })
}

fn needs_with_initialiser<L: FieldSearch>(
    alloc: Global,
    search: &L,
    offsets: &[usize],
    field: &FieldInfo,
    init: &Expr,
) -> Result<Numbers, AllocError>
    requires offsets { offsets.now ≡ offsets_from 0 (L.world search.now) }
    requires small { length (fields_in (L.world search.now)) < 2 ^ 64 }
    ensures { IfOk result (λ numbers. meant (L.world search.now) numbers ≡ map Some (needs_with (L.world search.now) (field_of_info field.now) (present (expr_of init.now)))) }
{
    let mut numbers = Sequence::new(alloc);
    if field.is_final {
        push_needs(search, offsets, &field.class, init, &mut numbers)?;
    }
    Ok(numbers)
}

/// The numbers of the fields that the field of a number needs.
pub fn needs_of_number<L: FieldSearch>(
    alloc: Global,
    search: &L,
    fields: &Fields,
    initialisers: &[Option<&Expr>],
    number: usize,
) -> Result<Numbers, AllocError>
    requires offsets { fields.now.offsets.items ≡ offsets_from 0 (L.world search.now) }
    requires fields { map (λ r. field_of_info r.now) fields.now.fields.items ≡ fields_in (L.world search.now) }
    requires small { length (fields_in (L.world search.now)) < 2 ^ 64 }
    ensures { IfOk result (λ numbers. meant (L.world search.now) numbers ≡ map Some (needs_of (L.world search.now) (map initial_of initialisers.now) number)) }
{
    let field: &FieldInfo = match fields.fields.get(number) {
        None => return Ok(Sequence::new(alloc)),
        Some(field) => *field,
    };
    match initialisers.get(number) {
        None | Some(None) => Ok(Sequence::new(alloc)),
        Some(Some(init)) => {
            needs_with_initialiser(alloc, search, fields.offsets.as_slice(), field, *init)
        }
    }
}
