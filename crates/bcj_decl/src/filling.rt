#![tactic(auto, using(crate::proofs::Views::filling_rules))]

ghost use Rattle.std.specs.Prelude.{◌≡◌, ◌≤◌, ◌++◌, map, length, take, drop, option_map};
ghost use Rattle.bcj_decl_table.specs.Views.{declared_of, field_of_info};
ghost use Rattle.bcj_decl.specs.Filled.{constants_in, infos_in, numbers_of};
ghost use Rattle.bcj_decl.specs.Worlds as spec;

use bcj_decl_rules::Value;
use bcj_decl_table::{FieldInfo, FieldInfos, TypeInfo, TypeInfos};
use bcj_symbolic_trees::Sequence;
use std::alloc::Global;
use std::mem;

/// The number of a constant, a boolean one being 0 or 1.
fn number_of(value: Value) -> i32
    ensures { result ≡ spec.number_of value }
{
    match value {
        Value::Int(number) => number,
        Value::Bool(truth) => { if truth { 1 } else { 0 } }
    }
}

fn number(value: Option<Value>) -> Option<i32>
    ensures { result ≡ option_map spec.number_of value }
{
    match value {
        None => None,
        Some(value) => Some(number_of(value)),
    }
}

fn set_constant(field: &mut FieldInfo, value: Option<Value>)
    ensures same { field_of_info field.new ≡ field_of_info field.old }
    ensures set { field.new.constant ≡ option_map spec.number_of value }
{
    field.constant = number(value);
}

fn set_constants(fields: &mut [FieldInfo], values: &[Option<Value>])
    requires { length fields.old ≡ length values.now }
    ensures same { map field_of_info fields.new ≡ map field_of_info fields.old }
    ensures set { map (λ f. f.constant) fields.new ≡ numbers_of values.now }
{
    for at in 0..fields.len() {
        set_constant(&mut fields[at], values[at]);
    }
}

fn with_constants(fields: FieldInfos, values: &[Option<Value>]) -> FieldInfos
    requires { length fields ≡ length values.now }
    ensures same { map field_of_info result ≡ map field_of_info fields }
    ensures set { map (λ f. f.constant) result ≡ numbers_of values.now }
{
    let mut items = fields.into_vec();
    set_constants(items.as_mut_slice(), values);
    Sequence::of(items)
}

fn fill_type(alloc: Global, info: &mut TypeInfo, values: &[Option<Value>])
    requires { length info.old.fields ≡ length values.now }
    ensures same { declared_of info.new ≡ declared_of info.old }
    ensures set { map (λ f. f.constant) info.new.fields ≡ numbers_of values.now }
{
    let fields = mem::replace(&mut info.fields, Sequence::new(alloc));
    info.fields = with_constants(fields, values);
}

fn fill_types(alloc: Global, types: &mut [TypeInfo], values: &[Option<Value>])
    requires { length (infos_in types.old) ≡ length values.now }
    ensures same { map declared_of types.new ≡ map declared_of types.old }
    ensures set { constants_in types.new ≡ numbers_of values.now }
{
    let mut rest = values;
    for at in 0..types.len() {
        let count = types[at].fields.len();
        let (front, others) = rest.split_at(count);
        fill_type(alloc, &mut types[at], front);
        rest = others;
    }
}

/// Types whose fields hold these constants, by the numbers of the fields in the types' order.
pub fn filled(alloc: Global, types: TypeInfos, values: &[Option<Value>]) -> TypeInfos
    requires { length (infos_in types) ≡ length values.now }
    ensures same { map declared_of result ≡ map declared_of types }
    ensures set { constants_in result ≡ numbers_of values.now }
{
    let mut items = types.into_vec();
    fill_types(alloc, items.as_mut_slice(), values);
    Sequence::of(items)
}
