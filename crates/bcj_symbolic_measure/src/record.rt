//! The bytes of a class's record. Each call adds to a total.
#![tactic(auto, using(crate::proofs::Rules::size_rules), unfolding(crate::specs::Totals::plus, crate::specs::Totals::capped))]

ghost use Rattle.std.specs.Prelude.{◌≡◌, ◌+◌, map, length};
ghost use Rattle.bcj_symbolic_trees.specs.Types.{ty_of, types_of, field_ref_of, method_ref_of};
ghost use Rattle.bcj_symbolic_trees.specs.Descriptors.{descriptor, descriptors, method_descriptor};
ghost use Rattle.bcj_symbolic_trees.specs.Units.{field_of, method_of, pair_of, class_of};
ghost use Rattle.bcj_symbolic_measure.specs.Entries as entries;
ghost use Rattle.bcj_symbolic_measure.specs.Objects as spec;
ghost use Rattle.bcj_symbolic_measure.specs.function.Counts.{entry_of, target_of, counts_of};
ghost use Rattle.bcj_symbolic_measure.specs.Totals as totals;

use crate::entry::{Entry, Role, Target};
use crate::tally::Tally;
use crate::totals::plus;
use bcj_symbolic_trees::{
    ClassHead, FieldRef, MethodRef, Name, Pair, SymClass, SymField, SymMethod, Ty,
};

/// The bytes of a `u8`.
const U8_SIZE: u64 = 1;

/// The bytes of a `u32`.
const U32_SIZE: u64 = 4;

/// Of a method, but for its name and descriptor: the kind, the entry, the words and the frame.
const CODE_SIZE: u64 = 13;

/// Of method 0, the class initialiser `<clinit>` `()V`.
const INITIALISER_SIZE: u64 = 32;

/// The characters of a descriptor: a letter, those round a class's name, and those round parameters.
const LETTER: u64 = 1;

const CLASS_MARKS: u64 = 2;

const PARENTHESES: u64 = 2;

/// Four tables without entries.
const TABLES_SIZE: u64 = 16;

/// A string with its length before it.
fn name(total: u64, name: &Name) -> u64
    ensures { result ≡ totals.plus total (entries.string_size name.now) }
{
    plus(plus(total, U32_SIZE), name.as_str().len() as u64)
}

/// The characters of a type's descriptor.
fn described(total: u64, ty: &Ty) -> u64
    ensures { result ≡ totals.plus total (length (descriptor (ty_of ty.now))) }
{
    match ty {
        Ty::Int | Ty::Bool | Ty::Void => plus(total, LETTER),
        Ty::Class(name) => plus(plus(total, CLASS_MARKS), name.as_str().len() as u64),
        Ty::Array(component) => described(plus(total, LETTER), component.get()),
    }
}

fn all_described(total: u64, types: &[Ty]) -> u64
    ensures { result ≡ totals.plus total (length (descriptors (types_of types.now))) }
{
    let mut sum = total;
    for ty in types {
        sum = described(sum, ty);
    }
    sum
}

fn ty(total: u64, ty: &Ty) -> u64
    ensures { result ≡ totals.plus total (entries.string_size (descriptor (ty_of ty.now))) }
{
    described(plus(total, U32_SIZE), ty)
}

/// A method's descriptor as a string.
fn signature(total: u64, params: &[Ty], result_type: &Ty) -> u64
    ensures { result ≡ totals.plus total (entries.string_size (method_descriptor (types_of params.now) (ty_of result_type.now))) }
{
    let begun = plus(total, U32_SIZE + PARENTHESES);
    described(all_described(begun, params), result_type)
}

fn names(total: u64, all: &[Name]) -> u64
    ensures { result ≡ totals.plus total (spec.names_size all.now) }
{
    let mut sum = total;
    for one in all {
        sum = name(sum, one);
    }
    sum
}

fn superclass(total: u64, class: &Option<Name>) -> u64
    ensures { result ≡ totals.plus total (spec.superclass_size class.now) }
{
    match class {
        None => plus(total, U32_SIZE),
        Some(class) => name(total, class),
    }
}

fn head(total: u64, head: &ClassHead) -> u64
    ensures { result ≡ totals.plus total (spec.head_size head.now) }
{
    let named = plus(name(total, &head.name), U8_SIZE);
    let above = superclass(named, &head.superclass);
    names(plus(above, U32_SIZE), head.interfaces.as_slice())
}

fn field(total: u64, field: &SymField) -> u64
    ensures { result ≡ totals.plus total (spec.field_size (field_of field.now)) }
{
    plus(ty(name(total, &field.name), &field.ty), U8_SIZE + U32_SIZE)
}

fn fields(total: u64, all: &[SymField]) -> u64
    ensures { result ≡ totals.plus total (spec.list_size (spec.fields_size (map field_of all.now))) }
{
    let mut sum = plus(total, U32_SIZE);
    for one in all {
        sum = field(sum, one);
    }
    sum
}

fn method(total: u64, method: &SymMethod) -> u64
    ensures { result ≡ totals.plus total (spec.method_size (method_of method.now)) }
{
    let named = name(total, &method.name);
    plus(
        signature(named, method.params.as_slice(), &method.result),
        CODE_SIZE,
    )
}

/// The methods, of which the class initialiser is the first.
fn methods(total: u64, all: &[SymMethod]) -> u64
    ensures { result ≡ totals.plus total (spec.list_size (spec.all_methods_size (map method_of all.now))) }
{
    let mut sum = plus(total, U32_SIZE + INITIALISER_SIZE);
    for one in all {
        sum = method(sum, one);
    }
    sum
}

fn pairs(total: u64, all: &[Pair]) -> u64
    ensures { result ≡ totals.plus total (spec.list_size (spec.pairs_size (map pair_of all.now))) }
{
    let mut sum = plus(total, U32_SIZE);
    for pair in all {
        sum = ty(ty(sum, &pair.from), &pair.to);
    }
    sum
}

fn field_reference(total: u64, field: &FieldRef) -> u64
    ensures { result ≡ totals.plus total (entries.target_size (entries.field_target (field_ref_of field.now))) }
{
    ty(name(name(total, &field.class), &field.name), &field.ty)
}

fn method_reference(total: u64, method: &MethodRef) -> u64
    ensures { result ≡ totals.plus total (entries.target_size (entries.method_target (method_ref_of method.now))) }
{
    let named = name(name(total, &method.class), &method.name);
    signature(named, method.params.as_slice(), &method.result)
}

fn target<'a>(total: u64, target: Target<'a>) -> u64
    ensures { result ≡ totals.plus total (entries.target_size (target_of target.entry)) }
{
    match target {
        Target::Type(t) => ty(total, t),
        Target::Class(class) => name(plus(total, CLASS_MARKS), class),
        Target::Field(field) => field_reference(total, field),
        Target::Method(method) => method_reference(total, method),
    }
}

fn role(role: Role) -> u64
    ensures { result ≡ entries.role_size role }
{
    match role {
        Role::InterfaceMethod => 0,
        Role::Row
        | Role::New
        | Role::FieldOffset
        | Role::MethodOffset
        | Role::FieldAddress
        | Role::StaticMethod
        | Role::SpecialMethod => U8_SIZE,
    }
}

fn table_entry<'a>(total: u64, used: Entry<'a>) -> u64
    ensures { result ≡ totals.plus total (entries.entry_size (entry_of used.entry)) }
{
    target(plus(total, role(used.role)), used.target)
}

fn table_entries<'a>(total: u64, all: &[Entry<'a>]) -> u64
    ensures { result ≡ totals.plus total (entries.entries_size (map entry_of all.now)) }
{
    let mut sum = total;
    for one in all {
        sum = table_entry(sum, *one);
    }
    sum
}

/// The record of a class whose code is counted.
#[tactic(auto, using(crate::proofs::Rules::record_rules), unfolding(crate::specs::Objects::record_size))]
pub fn class_record<'a>(total: u64, class: &SymClass, tally: &Tally<'a>) -> u64
    ensures { result ≡ totals.plus total (spec.record_size (class_of class.now) (counts_of tally.now).ranges (counts_of tally.now).entries) }
{
    let begun = head(total, &class.head);
    let with_fields = fields(begun, class.fields.as_slice());
    let with_methods = methods(with_fields, class.methods.as_slice());
    let ranges_begun = plus(with_methods, U32_SIZE);
    let with_ranges = plus(ranges_begun, tally.ranges);
    let with_pairs = pairs(with_ranges, class.pairs.as_slice());
    let entries_begun = plus(with_pairs, TABLES_SIZE);
    let with_entries = table_entries(entries_begun, tally.entries.as_slice());
    plus(with_entries, U32_SIZE)
}
