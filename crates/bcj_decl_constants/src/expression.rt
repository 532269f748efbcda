#![tactic(auto, using(bcj_parser_trees::proofs::PlainLemmas::tree_rules))]

ghost use Rattle.std.specs.Prelude.{◌≡◌, ◌++◌, None, Some, map, length, slice_get, OnOk};
ghost use Rattle.bcj_parser_trees.specs.Plain.{expr_of};
ghost use Rattle.bcj_decl_rules.specs.function.Constants as spec;
ghost use Rattle.bcj_decl_rules.specs.Constants as rule;
ghost use Rattle.bcj_decl_rules.specs.World as world;
ghost use Rattle.bcj_decl_rules.specs.Members.{field_of};
ghost use Rattle.bcj_decl_constants.specs.Needs.{fields_in, known_in, needs};
ghost use Rattle.bcj_decl_constants.specs.Numbers.{offsets_from, EachOnce};

use crate::numbers::{number_of, value_at};
use crate::search::FieldSearch;
use bcj_decl_rules::Value;
use bcj_decl_values::{binary_value, chosen_value, literal_value, unary_value};
use bcj_names::Name;
use bcj_parser_trees::{Base, Expr, TypeName, UnaryOp};

fn value_of_name<L: FieldSearch>(
    search: &L,
    offsets: &[usize],
    values: &[Option<Value>],
    class: &Name,
    name: &Name,
) -> Option<Value>
    requires offsets { offsets.now ≡ offsets_from 0 (L.world search.now) }
    requires once { EachOnce (fields_in (L.world search.now)) }
    requires length { length values.now ≡ length (fields_in (L.world search.now)) }
    ensures { result ≡ spec.value_of_field (known_in (fields_in (L.world search.now)) values.now) (field_of (L.world search.now) class.now name.now) }
{
    match number_of(search, offsets, class, name) {
        None => None,
        Some(number) => value_at(values, number),
    }
}

fn is_least_literal(expr: &Expr) -> bool
    ensures { result ≡ spec.is_least_literal (expr_of expr.now) }
{
    match expr {
        Expr::Int {
            at: _,
            value,
            decimal,
        } => *decimal && *value == 0x8000_0000,
        Expr::Bool { .. }
        | Expr::Paren { .. }
        | Expr::Dot { .. }
        | Expr::Unary { .. }
        | Expr::Cast { .. }
        | Expr::Binary { .. }
        | Expr::Cond { .. }
        | Expr::Name { .. }
        | Expr::Null { .. }
        | Expr::This { .. }
        | Expr::SuperField { .. }
        | Expr::Call { .. }
        | Expr::DotCall { .. }
        | Expr::SuperCall { .. }
        | Expr::New { .. }
        | Expr::NewArray { .. }
        | Expr::Elem { .. }
        | Expr::Step { .. }
        | Expr::InstanceOf { .. }
        | Expr::Assign { .. } => false,
    }
}

/// `-` right in front of the least int's digits (JLS 3.10.1).
fn spells_least(op: UnaryOp, part: &Expr) -> bool
    ensures { result ≡ spec.spells_least op (expr_of part.now) }
{
    match op {
        UnaryOp::Minus => is_least_literal(part),
        UnaryOp::Plus | UnaryOp::Not | UnaryOp::Flip => false,
    }
}

pub fn value_in<L: FieldSearch>(
    search: &L,
    offsets: &[usize],
    values: &[Option<Value>],
    from: &Name,
    expr: &Expr,
) -> Option<Value>
    requires offsets { offsets.now ≡ offsets_from 0 (L.world search.now) }
    requires once { EachOnce (fields_in (L.world search.now)) }
    requires length { length values.now ≡ length (fields_in (L.world search.now)) }
    ensures { result ≡ spec.value_in (L.world search.now) (known_in (fields_in (L.world search.now)) values.now) from.now (expr_of expr.now) }
{
    match expr {
        Expr::Int {
            at: _,
            value,
            decimal,
        } => match literal_value(*value, *decimal) {
            None => None,
            Some(number) => Some(Value::Int(number)),
        },
        Expr::Bool { at: _, value } => Some(Value::Bool(*value)),
        Expr::Name { at: _, name } => value_of_name(search, offsets, values, from, name),
        Expr::Paren { at: _, part } => value_in(search, offsets, values, from, part.get()),
        Expr::Dot {
            at: _,
            target,
            name,
        } => qualified_value(search, offsets, values, from, target.get(), name),
        Expr::Unary { at: _, op, part } => {
            if spells_least(*op, part.get()) {
                Some(Value::Int(i32::MIN))
            } else {
                match value_in(search, offsets, values, from, part.get()) {
                    None => None,
                    Some(value) => unary_value(*op, value),
                }
            }
        }
        Expr::Cast { at: _, ty, part } => match value_in(
            search,
            offsets,
            values,
            from,
            part.get(),
        ) {
            None => None,
            Some(value) => of_written(ty, value),
        },
        Expr::Binary {
            at: _,
            op,
            left,
            right,
        } => {
            let first = value_in(search, offsets, values, from, left.get())?;
            let second = value_in(search, offsets, values, from, right.get())?;
            binary_value(*op, first, second)
        }
        Expr::Cond {
            at: _,
            test,
            first,
            second,
        } => {
            let test = value_in(search, offsets, values, from, test.get())?;
            let first = value_in(search, offsets, values, from, first.get())?;
            let second = value_in(search, offsets, values, from, second.get())?;
            chosen_value(test, first, second)
        }
        Expr::Null { .. }
        | Expr::This { .. }
        | Expr::SuperField { .. }
        | Expr::Call { .. }
        | Expr::DotCall { .. }
        | Expr::SuperCall { .. }
        | Expr::New { .. }
        | Expr::NewArray { .. }
        | Expr::Elem { .. }
        | Expr::Step { .. }
        | Expr::InstanceOf { .. }
        | Expr::Assign { .. } => None,
    }
}

fn qualified_value<L: FieldSearch>(
    search: &L,
    offsets: &[usize],
    values: &[Option<Value>],
    from: &Name,
    target: &Expr,
    name: &Name,
) -> Option<Value>
    requires offsets { offsets.now ≡ offsets_from 0 (L.world search.now) }
    requires once { EachOnce (fields_in (L.world search.now)) }
    requires length { length values.now ≡ length (fields_in (L.world search.now)) }
    ensures { result ≡ spec.qualified_value (L.world search.now) (known_in (fields_in (L.world search.now)) values.now) from.now (expr_of target.now) name.now }
{
    match target {
        Expr::Name { at: _, name: class } => {
            if search.find(from, class).is_some() {
                None
            } else {
                value_of_name(search, offsets, values, class, name)
            }
        }
        Expr::Int { .. }
        | Expr::Bool { .. }
        | Expr::Paren { .. }
        | Expr::Dot { .. }
        | Expr::Unary { .. }
        | Expr::Cast { .. }
        | Expr::Binary { .. }
        | Expr::Cond { .. }
        | Expr::Null { .. }
        | Expr::This { .. }
        | Expr::SuperField { .. }
        | Expr::Call { .. }
        | Expr::DotCall { .. }
        | Expr::SuperCall { .. }
        | Expr::New { .. }
        | Expr::NewArray { .. }
        | Expr::Elem { .. }
        | Expr::Step { .. }
        | Expr::InstanceOf { .. }
        | Expr::Assign { .. } => None,
    }
}

/// The value, where it is one of a written type.
fn of_written(ty: &TypeName, value: Value) -> Option<Value>
    ensures { result ≡ rule.of_type (world.type_of ty.now) value }
{
    if ty.dims != 0 {
        return None;
    }
    match (&ty.base, value) {
        (Base::Int, Value::Int(_)) | (Base::Bool, Value::Bool(_)) => Some(value),
        (Base::Int | Base::Bool | Base::Void | Base::Named(_), _) => None,
    }
}
