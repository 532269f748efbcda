#![tactic(auto, using(crate::proofs::Rules::needs_rules))]

ghost use Rattle.std.specs.Prelude.{◌≡◌, ◌++◌, ◌<◌, ◌^◌, Some, map, length, slice_get, OnOk, if◌then◌else◌};
ghost use Rattle.std.specs.Option.{option_to_list, is_none};
ghost use Rattle.bcj_parser_trees.specs.Plain.{expr_of};
ghost use Rattle.bcj_decl_rules.specs.Members.{field_of};
ghost use Rattle.bcj_decl_constants.specs.Needs as spec;
ghost use Rattle.bcj_decl_constants.specs.Numbers.{offsets_from, meant};

use crate::numbers::number_of;
use crate::search::FieldSearch;
use bcj_names::Name;
use bcj_parser_trees::Expr;
use bcj_symbolic_trees::Sequence;
use std::alloc::AllocError;

pub type Numbers = Sequence<usize>;

fn push_name<L: FieldSearch>(
    search: &L,
    offsets: &[usize],
    class: &Name,
    name: &Name,
    numbers: &mut Numbers,
) -> Result<(), AllocError>
    requires offsets { offsets.now ≡ offsets_from 0 (L.world search.now) }
    requires small { length (spec.fields_in (L.world search.now)) < 2 ^ 64 }
    ensures { OnOk result
        (meant (L.world search.now) numbers.new ≡ meant (L.world search.now) numbers.old ++ map Some (option_to_list (field_of (L.world search.now) class.now name.now))) }
{
    match number_of(search, offsets, class, name) {
        None => Ok(()),
        Some(number) => numbers.push(number),
    }
}

fn push_qualified<L: FieldSearch>(
    search: &L,
    offsets: &[usize],
    from: &Name,
    target: &Expr,
    name: &Name,
    numbers: &mut Numbers,
) -> Result<(), AllocError>
    requires offsets { offsets.now ≡ offsets_from 0 (L.world search.now) }
    requires small { length (spec.fields_in (L.world search.now)) < 2 ^ 64 }
    ensures { OnOk result
        (meant (L.world search.now) numbers.new ≡ meant (L.world search.now) numbers.old ++ map Some (spec.qualified_needs (L.world search.now) from.now (expr_of target.now) name.now)) }
{
    match target {
        Expr::Name { at: _, name: class } => {
            if search.find(from, class).is_some() {
                Ok(())
            } else {
                push_name(search, offsets, class, name, numbers)
            }
        }
        Expr::Int { .. }
        | Expr::Bool { .. }
        | Expr::Paren { .. }
        | Expr::Dot { .. }
        | Expr::Unary { .. }
        | Expr::Cast { .. }
        | Expr::Binary { .. }
        | Expr::Cond { .. }
        | Expr::Null { .. }
        | Expr::This { .. }
        | Expr::SuperField { .. }
        | Expr::Call { .. }
        | Expr::DotCall { .. }
        | Expr::SuperCall { .. }
        | Expr::New { .. }
        | Expr::NewArray { .. }
        | Expr::Elem { .. }
        | Expr::Step { .. }
        | Expr::InstanceOf { .. }
        | Expr::Assign { .. } => Ok(()),
    }
}

/// Puts the numbers of the fields that an expression names behind the others.
pub fn push_needs<L: FieldSearch>(
    search: &L,
    offsets: &[usize],
    from: &Name,
    expr: &Expr,
    numbers: &mut Numbers,
) -> Result<(), AllocError>
    requires offsets { offsets.now ≡ offsets_from 0 (L.world search.now) }
    requires small { length (spec.fields_in (L.world search.now)) < 2 ^ 64 }
    ensures { OnOk result
        (meant (L.world search.now) numbers.new ≡ meant (L.world search.now) numbers.old ++ map Some (spec.needs (L.world search.now) from.now (expr_of expr.now))) }
{
    match expr {
        Expr::Name { at: _, name } => push_name(search, offsets, from, name, numbers),
        Expr::Paren { at: _, part } => push_needs(search, offsets, from, part.get(), numbers),
        Expr::Dot {
            at: _,
            target,
            name,
        } => { push_qualified(search, offsets, from, target.get(), name, numbers) }
        Expr::Unary { at: _, op: _, part } => {
            push_needs(search, offsets, from, part.get(), numbers)
        }
        Expr::Cast { at: _, ty: _, part } => {
            push_needs(search, offsets, from, part.get(), numbers)
        }
        Expr::Binary {
            at: _,
            op: _,
            left,
            right,
        } => {
            push_needs(search, offsets, from, left.get(), numbers)?;
            push_needs(search, offsets, from, right.get(), numbers)
        }
        Expr::Cond {
            at: _,
            test,
            first,
            second,
        } => {
            push_needs(search, offsets, from, test.get(), numbers)?;
            push_needs(search, offsets, from, first.get(), numbers)?;
            push_needs(search, offsets, from, second.get(), numbers)
        }
        Expr::Int { .. }
        | Expr::Bool { .. }
        | Expr::Null { .. }
        | Expr::This { .. }
        | Expr::SuperField { .. }
        | Expr::Call { .. }
        | Expr::DotCall { .. }
        | Expr::SuperCall { .. }
        | Expr::New { .. }
        | Expr::NewArray { .. }
        | Expr::Elem { .. }
        | Expr::Step { .. }
        | Expr::InstanceOf { .. }
        | Expr::Assign { .. } => Ok(()),
    }
}
