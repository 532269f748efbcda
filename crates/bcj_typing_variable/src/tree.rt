//! Trees of variables that are written.

ghost use Rattle.std.specs.Prelude.{◌≡◌, pos, IfOk};
ghost use Rattle.std.specs.Option.{option_map};
ghost use Rattle.bcj_symbolic_trees.specs.Trees as tree;
ghost use Rattle.bcj_symbolic_trees.specs.Plain.{expr_of, place_of};
ghost use Rattle.bcj_typing_rules.specs.Expressions as spec;

use bcj_decl_rules::Value;
use bcj_symbolic_trees::{BinaryOp, SymExpr, UpdatePlace};
use sqlite_items::Boxed;
use std::alloc::{AllocError, Global};

/// The literal of a constant.
#[tactic(auto, using(bcj_symbolic_trees::proofs::PlainLemmas::tree_rules))]
pub fn literal(alloc: Global, value: Value) -> Result<Boxed<SymExpr>, AllocError>
    ensures { IfOk result (λ e. expr_of e ≡ spec.value_tree value) }
{
    match value {
        Value::Int(number) => Boxed::new(alloc, SymExpr::Int(number)),
        Value::Bool(truth) => Boxed::new(alloc, SymExpr::Bool(truth)),
    }
}

/// A tree behind another that is evaluated first, and may be tested for null.
#[tactic(auto, using(bcj_symbolic_trees::proofs::PlainLemmas::tree_rules))]
pub fn then(
    alloc: Global,
    first: Boxed<SymExpr>,
    null_test: bool,
    second: Boxed<SymExpr>,
) -> Result<Boxed<SymExpr>, AllocError>
    ensures { IfOk result (λ e. expr_of e ≡ tree.first_then (expr_of first) null_test (expr_of second)) }
{
    Boxed::new(
        alloc,
        SymExpr::Then {
            first,
            null_test,
            second,
        },
    )
}

/// A tree behind what a static field stands behind, where it does.
pub fn behind(
    alloc: Global,
    first: Option<Boxed<SymExpr>>,
    second: Boxed<SymExpr>,
) -> Result<Boxed<SymExpr>, AllocError>
    ensures { IfOk result (λ e. expr_of e ≡ spec.behind (option_map expr_of first) (expr_of second)) }
{
    match first {
        None => Ok(second),
        Some(first) => then(alloc, first, false, second),
    }
}

/// A value put into a variable.
#[tactic(auto, using(bcj_symbolic_trees::proofs::PlainLemmas::tree_rules))]
pub fn set(
    alloc: Global,
    place: UpdatePlace,
    value: Boxed<SymExpr>,
) -> Result<Boxed<SymExpr>, AllocError>
    ensures { IfOk result (λ e. expr_of e ≡ spec.set_place (place_of place) (expr_of value)) }
{
    match place {
        UpdatePlace::Local(number) => Boxed::new(alloc, SymExpr::SetLocal(number, value)),
        UpdatePlace::Static(field) => Boxed::new(alloc, SymExpr::SetStatic(field, value)),
        UpdatePlace::Field(target, field) => {
            Boxed::new(alloc, SymExpr::SetField(target, field, value))
        }
        UpdatePlace::Elem(array, index) => {
            Boxed::new(alloc, SymExpr::SetElem(array, index, value))
        }
    }
}

/// A variable read, and written with what an operator gives.
#[tactic(auto, using(bcj_symbolic_trees::proofs::PlainLemmas::tree_rules))]
pub fn update(
    alloc: Global,
    place: UpdatePlace,
    op: BinaryOp,
    value: Boxed<SymExpr>,
    post: bool,
) -> Result<Boxed<SymExpr>, AllocError>
    ensures { IfOk result (λ e. expr_of e ≡ tree.update_place (place_of place) op (expr_of value) post) }
{
    Boxed::new(
        alloc,
        SymExpr::Update {
            place,
            op,
            value,
            post,
        },
    )
}

/// The same by one.
#[tactic(auto, using(bcj_symbolic_trees::proofs::PlainLemmas::tree_rules))]
pub fn update_by_one(
    alloc: Global,
    place: UpdatePlace,
    op: BinaryOp,
    post: bool,
) -> Result<Boxed<SymExpr>, AllocError>
    ensures { IfOk result (λ e. expr_of e ≡ tree.update_place (place_of place) op (tree.int_value (pos 1)) post) }
{
    let one = Boxed::new(alloc, SymExpr::Int(1))?;
    update(alloc, place, op, one, post)
}
