//! Fields and their initialisers (JLS 8.3).
#![tactic(auto, using(crate::proofs::Rules::member_rules))]

ghost use Rattle.std.specs.Prelude.{◌≡◌, ◌∷◌, ◌++◌, [], Some, IfOk, IsSome};
ghost use Rattle.bcj_parser_trees.specs.Plain as source;
ghost use Rattle.bcj_symbolic_trees.specs.Trees as tree;
ghost use Rattle.bcj_symbolic_trees.specs.Types.{arg_of, field_ref_of, ty_of};
ghost use Rattle.bcj_symbolic_trees.specs.Plain.{expr_of};
ghost use Rattle.bcj_symbolic_trees.specs.Units as symbolic;
ghost use Rattle.bcj_decl_rules.specs.Members.{field_of};
ghost use Rattle.bcj_decl_table.specs.Views.{field_of_info};
ghost use Rattle.bcj_typing_rules.specs.declared.kind.Kind.TheVariants as kind;
ghost use Rattle.bcj_typing_rules.specs.Premises.{earliest_missing, need};
ghost use Rattle.bcj_typing_rules.specs.Casting.{uses};
ghost use Rattle.bcj_typing_rules.specs.Expressions as expressions;
ghost use Rattle.bcj_typing_rules.specs.Members as spec;
ghost use Rattle.bcj_typing_rules.specs.function.Expressions.{settled};
ghost use Rattle.bcj_typing_rules.specs.function.Members as function;
ghost use Rattle.bcj_typing_node.specs.Forms.{worth_of};
ghost use Rattle.bcj_typing_node.specs.Outcomes.{Tells};
ghost use Rattle.bcj_typing_node.specs.Typings.{pairs_of};
ghost use Rattle.bcj_typing_scope.specs.Surroundings.{IsWorth, answers_at, units_at, world_around};
ghost use Rattle.bcj_typing_scope.specs.Scopes.{answers_in, context_of};
ghost use Rattle.bcj_typing_member.specs.Parts.{initialised_in};
ghost use Rattle.bcj_typing_member.specs.Typed.{added_of, trees_of};

use crate::adding::one;
use crate::body::initialiser_scope;
use crate::typed::Added;
use bcj_decl_rules::Value;
use bcj_decl_table::FieldInfo;
use bcj_names::Name;
use bcj_parser_trees::Expr;
use bcj_symbolic_trees::{FieldRef, Sequence, SymExpr, SymField, SymStmt};
use bcj_typing_expression::expression;
use bcj_typing_node::{Miss, Typing, push_uses, unless, worth};
use bcj_typing_rules::Kind;
use bcj_typing_scope::{Scope, World};
use sqlite_items::{Boxed, Items};
use std::alloc::{AllocError, Global};

fn field_ref(alloc: Global, field: &FieldInfo) -> Result<FieldRef, AllocError>
    ensures { IfOk result (λ r. field_ref_of r ≡ expressions.field_ref field.now.class (field_of_info field.now)) }
{
    Ok(FieldRef {
        class: field.class.copy(alloc)?,
        name: field.name.copy(alloc)?,
        ty: field.ty.copy(alloc)?,
    })
}

/// The statement that gives a field of the class its value.
fn assigned(
    alloc: Global,
    field: &FieldInfo,
    value: Boxed<SymExpr>,
) -> Result<Items<SymStmt>, AllocError>
    ensures { IfOk result (λ ts. trees_of ts ≡ tree.evaluate (spec.set_own (field_of_info field.now) (expr_of value)) ∷ []) }
{
    let place = field_ref(alloc, field)?;
    if field.is_static {
        one(alloc, SymStmt::Expr(SymExpr::SetStatic(place, value)))
    } else {
        let this = Boxed::new(alloc, SymExpr::Local(0))?;
        one(alloc, SymStmt::Expr(SymExpr::SetField(this, place, value)))
    }
}

fn initialised(
    alloc: Global,
    at: u32,
    field: &FieldInfo,
    value: Typing,
    fits: bool,
) -> Result<Added, Miss>
    ensures { Tells added_of (settled at (earliest_missing (need kind.Assign fits ∷ []))
        (record {
          trees = tree.evaluate (spec.set_own (field_of_info field.now) (expr_of value.tree)) ∷ [];
          steps = pairs_of value.steps ++ uses (arg_of value.ty) (ty_of field.now.ty);
        })) result }
{
    match unless(Kind::Assign, fits) {
        Some(kind) => Err(Miss::Untyped { at, kind }),
        None => {
            let Typing {
                tree,
                ty,
                steps,
                value: _,
            } = value;
            let mut steps = steps;
            push_uses(alloc, &ty, &field.ty, &mut steps)?;
            let trees = assigned(alloc, field, tree)?;
            Ok(Added { trees, steps })
        }
    }
}

/// What an initialiser adds, in its scope.
fn in_scope(
    alloc: Global,
    scope: &Scope<'_>,
    at: u32,
    field: &FieldInfo,
    e: &Expr,
) -> Result<Added, Miss>
    ensures { Tells added_of (initialised_in (answers_in scope.now) (context_of scope.now) at (field_of_info field.now) (source.expr_of e.now)) result }
{
    let value = expression(alloc, scope, e)?;
    let fits = scope.fits(&value.ty, &field.ty);
    initialised(alloc, at, field, value, fits)
}

/// What the initialiser of a field of the type adds (JLS 8.3.2); the first byte is that of the field.
pub fn initialiser<'a>(
    alloc: Global,
    world: &'a World<'a>,
    at: u32,
    field: &FieldInfo,
    e: &Expr,
) -> Result<Added, Miss>
    requires { field.now.class ≡ world.now.decl.name }
    ensures { Tells added_of (function.type_initialiser (answers_at world.now) (units_at world.now) at (field_of_info field.now) (source.expr_of e.now)) result }
{
    let scope = initialiser_scope(alloc, world, field.is_static, Sequence::new(alloc));
    in_scope(alloc, &scope, at, field, e)
}

fn copy_field(alloc: Global, field: &FieldInfo) -> Result<FieldInfo, AllocError>
    ensures { IfOk result (λ f. f ≡ field.now) }
{
    Ok(FieldInfo {
        class: field.class.copy(alloc)?,
        name: field.name.copy(alloc)?,
        ty: field.ty.copy(alloc)?,
        is_static: field.is_static,
        is_final: field.is_final,
        is_private: field.is_private,
        constant: field.constant,
    })
}

/// The field of a name in the type.
pub fn own_field(alloc: Global, world: &World<'_>, name: &Name) -> Result<FieldInfo, AllocError>
    requires { IsSome (field_of (world_around world.now) world.now.decl.name name.now) }
    ensures field { IfOk result (λ f. field_of (world_around world.now) world.now.decl.name name.now ≡ Some (field_of_info f)) }
    ensures worth { IfOk result (λ f. IsWorth (answers_at world.now) f) }
{
    copy_field(alloc, world.field(&world.decl().name, name).unwrap())
}

/// The number that a static field has from the start, a boolean one as 0 or 1 (JLS 12.4.2).
fn start_number(field: &FieldInfo) -> Option<i32>
    ensures { result ≡ spec.start_value field.now.is_static (worth_of field.now) }
{
    if !field.is_static {
        return None;
    }
    match worth(field) {
        None => None,
        Some(Value::Int(number)) => Some(number),
        Some(Value::Bool(truth)) => Some(i32::from(truth)),
    }
}

/// The record of a field.
pub fn record_of(field: FieldInfo) -> SymField
    ensures { symbolic.field_of result ≡ spec.field_record (field_of_info field) (spec.start_value field.is_static (worth_of field)) }
{
    let constant = start_number(&field);
    let FieldInfo {
        class: _,
        name,
        ty,
        is_static,
        is_final,
        is_private,
        constant: _,
    } = field;
    SymField {
        name,
        ty,
        is_static,
        is_final,
        is_private,
        constant,
    }
}
