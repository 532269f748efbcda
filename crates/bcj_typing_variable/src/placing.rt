//! Fields that are assigned (JLS 15.26).

ghost use Rattle.std.specs.Prelude.{◌≡◌, ◌||◌, [], ◌∷◌, IfOk};
ghost use Rattle.bcj_symbolic_trees.specs.Plain.{place_of};
ghost use Rattle.bcj_decl_table.specs.Views.{field_of_info};
ghost use Rattle.bcj_typing_rules.specs.declared.kind.Kind.TheVariants as kind;
ghost use Rattle.bcj_typing_rules.specs.Premises.{need};
ghost use Rattle.bcj_typing_node.specs.Outcomes.{Places};
ghost use Rattle.bcj_typing_node.specs.Typings.{typing_of, placing_of};
ghost use Rattle.bcj_typing_variable.specs.Fields as fields;

use crate::field::{class_step, field_ref, this};
use bcj_decl_table::FieldInfo;
use bcj_symbolic_trees::{Name, Sequence, UpdatePlace};
use bcj_typing_node::{Miss, Placing, Typing, unless};
use bcj_typing_rules::Kind;
use std::alloc::{AllocError, Global};

/// A field of this object, or a static one.
#[tactic(auto, using(bcj_symbolic_trees::proofs::PlainLemmas::tree_rules))]
fn place_here(alloc: Global, class: &Name, field: &FieldInfo) -> Result<UpdatePlace, AllocError>
    ensures { IfOk result (λ p. place_of p ≡ fields.place_here class.now (field_of_info field.now)) }
{
    let reference = field_ref(alloc, class, field)?;
    if field.is_static {
        return Ok(UpdatePlace::Static(reference));
    }
    let target = this(alloc)?;
    Ok(UpdatePlace::Field(target, reference))
}

fn own_placing(
    alloc: Global,
    class: &Name,
    field: &FieldInfo,
    is_assignable: bool,
) -> Result<Placing, AllocError>
    ensures { IfOk result (λ p. placing_of p ≡ fields.own_placing class.now is_assignable (field_of_info field.now)) }
{
    let ty = field.ty.copy(alloc)?;
    let place = place_here(alloc, class, field)?;
    Ok(Placing {
        first: None,
        place,
        ty,
        steps: Sequence::new(alloc),
        is_assignable,
        is_open: true,
    })
}

/// A field that a simple name means in a class (JLS 6.5.6.1): one of an object needs `this`, which a static place hasn't.
pub fn own_place(
    alloc: Global,
    at: u32,
    class: &Name,
    has_this: bool,
    field: &FieldInfo,
    is_assignable: bool,
) -> Result<Placing, Miss>
    ensures { Places at (need kind.Static (field.now.is_static || has_this) ∷ []) (fields.own_placing class.now is_assignable (field_of_info field.now)) result }
{
    match unless(Kind::Static, field.is_static || has_this) {
        Some(kind) => Err(Miss::Untyped { at, kind }),
        None => Ok(own_placing(alloc, class, field, is_assignable)?),
    }
}

#[tactic(auto, using(bcj_symbolic_trees::proofs::PlainLemmas::tree_rules))]
fn static_placing(
    alloc: Global,
    class: &Name,
    field: &FieldInfo,
    is_assignable: bool,
    is_open: bool,
) -> Result<Placing, AllocError>
    ensures { IfOk result (λ p. placing_of p ≡ fields.type_field_placing class.now is_assignable is_open (field_of_info field.now)) }
{
    let ty = field.ty.copy(alloc)?;
    let reference = field_ref(alloc, class, field)?;
    Ok(Placing {
        first: None,
        place: UpdatePlace::Static(reference),
        ty,
        steps: Sequence::new(alloc),
        is_assignable,
        is_open,
    })
}

/// A field behind a type's name (JLS 6.5.6.2), which is static.
pub fn type_place(
    alloc: Global,
    at: u32,
    class: &Name,
    field: &FieldInfo,
    is_assignable: bool,
    is_open: bool,
) -> Result<Placing, Miss>
    ensures { Places at (need kind.Static field.now.is_static ∷ []) (fields.type_field_placing class.now is_assignable is_open (field_of_info field.now)) result }
{
    match unless(Kind::Static, field.is_static) {
        Some(kind) => Err(Miss::Untyped { at, kind }),
        None => Ok(static_placing(alloc, class, field, is_assignable, is_open)?),
    }
}

#[tactic(auto, using(bcj_symbolic_trees::proofs::PlainLemmas::tree_rules))]
fn behind_placing(
    alloc: Global,
    target: Typing,
    class: &Name,
    field: &FieldInfo,
    is_assignable: bool,
    is_open: bool,
) -> Result<Placing, AllocError>
    ensures { IfOk result (λ p. placing_of p ≡ fields.behind_field_placing (typing_of target) class.now is_assignable is_open (field_of_info field.now)) }
{
    let Typing { tree, steps, .. } = target;
    let ty = field.ty.copy(alloc)?;
    let reference = field_ref(alloc, class, field)?;
    if field.is_static {
        return Ok(Placing {
            first: Some(tree),
            place: UpdatePlace::Static(reference),
            ty,
            steps,
            is_assignable,
            is_open,
        });
    }
    Ok(Placing {
        first: None,
        place: UpdatePlace::Field(tree, reference),
        ty,
        steps,
        is_assignable,
        is_open,
    })
}

/// A field behind an expression (JLS 15.11.1), of the class that the expression has. It lacks nothing by itself.
pub fn behind_place(
    alloc: Global,
    at: u32,
    target: Typing,
    class: &Name,
    field: &FieldInfo,
    is_assignable: bool,
    is_open: bool,
) -> Result<Placing, Miss>
    ensures { Places at [] (fields.behind_field_placing (typing_of target) class.now is_assignable is_open (field_of_info field.now)) result }
{
    Ok(behind_placing(alloc, target, class, field, is_assignable, is_open)?)
}

fn super_placing(
    alloc: Global,
    own: &Name,
    class: &Name,
    field: &FieldInfo,
    is_assignable: bool,
    is_open: bool,
) -> Result<Placing, AllocError>
    ensures { IfOk result (λ p. placing_of p ≡ fields.super_field_placing own.now class.now is_assignable is_open (field_of_info field.now)) }
{
    let ty = field.ty.copy(alloc)?;
    let steps = class_step(alloc, own, class)?;
    let place = place_here(alloc, class, field)?;
    Ok(Placing {
        first: None,
        place,
        ty,
        steps,
        is_assignable,
        is_open,
    })
}

/// A field behind `super` (JLS 15.11.2) of the superclass `class`, in a body of the class `own`.
pub fn super_place(
    alloc: Global,
    at: u32,
    own: &Name,
    class: &Name,
    field: &FieldInfo,
    has_this: bool,
    is_assignable: bool,
    is_open: bool,
) -> Result<Placing, Miss>
    ensures { Places at (need kind.Static has_this ∷ []) (fields.super_field_placing own.now class.now is_assignable is_open (field_of_info field.now)) result }
{
    match unless(Kind::Static, has_this) {
        Some(kind) => Err(Miss::Untyped { at, kind }),
        None => Ok(super_placing(alloc, own, class, field, is_assignable, is_open)?),
    }
}
