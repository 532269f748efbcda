//! Fields that are read.

ghost use Rattle.std.specs.Prelude.{◌≡◌, ◌||◌, [], ◌∷◌, None, IfOk};
ghost use Rattle.bcj_symbolic_trees.specs.Types.{ty_of, given};
ghost use Rattle.bcj_symbolic_trees.specs.Plain.{expr_of};
ghost use Rattle.bcj_decl_table.specs.Views.{field_of_info};
ghost use Rattle.bcj_typing_rules.specs.declared.kind.Kind.TheVariants as kind;
ghost use Rattle.bcj_typing_rules.specs.Premises.{need};
ghost use Rattle.bcj_typing_rules.specs.Expressions as spec;
ghost use Rattle.bcj_typing_node.specs.Forms.{worth_of};
ghost use Rattle.bcj_typing_node.specs.Outcomes.{Judges};
ghost use Rattle.bcj_typing_node.specs.Typings.{typing_of};
ghost use Rattle.bcj_typing_variable.specs.Fields as fields;

use crate::field::{behind_tree, class_step, field_ref, read_here, read_static};
use crate::tree::literal;
use bcj_decl_table::FieldInfo;
use bcj_symbolic_trees::{Arg, Name, Sequence, SymExpr};
use bcj_typing_node::{Miss, Typing, earlier, typed, unless, worth};
use bcj_typing_rules::Kind;
use sqlite_items::Boxed;
use std::alloc::{AllocError, Global};

/// A field that is read by this tree, or is its value.
fn read_typing(alloc: Global, tree: Boxed<SymExpr>, field: &FieldInfo) -> Result<Typing, AllocError>
    ensures typing { IfOk result (λ t. typing_of t ≡ spec.valued (worth_of field.now) (spec.typing (expr_of tree) (given (ty_of field.now.ty)) [])) }
    ensures worth { IfOk result (λ t. t.value ≡ worth_of field.now) }
{
    let ty = Arg::Given(field.ty.copy(alloc)?);
    typed(alloc, tree, ty, Sequence::new(alloc), worth(field))
}

fn own_typing(alloc: Global, class: &Name, field: &FieldInfo) -> Result<Typing, AllocError>
    ensures typing { IfOk result (λ t. typing_of t ≡ spec.valued (worth_of field.now) (spec.typing (fields.read_here class.now (field_of_info field.now)) (given (ty_of field.now.ty)) [])) }
    ensures worth { IfOk result (λ t. t.value ≡ worth_of field.now) }
{
    let tree = read_here(alloc, class, field)?;
    read_typing(alloc, tree, field)
}

/// A field that a simple name means in a class (JLS 6.5.6.1): one of an object needs `this`, which a static place hasn't.
pub fn own_field(
    alloc: Global,
    at: u32,
    class: &Name,
    has_this: bool,
    field: &FieldInfo,
) -> Result<Typing, Miss>
    ensures { Judges at (need kind.Static (field.now.is_static || has_this) ∷ []) (worth_of field.now) (spec.typing (fields.read_here class.now (field_of_info field.now)) (given (ty_of field.now.ty)) []) result }
{
    match unless(Kind::Static, field.is_static || has_this) {
        Some(kind) => Err(Miss::Untyped { at, kind }),
        None => Ok(own_typing(alloc, class, field)?),
    }
}

fn static_typing(alloc: Global, class: &Name, field: &FieldInfo) -> Result<Typing, AllocError>
    ensures typing { IfOk result (λ t. typing_of t ≡ spec.valued (worth_of field.now) (spec.type_field_typing class.now (field_of_info field.now))) }
    ensures worth { IfOk result (λ t. t.value ≡ worth_of field.now) }
{
    let reference = field_ref(alloc, class, field)?;
    let tree = read_static(alloc, reference)?;
    read_typing(alloc, tree, field)
}

/// A field behind a type's name (JLS 6.5.6.2), which is static, and open to the class of the body.
pub fn type_field(
    alloc: Global,
    at: u32,
    class: &Name,
    field: &FieldInfo,
    is_open: bool,
) -> Result<Typing, Miss>
    ensures { Judges at (need kind.Static field.now.is_static ∷ need kind.Access is_open ∷ []) (worth_of field.now) (spec.type_field_typing class.now (field_of_info field.now)) result }
{
    let missing = earlier(Kind::Static, field.is_static, unless(Kind::Access, is_open));
    match missing {
        Some(kind) => Err(Miss::Untyped { at, kind }),
        None => Ok(static_typing(alloc, class, field)?),
    }
}

fn behind_typing(
    alloc: Global,
    target: Typing,
    class: &Name,
    field: &FieldInfo,
) -> Result<Typing, AllocError>
    ensures typing { IfOk result (λ t. typing_of t ≡ spec.behind_field_typing (typing_of target) class.now (worth_of field.now) (field_of_info field.now)) }
    ensures worth { IfOk result (λ t. t.value ≡ None) }
{
    let Typing { tree, steps, .. } = target;
    let tree = behind_tree(alloc, tree, class, field)?;
    let ty = Arg::Given(field.ty.copy(alloc)?);
    Ok(Typing {
        tree,
        ty,
        steps,
        value: None,
    })
}

/// A field behind an expression (JLS 15.11.1), of the class that the expression has, and open to the class of the body.
pub fn behind_field(
    alloc: Global,
    at: u32,
    target: Typing,
    class: &Name,
    field: &FieldInfo,
    is_open: bool,
) -> Result<Typing, Miss>
    ensures { Judges at (need kind.Access is_open ∷ []) None (spec.behind_field_typing (typing_of target) class.now (worth_of field.now) (field_of_info field.now)) result }
{
    match unless(Kind::Access, is_open) {
        Some(kind) => Err(Miss::Untyped { at, kind }),
        None => Ok(behind_typing(alloc, target, class, field)?),
    }
}

fn super_typing(
    alloc: Global,
    own: &Name,
    class: &Name,
    field: &FieldInfo,
) -> Result<Typing, AllocError>
    ensures typing { IfOk result (λ t. typing_of t ≡ fields.super_field_typing own.now class.now (worth_of field.now) (field_of_info field.now)) }
    ensures worth { IfOk result (λ t. t.value ≡ None) }
{
    let ty = Arg::Given(field.ty.copy(alloc)?);
    match worth(field) {
        None => Ok(Typing {
            tree: read_here(alloc, class, field)?,
            ty,
            steps: class_step(alloc, own, class)?,
            value: None,
        }),
        Some(value) => Ok(Typing {
            tree: literal(alloc, value)?,
            ty,
            steps: Sequence::new(alloc),
            value: None,
        }),
    }
}

/// A field behind `super` (JLS 15.11.2) of the superclass `class`, in a body of the class `own`. It uses the step between both, but
/// for a constant.
pub fn super_field(
    alloc: Global,
    at: u32,
    own: &Name,
    class: &Name,
    field: &FieldInfo,
    has_this: bool,
    is_open: bool,
) -> Result<Typing, Miss>
    ensures { Judges at (need kind.Static has_this ∷ need kind.Access is_open ∷ []) None (fields.super_field_typing own.now class.now (worth_of field.now) (field_of_info field.now)) result }
{
    let missing = earlier(Kind::Static, has_this, unless(Kind::Access, is_open));
    match missing {
        Some(kind) => Err(Miss::Untyped { at, kind }),
        None => Ok(super_typing(alloc, own, class, field)?),
    }
}
