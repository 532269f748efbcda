//! What a field that is named becomes.

ghost use Rattle.std.specs.Prelude.{◌≡◌, None, IfOk};
ghost use Rattle.bcj_symbolic_trees.specs.Trees as tree;
ghost use Rattle.bcj_symbolic_trees.specs.Types.{field_ref_of};
ghost use Rattle.bcj_symbolic_trees.specs.Plain.{expr_of};
ghost use Rattle.bcj_decl_table.specs.Views.{field_of_info};
ghost use Rattle.bcj_typing_rules.specs.Expressions as spec;
ghost use Rattle.bcj_typing_node.specs.Forms.{worth_of};
ghost use Rattle.bcj_typing_node.specs.Typings.{pairs_of};
ghost use Rattle.bcj_typing_variable.specs.Fields as fields;

use crate::tree::{literal, then};
use bcj_decl_table::FieldInfo;
use bcj_symbolic_trees::{FieldRef, Name, Pair, Pairs, Sequence, SymExpr, Ty};
use bcj_typing_node::worth;
use sqlite_items::Boxed;
use std::alloc::{AllocError, Global};

/// The symbolic reference of a field behind its qualifying type (JLS 13.1).
pub fn field_ref(alloc: Global, class: &Name, field: &FieldInfo) -> Result<FieldRef, AllocError>
    ensures { IfOk result (λ r. field_ref_of r ≡ spec.field_ref class.now (field_of_info field.now)) }
{
    Ok(FieldRef {
        class: class.copy(alloc)?,
        name: field.name.copy(alloc)?,
        ty: field.ty.copy(alloc)?,
    })
}

/// The step from the class of a body to the one that a reference names.
#[tactic(auto, using(bcj_symbolic_trees::proofs::PlainLemmas::tree_rules))]
pub fn class_step(alloc: Global, own: &Name, class: &Name) -> Result<Pairs, AllocError>
    ensures { IfOk result (λ steps. pairs_of steps ≡ fields.class_step own.now class.now) }
{
    let from = Ty::Class(own.copy(alloc)?);
    let to = Ty::Class(class.copy(alloc)?);
    let mut steps = Sequence::new(alloc);
    steps.push(Pair { from, to })?;
    Ok(steps)
}

/// A field behind its target's tree, of an object.
#[tactic(auto, using(bcj_symbolic_trees::proofs::PlainLemmas::tree_rules))]
fn read_of(
    alloc: Global,
    target: Boxed<SymExpr>,
    reference: FieldRef,
) -> Result<Boxed<SymExpr>, AllocError>
    ensures { IfOk result (λ e. expr_of e ≡ tree.get_field (expr_of target) (field_ref_of reference)) }
{
    Boxed::new(alloc, SymExpr::GetField(target, reference))
}

/// A static field.
#[tactic(auto, using(bcj_symbolic_trees::proofs::PlainLemmas::tree_rules))]
pub fn read_static(alloc: Global, reference: FieldRef) -> Result<Boxed<SymExpr>, AllocError>
    ensures { IfOk result (λ e. expr_of e ≡ tree.get_static (field_ref_of reference)) }
{
    Boxed::new(alloc, SymExpr::GetStatic(reference))
}

/// This object.
#[tactic(auto, using(bcj_symbolic_trees::proofs::PlainLemmas::tree_rules))]
pub fn this(alloc: Global) -> Result<Boxed<SymExpr>, AllocError>
    ensures { IfOk result (λ e. expr_of e ≡ spec.this_tree) }
{
    Boxed::new(alloc, SymExpr::Local(0))
}

/// A field of this object, or a static one.
pub fn read_here(
    alloc: Global,
    class: &Name,
    field: &FieldInfo,
) -> Result<Boxed<SymExpr>, AllocError>
    ensures { IfOk result (λ e. expr_of e ≡ fields.read_here class.now (field_of_info field.now)) }
{
    let reference = field_ref(alloc, class, field)?;
    if field.is_static {
        return read_static(alloc, reference);
    }
    read_of(alloc, this(alloc)?, reference)
}

/// A field that is no constant behind an expression.
fn read_behind(
    alloc: Global,
    target: Boxed<SymExpr>,
    class: &Name,
    field: &FieldInfo,
) -> Result<Boxed<SymExpr>, AllocError>
    ensures { IfOk result (λ e. expr_of e ≡ spec.behind_field_tree (expr_of target) class.now (field_of_info field.now) None) }
{
    let reference = field_ref(alloc, class, field)?;
    if field.is_static {
        let second = read_static(alloc, reference)?;
        return then(alloc, target, false, second);
    }
    read_of(alloc, target, reference)
}

/// A field behind an expression (JLS 15.11.1), which is evaluated before a static field or a constant, and tested for null before a
/// constant of an object.
pub fn behind_tree(
    alloc: Global,
    target: Boxed<SymExpr>,
    class: &Name,
    field: &FieldInfo,
) -> Result<Boxed<SymExpr>, AllocError>
    ensures { IfOk result (λ e. expr_of e ≡ spec.behind_field_tree (expr_of target) class.now (field_of_info field.now) (worth_of field.now)) }
{
    match worth(field) {
        None => read_behind(alloc, target, class, field),
        Some(value) => {
            let second = literal(alloc, value)?;
            then(alloc, target, !field.is_static, second)
        }
    }
}
