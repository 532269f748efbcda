//! What a method is, and references to it.

ghost use Rattle.std.specs.Prelude.{◌≡◌, IfOk};
ghost use Rattle.bcj_symbolic_trees.specs.Types.{method_ref_of};
ghost use Rattle.bcj_decl_rules.specs.Faults as faults;
ghost use Rattle.bcj_decl_table.specs.Views.{method_of_info};
ghost use Rattle.bcj_typing_rules.specs.Expressions as rules;

use bcj_decl_table::MethodInfo;
use bcj_symbolic_trees::{MethodKind, MethodRef, Name, copy_types};
use std::alloc::{AllocError, Global};

/// A method without an object.
pub fn is_static(method: &MethodInfo) -> bool
    ensures { result ≡ faults.is_static (method_of_info method.now) }
{
    match method.kind {
        MethodKind::Static => true,
        MethodKind::Instance => false,
        MethodKind::Abstract => false,
        MethodKind::Constructor => false,
    }
}

/// A method without a body.
pub fn is_abstract(method: &MethodInfo) -> bool
    ensures { result ≡ faults.is_abstract (method_of_info method.now) }
{
    match method.kind {
        MethodKind::Abstract => true,
        MethodKind::Static => false,
        MethodKind::Instance => false,
        MethodKind::Constructor => false,
    }
}

/// The reference to a method behind a qualifying type (JLS 13.1).
pub fn method_ref(alloc: Global, class: &Name, method: &MethodInfo) -> Result<MethodRef, AllocError>
    ensures { IfOk result (λ m. method_ref_of m ≡ rules.method_ref class.now (method_of_info method.now)) }
{
    Ok(MethodRef {
        class: class.copy(alloc)?,
        name: method.name.copy(alloc)?,
        params: copy_types(alloc, method.params.as_slice())?,
        result: method.result.copy(alloc)?,
    })
}
