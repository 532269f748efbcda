ghost use Rattle.std.specs.Prelude.{◌≡◌, not, ◌&&◌, ◌||◌, IfOk};
ghost use Rattle.bcj_symbolic_trees.specs.Types.{ty_of, types_of};
ghost use Rattle.bcj_decl_rules.specs.World as spec;
ghost use Rattle.bcj_decl_rules.specs.Members.{same_signature, is_constructor};
ghost use Rattle.bcj_decl_rules.specs.Faults as fault;
ghost use Rattle.bcj_decl_table.specs.Views.{method_of_info};
ghost use Rattle.bcj_decl_member_faults.specs.Decisions.{is_at_odds, is_static_kind};
ghost use Rattle.bcj_decl_member_faults.specs.Inherited.{is_clash};

use crate::modifier::is_private;
use bcj_decl_table::{MethodInfo, param_types, type_of};
use bcj_names::Name;
use bcj_parser_trees::{Mods, Param, TypeName};
use bcj_symbolic_trees::{CONSTRUCTOR, MethodKind, same_types};
use std::alloc::{AllocError, Global};

fn kind_in(interface: bool, mods: Mods) -> MethodKind
    ensures { result ≡ spec.kind_in interface mods }
{
    if interface || mods.is_abstract {
        MethodKind::Abstract
    } else if mods.is_static {
        MethodKind::Static
    } else {
        MethodKind::Instance
    }
}

/// The method that a member declares (JLS 8.4, 9.4).
pub fn method_info(
    alloc: Global,
    interface: bool,
    class: &Name,
    mods: Mods,
    outcome: &TypeName,
    name: &Name,
    params: &[Param],
) -> Result<MethodInfo, AllocError>
    ensures { IfOk result (λ m. method_of_info m ≡ spec.method_with interface class.now mods outcome.now name.now params.now) }
{
    Ok(MethodInfo {
        class: class.copy(alloc)?,
        name: name.copy(alloc)?,
        params: param_types(alloc, params)?,
        result: type_of(alloc, outcome)?,
        kind: kind_in(interface, mods),
        is_private: is_private(mods),
    })
}

fn is_static(kind: MethodKind) -> bool
    ensures { result ≡ is_static_kind kind }
{
    match kind {
        MethodKind::Static => true,
        MethodKind::Instance | MethodKind::Abstract | MethodKind::Constructor => false,
    }
}

/// Whether both have one name and the same parameters (JLS 8.4.2). It takes no memory.
pub fn has_same_signature(method: &MethodInfo, other: &MethodInfo) -> bool
    ensures { result ≡ same_signature (method_of_info method.now) (method_of_info other.now) }
{
    method.name.same(&other.name) && same_types(method.params.as_slice(), other.params.as_slice())
}

fn are_at_odds(same_result: bool, first: bool, second: bool, is_private: bool) -> bool
    ensures { result ≡ (not same_result || (not (fault.same_truth first second) || is_private)) }
{
    !same_result || (first != second || is_private)
}

/// Whether a method can't stand beside one of its name and parameters that passes to its type (JLS 8.4.8, 9.4.1).
fn is_at_odds(method: &MethodInfo, other: &MethodInfo) -> bool
    ensures { result ≡ is_at_odds (method_of_info method.now) (method_of_info other.now) }
{
    let same_result = method.result.same(&other.result);
    let first = is_static(method.kind);
    let second = is_static(other.kind);
    are_at_odds(same_result, first, second, method.is_private)
}

/// Whether a method passes to the types below (JLS 8.4.8).
fn passes_on(method: &MethodInfo) -> bool
    ensures { result ≡ (not method.now.is_private && not (is_constructor (method_of_info method.now))) }
{
    !method.is_private && method.name.as_str() != CONSTRUCTOR
}

/// Whether the other method has the name and the parameters of a method, passes on and is at odds with it.
pub fn is_clash(method: &MethodInfo, other: &MethodInfo) -> bool
    ensures { result ≡ is_clash (method_of_info method.now) (method_of_info other.now) }
{
    if !has_same_signature(method, other) {
        return false;
    }
    if !passes_on(other) {
        return false;
    }
    is_at_odds(method, other)
}
