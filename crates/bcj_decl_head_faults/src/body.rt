ghost use Rattle.std.specs.Prelude.{◌≡◌, map};
ghost use Rattle.std.specs.List.{list_any, find};
ghost use Rattle.std.specs.Option.{option_copied, option_map, option_and_then};
ghost use Rattle.bcj_decl_rules.specs.World as spec;
ghost use Rattle.bcj_decl_rules.specs.Members as members;
ghost use Rattle.bcj_decl_rules.specs.Faults as faults;
ghost use Rattle.bcj_decl_table.specs.Views.{method_of_info, declared_of, world_in};

use bcj_decl_listing::Listing;
use bcj_decl_table::{MethodInfo, TypeInfo};
use bcj_symbolic_trees::{CONSTRUCTOR, MethodKind, same_types};

fn same_signature(method: &MethodInfo, other: &MethodInfo) -> bool
    ensures { result ≡ members.same_signature (method_of_info method.now) (method_of_info other.now) }
{
    method.name.same(&other.name) && same_types(method.params.as_slice(), other.params.as_slice())
}

/// Whether the method is abstract.
pub fn is_abstract(method: &MethodInfo) -> bool
    ensures { result ≡ faults.is_abstract (method_of_info method.now) }
{
    match method.kind {
        MethodKind::Abstract => true,
        MethodKind::Static | MethodKind::Instance | MethodKind::Constructor => false,
    }
}

fn is_static(method: &MethodInfo) -> bool
    ensures { result ≡ faults.is_static (method_of_info method.now) }
{
    match method.kind {
        MethodKind::Static => true,
        MethodKind::Abstract | MethodKind::Instance | MethodKind::Constructor => false,
    }
}

/// Whether it is a constructor, by its name.
pub fn is_constructor(method: &MethodInfo) -> bool
    ensures { result ≡ members.is_constructor (method_of_info method.now) }
{
    method.name.as_str() == CONSTRUCTOR
}

fn can_implement(method: &MethodInfo, other: &MethodInfo) -> bool
    ensures { result ≡ faults.can_implement (method_of_info method.now) (method_of_info other.now) }
{
    if !same_signature(method, other) {
        return false;
    }
    if !method.result.same(&other.result) {
        return false;
    }
    if is_static(other) {
        return false;
    }
    !other.is_private
}

/// Whether the type declares a method of this name and these parameters.
pub fn declares(info: &TypeInfo, method: &MethodInfo) -> bool
    ensures { result ≡ members.declares_method (method_of_info method.now) (declared_of info.now) }
{
    for other in info.methods.as_slice() {
        if same_signature(method, other) {
            return true;
        }
    }
    false
}

fn implementing<'a>(info: &'a TypeInfo, method: &MethodInfo) -> Option<&'a MethodInfo>
    ensures { option_map method_of_info (option_copied result) ≡ find (faults.can_implement (method_of_info method.now)) (map method_of_info info.now.methods) }
{
    for other in info.methods.as_slice() {
        if can_implement(method, other) {
            return Some(other);
        }
    }
    None
}

fn superclass_of<'a>(listing: &'a Listing, info: &TypeInfo) -> Option<&'a TypeInfo>
    ensures { option_map declared_of (option_copied result) ≡ option_and_then (spec.type_named (world_in listing.now.types)) info.now.head.superclass }
{
    match &info.head.superclass {
        None => None,
        Some(name) => listing.find(name),
    }
}

/// The first method of the class chain that has the method's name, parameters and result and is neither static nor private.
fn implementation<'a>(
    listing: &'a Listing,
    info: &'a TypeInfo,
    method: &MethodInfo,
) -> Option<&'a MethodInfo>
    ensures { option_map method_of_info (option_copied result) ≡ faults.implementation (world_in listing.now.types) (declared_of info.now) (method_of_info method.now) }
{
    let mut class = info;
    for _step in 0..listing.len() {
        match implementing(class, method) {
            Some(found) => return Some(found),
            None => {}
        }
        match superclass_of(listing, class) {
            None => return None,
            Some(superclass) => class = superclass,
        }
    }
    implementing(class, method)
}

/// Whether the method is abstract, and the type neither declares nor implements it.
pub fn lacks_body(listing: &Listing, info: &TypeInfo, method: &MethodInfo) -> bool
    ensures { result ≡ faults.lacks_body (world_in listing.now.types) (declared_of info.now) (method_of_info method.now) }
{
    if !is_abstract(method) {
        return false;
    }
    if declares(info, method) {
        return false;
    }
    match implementation(listing, info, method) {
        None => true,
        Some(found) => is_abstract(found),
    }
}
