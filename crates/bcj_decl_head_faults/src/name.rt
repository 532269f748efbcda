ghost use Rattle.std.specs.Prelude.{◌≡◌, ◌++◌, ◌&&◌, ◌||◌, true, false, not, List, ℕ, IfOk, OnOk, if◌then◌else◌};
ghost use Rattle.std.specs.List.{list_any};
ghost use Rattle.std.specs.Option.{option_copied};
ghost use Rattle.std.specs.Str.{bytes_eq};
ghost use Rattle.std.specs.HashSet.{contains_text};
ghost use Rattle.bcj_parser_trees.specs.Plain as tree;
ghost use Rattle.bcj_decl_rules.specs.World as spec;
ghost use Rattle.bcj_decl_rules.specs.Faults.{first_unknown, stands_twice};
ghost use Rattle.bcj_decl_table.specs.Views.{world_in};
ghost use Rattle.bcj_decl_listing.specs.Places.{place_of};
ghost use Rattle.bcj_decl_head_faults.specs.Kinds.{is_below, is_of_kind, names_wrong_kind};

use bcj_decl_listing::Listing;
use bcj_names::Name;
use bcj_parser_trees::TypeDecl;
use std::alloc::{AllocError, Global};
use std::collections::HashSet;

/// Whether a type before the place has the name.
pub fn is_taken(listing: &Listing, name: &Name, place: usize) -> bool
    ensures { result ≡ is_below place (place_of (world_in listing.now.types) name.now) }
{
    match listing.place(name) {
        None => false,
        Some(first) => first < place,
    }
}

fn is_known(listing: &Listing, name: &Name) -> bool
    ensures { result ≡ spec.has_type (world_in listing.now.types) name.now }
{
    listing.place(name).is_some()
}

fn unknown_among<'a>(listing: &Listing, names: &'a [Name]) -> Option<&'a Name>
    ensures { option_copied result ≡ first_unknown (world_in listing.now.types) names.now }
{
    for name in names {
        if !is_known(listing, name) {
            return Some(name);
        }
    }
    None
}

/// The first name of the head that no type has.
pub fn unknown_name<'a>(listing: &Listing, decl: &'a TypeDecl) -> Option<&'a Name>
    ensures { option_copied result ≡ first_unknown (world_in listing.now.types) (decl.now.extends ++ decl.now.implements) }
{
    match unknown_among(listing, decl.extends.as_slice()) {
        Some(name) => Some(name),
        None => unknown_among(listing, decl.implements.as_slice()),
    }
}

fn is_of_kind(listing: &Listing, name: &Name, interface: bool) -> bool
    ensures { result ≡ is_of_kind (world_in listing.now.types) interface name.now }
{
    match listing.find(name) {
        None => false,
        Some(info) => info.head.interface == interface,
    }
}

fn any_of_kind(listing: &Listing, names: &[Name], interface: bool) -> bool
    ensures { result ≡ list_any (is_of_kind (world_in listing.now.types) interface) names.now }
{
    for name in names {
        if is_of_kind(listing, name, interface) {
            return true;
        }
    }
    false
}

fn interfaces_of(decl: &TypeDecl) -> &[Name]
    ensures { result.now ≡ spec.interfaces_of (tree.type_of decl.now) }
{
    if decl.interface {
        decl.extends.as_slice()
    } else {
        decl.implements.as_slice()
    }
}

/// Whether a class extends an interface, or a class stands where an interface is wanted.
pub fn names_wrong_kind(listing: &Listing, decl: &TypeDecl) -> bool
    ensures { result ≡ names_wrong_kind (world_in listing.now.types) (tree.type_of decl.now) }
{
    (!decl.interface && any_of_kind(listing, decl.extends.as_slice(), true))
        || any_of_kind(listing, interfaces_of(decl), false)
}

/// Notes a name, and says whether it is new.
fn note(alloc: Global, seen: &mut HashSet<String>, name: &Name) -> Result<bool, AllocError>
    ensures is_new { IfOk result (λ is_new. is_new ≡ not (contains_text seen.old name.now)) }
    ensures noted { OnOk result ((q : List ℕ) → contains_text seen.new q ≡ (if bytes_eq name.now q then true else contains_text seen.old q)) }
{
    let is_new = seen.insert(String::from_str(alloc, name.as_str())?)?;
    Ok(is_new)
}

fn any_twice(alloc: Global, names: &[Name]) -> Result<bool, AllocError>
    ensures { IfOk result (λ twice. twice ≡ stands_twice names.now) }
{
    let mut seen = HashSet::new(alloc);
    for name in names {
        if !note(alloc, &mut seen, name)? {
            return Ok(true);
        }
    }
    Ok(false)
}

/// Whether the head names an interface twice.
pub fn names_twice(alloc: Global, decl: &TypeDecl) -> Result<bool, AllocError>
    ensures { IfOk result (λ twice. twice ≡ stands_twice (spec.interfaces_of (tree.type_of decl.now))) }
{
    any_twice(alloc, interfaces_of(decl))
}
