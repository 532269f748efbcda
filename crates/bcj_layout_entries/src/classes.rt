ghost use Rattle.std.specs.Prelude.{◌≡◌, ◌+◌, ◌≤◌, length, None, Some, Ok, Err, IfOk};
ghost use Rattle.std.specs.Option.{option_map_or, option_copied};
ghost use Rattle.bcj_symbolic_trees.specs.Types.{ty_of, class_type};
ghost use Rattle.bcj_hier_rules.specs.Heads.{IsIn, name_of};
ghost use Rattle.bcj_hier_rules.specs.Loading.{load_error};
ghost use Rattle.bcj_hier_rules.specs.Resolution.{element_error};
ghost use Rattle.bcj_layout_rules.specs.Rows.{Classes, mixture_of, loaded, row_number, row_types};
ghost use Rattle.bcj_layout_rules.specs.Places.{row_at};
ghost use Rattle.bcj_layout_rules.specs.Entries.{row_of, ctable_word};
ghost use Rattle.bcj_layout_resolution.specs.Places.{heads_in};
ghost use Rattle.bcj_layout_addresses.specs.Parts.{AreParts, classes_of, main_of};
ghost use Rattle.bcj_layout_entries.specs.Classes.{class_of_type, ctable_class};
ghost use Rattle.bcj_layout_entries.specs.Listed.{IsEntry, type_word, type_class};

use crate::entries::Entry;
use crate::lookup::class_of;
use bcj_hier_rules::{ClassId, LinkError};
use bcj_layout_addresses::Parts;
use bcj_layout_rows::type_of_text;
use bcj_names::Name;
use bcj_symbolic_trees::Ty;
use bcj_tables_rules::CEntry;
use std::alloc::{AllocError, Global};

/// The entry of what can't be resolved.
pub fn unresolved(error: LinkError) -> Entry
    ensures { (cs : Classes) → IsEntry cs (Err error) None result }
{
    Entry {
        word: Err(error),
        class: None,
    }
}

/// The number of the row of a class or interface, 0 where it has none.
fn class_row(parts: &Parts<'_>, class: ClassId) -> u32
    requires parts { AreParts parts.now }
    requires there { IsIn (heads_in (classes_of parts.now)) class }
    ensures { result ≡ option_map_or (λ n. n) (row_number (classes_of parts.now) (class_type (name_of (heads_in (classes_of parts.now)) class))) 0 }
{
    parts.places.row_numbers.as_slice()[class.0 as usize].unwrap_or(0)
}

/// How many types load.
fn class_count(parts: &Parts<'_>) -> usize
    requires { AreParts parts.now }
    ensures { result ≡ length (loaded (classes_of parts.now)) }
{
    parts.places.loaded.len()
}

/// A number behind those of the types that load.
fn behind_classes(parts: &Parts<'_>, number: u32) -> Result<u32, AllocError>
    requires { AreParts parts.now }
    ensures { IfOk result (λ n. n ≡ length (loaded (classes_of parts.now)) + number) }
{
    let Ok(classes) = u32::try_from(class_count(parts)) else {
        return Err(AllocError);
    };
    match classes.checked_add(number) {
        None => Err(AllocError),
        Some(row) => Ok(row),
    }
}

/// The number of the row of a type that is no class, 0 where it has none.
fn array_row(parts: &Parts<'_>, ty: &Ty) -> Result<u32, AllocError>
    requires parts { AreParts parts.now }
    requires plain { class_of_type (ty_of ty.now) ≡ None }
    ensures { IfOk result (λ n. n ≡ option_map_or (λ n. n) (row_number (classes_of parts.now) (ty_of ty.now)) 0) }
{
    match parts.arrays.number(ty) {
        None => Ok(0),
        Some(number) => behind_classes(parts, number),
    }
}

/// The address of the row with this number.
fn row_address(parts: &Parts<'_>, number: u32) -> u32
    requires parts { AreParts parts.now }
    requires there { number ≤ length (row_types (classes_of parts.now)) }
    ensures { result ≡ row_at (classes_of parts.now) (main_of parts.now) number }
{
    parts.places.rows.as_slice()[number as usize]
}

/// The entry of a class that loads.
fn class_entry(parts: &Parts<'_>, name: &Name) -> Entry
    requires parts { AreParts parts.now }
    requires loads { load_error (mixture_of (classes_of parts.now)) name.now ≡ None }
    ensures { IsEntry (classes_of parts.now) (Ok (row_of (classes_of parts.now) (main_of parts.now) (class_type name.now))) (Some name.now) result }
{
    let class = class_of(parts.resolver, name);
    Entry {
        word: Ok(row_address(parts, class_row(parts, class))),
        class: Some(class),
    }
}

/// The entry of a type that has no class.
fn plain_entry(parts: &Parts<'_>, number: u32) -> Entry
    requires parts { AreParts parts.now }
    requires there { number ≤ length (row_types (classes_of parts.now)) }
    ensures { IsEntry (classes_of parts.now) (Ok (row_at (classes_of parts.now) (main_of parts.now) number)) None result }
{
    Entry {
        word: Ok(row_address(parts, number)),
        class: None,
    }
}

/// The name of a type that is a class.
#[tactic(auto, using(bcj_symbolic_trees::proofs::PlainLemmas::tree_rules))]
fn class_name(ty: &Ty) -> Option<&Name>
    ensures { option_copied result ≡ class_of_type (ty_of ty.now) }
{
    match ty {
        Ty::Class(name) => Some(name),
        Ty::Int | Ty::Bool | Ty::Void | Ty::Array(_) => None,
    }
}

/// The entry of a type whose elements load.
fn loaded_entry(parts: &Parts<'_>, ty: &Ty) -> Result<Entry, AllocError>
    requires parts { AreParts parts.now }
    requires loads { element_error (mixture_of (classes_of parts.now)) (ty_of ty.now) ≡ None }
    ensures { IfOk result (IsEntry (classes_of parts.now) (Ok (row_of (classes_of parts.now) (main_of parts.now) (ty_of ty.now))) (class_of_type (ty_of ty.now))) }
{
    match class_name(ty) {
        Some(name) => Ok(class_entry(parts, name)),
        None => Ok(plain_entry(parts, array_row(parts, ty)?)),
    }
}

/// The entry of a type, by `is_new` to make an object of it.
pub fn type_entry(parts: &Parts<'_>, ty: &Ty, is_new: bool) -> Result<Entry, AllocError>
    requires { AreParts parts.now }
    ensures { IfOk result (IsEntry (classes_of parts.now)
        (type_word (classes_of parts.now) (main_of parts.now) (ty_of ty.now) is_new) (type_class (classes_of parts.now) (ty_of ty.now) is_new)) }
{
    match parts.resolver.class(ty, is_new) {
        Err(error) => Ok(unresolved(error)),
        Ok(()) => loaded_entry(parts, ty),
    }
}

/// An entry of a class table.
pub fn named_entry(alloc: Global, parts: &Parts<'_>, entry: &CEntry) -> Result<Entry, AllocError>
    requires { AreParts parts.now }
    ensures { IfOk result (IsEntry (classes_of parts.now)
        (ctable_word (classes_of parts.now) (main_of parts.now) entry.now) (ctable_class (classes_of parts.now) entry.now)) }
{
    let ty = type_of_text(alloc, &entry.ty)?;
    type_entry(parts, &ty, entry.is_new)
}
