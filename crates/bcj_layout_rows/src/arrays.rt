//! The array types that have rows.
#![tactic(auto, using(crate::proofs::Rules::array_rules))]

ghost use Rattle.std.specs.Prelude.{◌≡◌, ◌++◌, [], ◌∷◌, map, filter, fold, IfOk, OnOk};
ghost use Rattle.std.specs.List.{IsDistinct};
ghost use Rattle.bcj_symbolic_trees.specs.Types.{ty_of, types_of};
ghost use Rattle.bcj_symbolic_trees.specs.Same.{same_type};
ghost use Rattle.bcj_hier_rules.specs.Shapes.{type_of_text};
ghost use Rattle.bcj_layout_rules.specs.Rows as spec;
ghost use Rattle.bcj_layout_rows.specs.Keys.{type_in};

use crate::keys::TypeKey;
use crate::text::type_of_text;
use bcj_layout_resolution::Resolver;
use bcj_names::Name;
use bcj_symbolic_trees::{Sequence, Ty, Types};
use bcj_tables_rules::{CEntry, ClassRecord};
use indexmap::IndexSet;
use sqlite_items::Boxed;
use std::alloc::{AllocError, Global};

const STRING: &str = "String";

/// The type of what `main` is given.
fn arguments_type(alloc: Global) -> Result<Ty, AllocError>
    ensures { IfOk result (λ t. ty_of t ≡ spec.arguments_type) }
{
    let element = Ty::Class(Name::from_str(alloc, STRING)?);
    Ok(Ty::Array(Boxed::new(alloc, element)?))
}

fn push_types(alloc: Global, entries: &[CEntry], types: &mut Types) -> Result<(), AllocError>
    ensures { OnOk result (types_of types.new ≡ types_of types.old ++ map (λ e. type_of_text e.ty) entries.now) }
{
    for entry in entries {
        types.push(type_of_text(alloc, &entry.ty)?)?;
    }
    Ok(())
}

/// The types in the class tables, in order, and then that of the arguments.
fn mentioned(alloc: Global, classes: &[ClassRecord]) -> Result<Types, AllocError>
    ensures { IfOk result (λ ts. types_of ts ≡ spec.mentioned classes.now ++ spec.arguments_type ∷ []) }
{
    let mut types = Sequence::new(alloc);
    for class in classes {
        push_types(alloc, class.ctable.as_slice(), &mut types)?;
    }
    types.push(arguments_type(alloc)?)?;
    Ok(types)
}

/// Puts the array types of a type behind the others, each behind its component.
fn put_arrays<'a>(found: &mut IndexSet<TypeKey<'a>>, ty: &'a Ty) -> Result<(), AllocError>
    ensures { OnOk result (map type_in found.new.keys ≡ spec.with_arrays (map type_in found.old.keys) (ty_of ty.entry.now)) }
{
    match ty {
        Ty::Int | Ty::Bool | Ty::Void | Ty::Class(_) => Ok(()),
        Ty::Array(component) => {
            put_arrays(found, component.get())?;
            found.insert(TypeKey { ty })?;
            Ok(())
        }
    }
}

fn found_arrays<'a>(alloc: Global, types: &'a [Ty]) -> Result<IndexSet<TypeKey<'a>>, AllocError>
    ensures { IfOk result (λ found. map type_in found.keys ≡ fold spec.with_arrays [] (types_of types.entry.now)) }
{
    let mut found = IndexSet::new(alloc);
    for ty in types {
        put_arrays(&mut found, ty)?;
    }
    Ok(found)
}

/// Those whose elements load.
fn copy_loading<'a>(
    alloc: Global,
    resolver: &Resolver,
    keys: &[TypeKey<'a>],
) -> Result<Types, AllocError>
    ensures { IfOk result (λ ts. types_of ts ≡ filter (spec.element_loads resolver.now) (map type_in keys.entry.now)) }
{
    let mut types = Sequence::new(alloc);
    for key in keys {
        if resolver.class(key.ty, false).is_ok() {
            types.push(key.ty.copy(alloc)?)?;
        }
    }
    Ok(types)
}

fn loading_arrays(alloc: Global, resolver: &Resolver) -> Result<Types, AllocError>
    ensures { IfOk result (λ ts. types_of ts ≡ spec.array_types resolver.now) }
{
    let types = mentioned(alloc, resolver.records().classes.as_slice())?;
    let found = found_arrays(alloc, types.as_slice())?;
    copy_loading(alloc, resolver, found.as_slice())
}

/// The array types by first mention whose elements load, each behind its component. That of the arguments of `main` stands last where
/// none mentions it.
pub fn array_types(alloc: Global, resolver: &Resolver) -> Result<Types, AllocError>
    ensures types { IfOk result (λ ts. types_of ts ≡ spec.array_types resolver.now) }
    ensures distinct { IfOk result (λ ts. IsDistinct same_type (types_of ts)) }
{
    loading_arrays(alloc, resolver)
}
