//! What a record says of the entries of a class's tables.
#![tactic(auto, using(crate::proofs::Rules::list_rules))]

ghost use Rattle.std.specs.Prelude.{◌≡◌, map, IfOk};
ghost use Rattle.bcj_symbolic_measure.specs.function.Counts.{entry_of, target_of};
ghost use Rattle.bcj_object_rules.specs.Records as spec;

use crate::descriptors::{class_descriptor, method_descriptor, type_descriptor};
use bcj_symbolic_measure::{Entry, Role, Target};
use bcj_symbolic_trees::{Name, Sequence};
use bcj_tables_rules::{
    AEntries, AEntry, AEntryKind, CEntries, CEntry, IEntries, IEntry, OEntries, OEntry,
};
use std::alloc::{AllocError, Global};

// ---- targets

/// The class that a member is named by; a type has none.
fn target_class<'a>(alloc: Global, target: Target<'a>) -> Result<Name, AllocError>
    ensures { IfOk result (λ n. n ≡ spec.target_class (target_of target.entry)) }
{
    match target {
        Target::Type(_) | Target::Class(_) => Name::from_str(alloc, ""),
        Target::Field(field) => field.class.copy(alloc),
        Target::Method(method) => method.class.copy(alloc),
    }
}

fn target_name<'a>(alloc: Global, target: Target<'a>) -> Result<Name, AllocError>
    ensures { IfOk result (λ n. n ≡ spec.target_name (target_of target.entry)) }
{
    match target {
        Target::Type(_) | Target::Class(_) => Name::from_str(alloc, ""),
        Target::Field(field) => field.name.copy(alloc),
        Target::Method(method) => method.name.copy(alloc),
    }
}

fn target_descriptor<'a>(alloc: Global, target: Target<'a>) -> Result<Name, AllocError>
    ensures { IfOk result (λ n. n ≡ spec.target_descriptor (target_of target.entry)) }
{
    match target {
        Target::Type(ty) => type_descriptor(alloc, ty),
        Target::Class(class) => class_descriptor(alloc, class),
        Target::Field(field) => type_descriptor(alloc, &field.ty),
        Target::Method(method) => {
            method_descriptor(alloc, method.params.as_slice(), &method.result)
        }
    }
}

// ---- roles

fn is_new(role: Role) -> bool
    ensures { result ≡ spec.is_new role }
{
    matches!(role, Role::New)
}

fn is_method(role: Role) -> bool
    ensures { result ≡ spec.is_method role }
{
    matches!(role, Role::MethodOffset)
}

fn address_kind(role: Role) -> AEntryKind
    ensures { result ≡ spec.address_kind role }
{
    match role {
        Role::FieldAddress => AEntryKind::Field,
        Role::StaticMethod => AEntryKind::StaticMethod,
        Role::Row
        | Role::New
        | Role::FieldOffset
        | Role::MethodOffset
        | Role::SpecialMethod
        | Role::InterfaceMethod => AEntryKind::Special,
    }
}

// ---- entries

fn centry<'a>(alloc: Global, entry: Entry<'a>) -> Result<CEntry, AllocError>
    ensures { IfOk result (λ e. e ≡ spec.centry (entry_of entry.entry)) }
{
    Ok(CEntry {
        is_new: is_new(entry.role),
        ty: target_descriptor(alloc, entry.target)?,
    })
}

fn oentry<'a>(alloc: Global, entry: Entry<'a>) -> Result<OEntry, AllocError>
    ensures { IfOk result (λ e. e ≡ spec.oentry (entry_of entry.entry)) }
{
    Ok(OEntry {
        is_method: is_method(entry.role),
        class: target_class(alloc, entry.target)?,
        name: target_name(alloc, entry.target)?,
        desc: target_descriptor(alloc, entry.target)?,
    })
}

fn aentry<'a>(alloc: Global, entry: Entry<'a>) -> Result<AEntry, AllocError>
    ensures { IfOk result (λ e. e ≡ spec.aentry (entry_of entry.entry)) }
{
    Ok(AEntry {
        kind: address_kind(entry.role),
        class: target_class(alloc, entry.target)?,
        name: target_name(alloc, entry.target)?,
        desc: target_descriptor(alloc, entry.target)?,
    })
}

fn ientry<'a>(alloc: Global, entry: Entry<'a>) -> Result<IEntry, AllocError>
    ensures { IfOk result (λ e. e ≡ spec.ientry (entry_of entry.entry)) }
{
    Ok(IEntry {
        class: target_class(alloc, entry.target)?,
        name: target_name(alloc, entry.target)?,
        desc: target_descriptor(alloc, entry.target)?,
    })
}

// ---- tables

pub fn centries<'a>(alloc: Global, entries: &[Entry<'a>]) -> Result<CEntries, AllocError>
    ensures { IfOk result (λ es. es ≡ map spec.centry (map entry_of entries.now)) }
{
    let mut all = Sequence::new(alloc);
    for entry in entries {
        all.push(centry(alloc, *entry)?)?;
    }
    Ok(all)
}

pub fn oentries<'a>(alloc: Global, entries: &[Entry<'a>]) -> Result<OEntries, AllocError>
    ensures { IfOk result (λ es. es ≡ map spec.oentry (map entry_of entries.now)) }
{
    let mut all = Sequence::new(alloc);
    for entry in entries {
        all.push(oentry(alloc, *entry)?)?;
    }
    Ok(all)
}

pub fn aentries<'a>(alloc: Global, entries: &[Entry<'a>]) -> Result<AEntries, AllocError>
    ensures { IfOk result (λ es. es ≡ map spec.aentry (map entry_of entries.now)) }
{
    let mut all = Sequence::new(alloc);
    for entry in entries {
        all.push(aentry(alloc, *entry)?)?;
    }
    Ok(all)
}

pub fn ientries<'a>(alloc: Global, entries: &[Entry<'a>]) -> Result<IEntries, AllocError>
    ensures { IfOk result (λ es. es ≡ map spec.ientry (map entry_of entries.now)) }
{
    let mut all = Sequence::new(alloc);
    for entry in entries {
        all.push(ientry(alloc, *entry)?)?;
    }
    Ok(all)
}
