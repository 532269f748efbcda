ghost use Rattle.std.specs.Prelude.{◌≡◌, ◌++◌, ◌∷◌, [], false, true, map, IfOk, OnOk};
ghost use Rattle.std.specs.Option.{option_to_list};
ghost use Rattle.bcj_hier.specs.Numbers as spec;

use crate::names::NameTable;
use bcj_names::Name;
use bcj_symbolic_trees::{ClassHead, Sequence};
use std::alloc::{AllocError, Global};

/// A type that must load before another does: its number, where it is there, and whether it must be an interface.
#[derive(Clone, Copy)]
pub struct Part {
    pub place: Option<usize>,
    pub interface: bool,
}

/// The superclass of a type, where it has one, and behind it the superinterfaces.
pub type Parts = Sequence<Part>;

fn find_part(names: &NameTable, interface: bool, name: &Name) -> Part
    ensures { result ≡ spec.part_of names.now interface name.now }
{
    Part {
        place: names.find(name),
        interface,
    }
}

fn push_superclass(
    parts: &mut Parts,
    names: &NameTable,
    superclass: &Option<Name>,
) -> Result<(), AllocError>
    ensures { OnOk result (parts.new ≡ parts.old ++ map (spec.part_of names.now false) (option_to_list superclass.now)) }
{
    match superclass {
        None => Ok(()),
        Some(name) => parts.push(find_part(names, false, name)),
    }
}

fn push_interfaces(
    parts: &mut Parts,
    names: &NameTable,
    interfaces: &[Name],
) -> Result<(), AllocError>
    ensures { OnOk result (parts.new ≡ parts.old ++ map (spec.part_of names.now true) interfaces.now) }
{
    for name in interfaces {
        parts.push(find_part(names, true, name))?;
    }
    Ok(())
}

fn parts_of_head(alloc: Global, names: &NameTable, head: &ClassHead) -> Result<Parts, AllocError>
    ensures { IfOk result (λ ps. ps ≡ spec.parts_of names.now head.now) }
{
    let mut parts = Sequence::new(alloc);
    push_superclass(&mut parts, names, &head.superclass)?;
    push_interfaces(&mut parts, names, head.interfaces.as_slice())?;
    Ok(parts)
}

/// The parts of each type.
pub fn parts_of_heads(
    alloc: Global,
    names: &NameTable,
    heads: &[ClassHead],
) -> Result<Sequence<Parts>, AllocError>
    ensures { IfOk result (λ ps. ps ≡ map (spec.parts_of names.now) heads.now) }
{
    let mut all = Sequence::new(alloc);
    for head in heads {
        all.push(parts_of_head(alloc, names, head)?)?;
    }
    Ok(all)
}

/// The number of the superclass, where there is one that is found. It takes no memory.
pub fn superclass_place(parts: &[Part]) -> Option<usize>
    ensures { result ≡ spec.superclass_place parts.now }
{
    match parts {
        [] => None,
        [first, ..] => { if first.interface { None } else { first.place } }
    }
}

/// The parts of the type of a number. It takes no memory.
pub fn parts_at(parts: &[Parts], number: usize) -> &[Part]
    ensures { result.now ≡ spec.parts_at parts.now number }
{
    match parts.get(number) {
        None => &[],
        Some(own) => own.as_slice(),
    }
}
