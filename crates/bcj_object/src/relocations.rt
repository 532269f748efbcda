//! What linking sets in the code and in the tables of classes (RISC-V psABI, "Relocations").

ghost use Rattle.std.specs.Prelude.{◌≡◌, ◌++◌, map, IfOk, OnOk};
ghost use Rattle.std.specs.List.{flat_map};
ghost use Rattle.bcj_lower.specs.Views.{relocation_in};
ghost use Rattle.bcj_object_rules.specs.Objects as spec;
ghost use Rattle.bcj_object.specs.function.Views.{placed_in};

use crate::numbers::plus;
use crate::placing::PlacedClass;
use crate::symbols::{code_symbol, tables_symbol};
use bcj_elf::{Relocation, RelocationKind};
use bcj_lower::{CodeRelocation, Half};
use std::alloc::{AllocError, Global};

fn half_kind(half: Half) -> RelocationKind
    ensures { result ≡ spec.half_kind half }
{
    match half {
        Half::Upper => RelocationKind::Hi20,
        Half::Lower => RelocationKind::Lo12I,
    }
}

/// Half of an address in the class's own tables.
fn text_relocation<'a>(p: &PlacedClass<'a>, r: &CodeRelocation) -> Result<Relocation, AllocError>
    ensures { IfOk result (λ made. made ≡ spec.text_relocation (placed_in p.now) (relocation_in r.now)) }
{
    Ok(Relocation {
        offset: plus(p.place.text, r.offset)?,
        symbol: tables_symbol(p.place.number)?,
        kind: half_kind(r.half),
        addend: r.addend,
    })
}

fn put_text_relocations<'a>(
    p: &PlacedClass<'a>,
    out: &mut Vec<Relocation>,
) -> Result<(), AllocError>
    ensures { OnOk result (out.new.items ≡ out.old.items ++ spec.class_text_relocations (placed_in p.now)) }
{
    for r in p.code.relocs.as_slice() {
        out.push(text_relocation(p, r)?)?;
    }
    Ok(())
}

pub fn text_relocations<'a>(
    alloc: Global,
    placed: &[PlacedClass<'a>],
) -> Result<Vec<Relocation>, AllocError>
    ensures { IfOk result (λ v. v.items ≡ flat_map spec.class_text_relocations (map placed_in placed.now)) }
{
    let mut all = Vec::new(alloc);
    for p in placed {
        put_text_relocations(p, &mut all)?;
    }
    Ok(all)
}

/// The address of the class initialiser, with which the class's code begins.
fn tab_relocation<'a>(p: &PlacedClass<'a>) -> Result<Relocation, AllocError>
    ensures { IfOk result (λ made. made ≡ spec.tab_relocation (placed_in p.now)) }
{
    Ok(Relocation {
        offset: p.place.tab,
        symbol: code_symbol(p.place.number)?,
        kind: RelocationKind::Word,
        addend: 0,
    })
}

pub fn tab_relocations<'a>(
    alloc: Global,
    placed: &[PlacedClass<'a>],
) -> Result<Vec<Relocation>, AllocError>
    ensures { IfOk result (λ v. v.items ≡ map spec.tab_relocation (map placed_in placed.now)) }
{
    let mut all = Vec::new(alloc);
    for p in placed {
        all.push(tab_relocation(p)?)?;
    }
    Ok(all)
}
