//! Records as bytes.

ghost use Rattle.std.specs.Prelude.{◌≡◌, ◌++◌, OnOk, IfOk};
ghost use Rattle.bcj_tables_rules.specs.Spelling as spec;

use crate::codes::{
    address_number, bit, class_flags_number, field_flags_number, method_code_number,
};
use crate::putting::{put_byte, put_count, put_name_or_none, put_text, put_word};
use bcj_symbolic_trees::{ClassHead, Name};
use bcj_tables_rules::{
    AEntry, CEntry, ClassFlags, ClassRecord, FieldFlags, FieldRecord, IEntry, MethodCode,
    MethodRecord, OEntry, PairRecord, Range, Records,
};
use std::alloc::{AllocError, Global};

fn put_names(out: &mut Vec<u8>, names: &[Name]) -> Result<(), AllocError>
    ensures { OnOk result (out.new.items ≡ out.old.items ++ spec.list spec.text names.now) }
{
    put_count(out, names.len())?;
    for name in names {
        put_text(out, name.as_str())?;
    }
    Ok(())
}

#[tactic(auto, unfolding(bcj_tables_rules::specs::Spelling::head_bytes))]
fn put_head(out: &mut Vec<u8>, h: &ClassHead) -> Result<(), AllocError>
    ensures { OnOk result (out.new.items ≡ out.old.items ++ spec.head_bytes h.now) }
{
    put_text(out, h.name.as_str())?;
    let flags = ClassFlags {
        interface: h.interface,
        is_abstract: h.is_abstract,
    };
    put_byte(out, class_flags_number(flags))?;
    put_name_or_none(out, &h.superclass)?;
    put_names(out, h.interfaces.as_slice())
}

#[tactic(auto, unfolding(bcj_tables_rules::specs::Spelling::field_bytes))]
fn put_field(out: &mut Vec<u8>, f: &FieldRecord) -> Result<(), AllocError>
    ensures { OnOk result (out.new.items ≡ out.old.items ++ spec.field_bytes f.now) }
{
    put_text(out, f.name.as_str())?;
    put_text(out, f.ty.as_str())?;
    let flags = FieldFlags {
        is_static: f.is_static,
        is_final: f.is_final,
        is_private: f.is_private,
        is_constant: f.is_constant,
    };
    put_byte(out, field_flags_number(flags))?;
    put_word(out, f.value)
}

fn put_fields(out: &mut Vec<u8>, fields: &[FieldRecord]) -> Result<(), AllocError>
    ensures { OnOk result (out.new.items ≡ out.old.items ++ spec.list spec.field_bytes fields.now) }
{
    put_count(out, fields.len())?;
    for f in fields {
        put_field(out, f)?;
    }
    Ok(())
}

#[tactic(auto, unfolding(bcj_tables_rules::specs::Spelling::method_bytes))]
fn put_method(out: &mut Vec<u8>, m: &MethodRecord) -> Result<(), AllocError>
    ensures { OnOk result (out.new.items ≡ out.old.items ++ spec.method_bytes m.now) }
{
    put_text(out, m.name.as_str())?;
    put_text(out, m.desc.as_str())?;
    let code = MethodCode {
        kind: m.kind,
        is_private: m.is_private,
    };
    put_byte(out, method_code_number(code))?;
    put_word(out, m.entry)?;
    put_word(out, m.words)?;
    put_word(out, m.frame)
}

fn put_methods(out: &mut Vec<u8>, methods: &[MethodRecord]) -> Result<(), AllocError>
    ensures { OnOk result (out.new.items ≡ out.old.items ++ spec.list spec.method_bytes methods.now) }
{
    put_count(out, methods.len())?;
    for m in methods {
        put_method(out, m)?;
    }
    Ok(())
}

#[tactic(auto, unfolding(bcj_tables_rules::specs::Spelling::range_bytes))]
fn put_range(out: &mut Vec<u8>, r: &Range) -> Result<(), AllocError>
    ensures { OnOk result (out.new.items ≡ out.old.items ++ spec.range_bytes r.now) }
{
    put_word(out, r.method)?;
    put_word(out, r.start)?;
    put_word(out, r.end)?;
    put_word(out, r.target)?;
    put_name_or_none(out, &r.class)
}

fn put_ranges(out: &mut Vec<u8>, ranges: &[Range]) -> Result<(), AllocError>
    ensures { OnOk result (out.new.items ≡ out.old.items ++ spec.list spec.range_bytes ranges.now) }
{
    put_count(out, ranges.len())?;
    for r in ranges {
        put_range(out, r)?;
    }
    Ok(())
}

fn put_pairs(out: &mut Vec<u8>, pairs: &[PairRecord]) -> Result<(), AllocError>
    ensures { OnOk result (out.new.items ≡ out.old.items ++ spec.list spec.pair_bytes pairs.now) }
{
    put_count(out, pairs.len())?;
    for p in pairs {
        put_text(out, p.from.as_str())?;
        put_text(out, p.to.as_str())?;
    }
    Ok(())
}

fn put_ctable(out: &mut Vec<u8>, entries: &[CEntry]) -> Result<(), AllocError>
    ensures { OnOk result (out.new.items ≡ out.old.items ++ spec.list spec.centry_bytes entries.now) }
{
    put_count(out, entries.len())?;
    for e in entries {
        put_byte(out, bit(e.is_new))?;
        put_text(out, e.ty.as_str())?;
    }
    Ok(())
}

/// A class, a name in it and its descriptor.
fn put_member(out: &mut Vec<u8>, class: &Name, name: &Name, desc: &Name) -> Result<(), AllocError>
    ensures { OnOk result (out.new.items ≡ out.old.items ++ spec.member_bytes class.now name.now desc.now) }
{
    put_text(out, class.as_str())?;
    put_text(out, name.as_str())?;
    put_text(out, desc.as_str())
}

fn put_otable(out: &mut Vec<u8>, entries: &[OEntry]) -> Result<(), AllocError>
    ensures { OnOk result (out.new.items ≡ out.old.items ++ spec.list spec.oentry_bytes entries.now) }
{
    put_count(out, entries.len())?;
    for e in entries {
        put_byte(out, bit(e.is_method))?;
        put_member(out, &e.class, &e.name, &e.desc)?;
    }
    Ok(())
}

fn put_atable(out: &mut Vec<u8>, entries: &[AEntry]) -> Result<(), AllocError>
    ensures { OnOk result (out.new.items ≡ out.old.items ++ spec.list spec.aentry_bytes entries.now) }
{
    put_count(out, entries.len())?;
    for e in entries {
        put_byte(out, address_number(e.kind))?;
        put_member(out, &e.class, &e.name, &e.desc)?;
    }
    Ok(())
}

fn put_itable(out: &mut Vec<u8>, entries: &[IEntry]) -> Result<(), AllocError>
    ensures { OnOk result (out.new.items ≡ out.old.items ++ spec.list spec.ientry_bytes entries.now) }
{
    put_count(out, entries.len())?;
    for e in entries {
        put_member(out, &e.class, &e.name, &e.desc)?;
    }
    Ok(())
}

#[tactic(auto, unfolding(bcj_tables_rules::specs::Spelling::tables_bytes))]
fn put_tables(out: &mut Vec<u8>, c: &ClassRecord) -> Result<(), AllocError>
    ensures { OnOk result (out.new.items ≡ out.old.items ++ spec.tables_bytes (spec.tables_of c.now)) }
{
    put_ctable(out, c.ctable.as_slice())?;
    put_otable(out, c.otable.as_slice())?;
    put_atable(out, c.atable.as_slice())?;
    put_itable(out, c.itable.as_slice())?;
    put_word(out, c.table)
}

#[tactic(auto, unfolding(bcj_tables_rules::specs::Spelling::class_bytes))]
fn put_class(out: &mut Vec<u8>, c: &ClassRecord) -> Result<(), AllocError>
    ensures { OnOk result (out.new.items ≡ out.old.items ++ spec.class_bytes c.now) }
{
    put_head(out, &c.head)?;
    put_fields(out, c.fields.as_slice())?;
    put_methods(out, c.methods.as_slice())?;
    put_ranges(out, c.ranges.as_slice())?;
    put_pairs(out, c.pairs.as_slice())?;
    put_tables(out, c)
}

fn put_classes(out: &mut Vec<u8>, classes: &[ClassRecord]) -> Result<(), AllocError>
    ensures { OnOk result (out.new.items ≡ out.old.items ++ spec.list spec.class_bytes classes.now) }
{
    put_count(out, classes.len())?;
    for c in classes {
        put_class(out, c)?;
    }
    Ok(())
}

/// The one spelling of the records.
#[tactic(auto, unfolding(bcj_tables_rules::specs::Spelling::spelling))]
pub fn write_classes(alloc: Global, r: &Records) -> Result<Vec<u8>, AllocError>
    ensures { IfOk result (λ v. v.items ≡ spec.spelling r.now) }
{
    let mut out = Vec::new(alloc);
    put_word(&mut out, r.version)?;
    put_classes(&mut out, r.classes.as_slice())?;
    Ok(out)
}
