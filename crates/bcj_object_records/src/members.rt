//! What a record says of fields, methods, ranges and pairs.
#![tactic(auto, using(crate::proofs::Rules::list_rules))]

ghost use Rattle.std.specs.Prelude.{◌≡◌, ◌+◌, ◌∷◌, map, IfOk};
ghost use Rattle.std.specs.Option.{option_copied};
ghost use Rattle.bcj_symbolic_trees.specs.Units.{field_of, method_of, pair_of};
ghost use Rattle.bcj_lower.specs.Views.{method_in, range_in};
ghost use Rattle.bcj_object_rules.specs.Records as spec;

use crate::descriptors::{method_descriptor, type_descriptor};
use bcj_lower::{CodeRange, MethodCode};
use bcj_symbolic_trees::{MethodKind, Name, Pair, Sequence, SymField, SymMethod};
use bcj_tables_rules::{
    FieldRecord, FieldRecords, MethodRecord, MethodRecords, PairRecord, PairRecords, Range, Ranges,
};
use std::alloc::{AllocError, Global};

/// The offset in an object of what lies so far behind the first byte of a class's code, which begins at `text`.
fn in_object(text: u32, offset: u32) -> Result<u32, AllocError>
    ensures { IfOk result (λ n. n ≡ text + offset) }
{
    text.checked_add(offset).ok_or(AllocError)
}

// ---- fields

/// The word of a constant in two's complement; 0 where there is none.
fn constant_word(constant: Option<i32>) -> u32
    ensures { result ≡ spec.constant_word constant }
{
    match constant {
        None => 0,
        Some(n) => n.cast_unsigned(),
    }
}

fn field_record(alloc: Global, field: &SymField) -> Result<FieldRecord, AllocError>
    ensures { IfOk result (λ r. r ≡ spec.field_record (field_of field.now)) }
{
    Ok(FieldRecord {
        name: field.name.copy(alloc)?,
        ty: type_descriptor(alloc, &field.ty)?,
        is_static: field.is_static,
        is_final: field.is_final,
        is_private: field.is_private,
        is_constant: field.constant.is_some(),
        value: constant_word(field.constant),
    })
}

pub fn field_records(alloc: Global, fields: &[SymField]) -> Result<FieldRecords, AllocError>
    ensures { IfOk result (λ rs. rs ≡ map spec.field_record (map field_of fields.now)) }
{
    let mut all = Sequence::new(alloc);
    for field in fields {
        all.push(field_record(alloc, field)?)?;
    }
    Ok(all)
}

// ---- methods

/// The name of class initialisers (JVMS 2.9).
const CLASS_INITIALISER: &str = "<clinit>";

/// Their descriptor.
const NO_PARAMETERS: &str = "()V";

/// The offset of a method's code; an abstract method has none.
fn entry_at(text: u32, code: &MethodCode, kind: MethodKind) -> Result<u32, AllocError>
    ensures { IfOk result (λ n. n ≡ spec.entry_at text (method_in code.now) kind) }
{
    match kind {
        MethodKind::Abstract => Ok(0),
        MethodKind::Static | MethodKind::Instance | MethodKind::Constructor => {
            in_object(text, code.entry)
        }
    }
}

fn initialiser_record(
    alloc: Global,
    text: u32,
    code: &MethodCode,
) -> Result<MethodRecord, AllocError>
    ensures { IfOk result (λ r. r ≡ spec.method_record text spec.init_head (method_in code.now)) }
{
    Ok(MethodRecord {
        name: Name::from_str(alloc, CLASS_INITIALISER)?,
        desc: Name::from_str(alloc, NO_PARAMETERS)?,
        kind: MethodKind::Static,
        is_private: false,
        entry: in_object(text, code.entry)?,
        words: code.words,
        frame: code.frame,
    })
}

fn method_record(
    alloc: Global,
    text: u32,
    method: &SymMethod,
    code: &MethodCode,
) -> Result<MethodRecord, AllocError>
    ensures { IfOk result (λ r. r ≡ spec.method_record text (spec.method_head (method_of method.now)) (method_in code.now)) }
{
    Ok(MethodRecord {
        name: method.name.copy(alloc)?,
        desc: method_descriptor(alloc, method.params.as_slice(), &method.result)?,
        kind: method.kind,
        is_private: method.is_private,
        entry: entry_at(text, code, method.kind)?,
        words: code.words,
        frame: code.frame,
    })
}

/// The class initialiser and the methods, each with its code.
pub fn method_records(
    alloc: Global,
    text: u32,
    methods: &[SymMethod],
    codes: &[MethodCode],
) -> Result<MethodRecords, AllocError>
    ensures { IfOk result (λ rs. rs
        ≡ spec.method_records text (spec.init_head ∷ map spec.method_head (map method_of methods.now)) (map method_in codes.now)) }
{
    let mut all = Sequence::new(alloc);
    let Some((first, rest)) = codes.split_first() else {
        return Ok(all);
    };
    all.push(initialiser_record(alloc, text, first)?)?;
    for index in 0..methods.len() {
        if index >= rest.len() {
            return Ok(all);
        }
        all.push(method_record(alloc, text, &methods[index], &rest[index])?)?;
    }
    Ok(all)
}

// ---- ranges

fn copy_class(alloc: Global, class: Option<&Name>) -> Result<Option<Name>, AllocError>
    ensures { IfOk result (λ copy. copy ≡ option_copied class.entry) }
{
    match class {
        None => Ok(None),
        Some(class) => Ok(Some(class.copy(alloc)?)),
    }
}

fn range_record<'a>(alloc: Global, text: u32, range: &CodeRange<'a>) -> Result<Range, AllocError>
    ensures { IfOk result (λ r. r ≡ spec.range_record text (range_in range.now)) }
{
    Ok(Range {
        method: range.method,
        start: in_object(text, range.start)?,
        end: in_object(text, range.end)?,
        target: in_object(text, range.target)?,
        class: copy_class(alloc, range.class)?,
    })
}

pub fn range_records<'a>(
    alloc: Global,
    text: u32,
    ranges: &[CodeRange<'a>],
) -> Result<Ranges, AllocError>
    ensures { IfOk result (λ rs. rs ≡ map (spec.range_record text) (map range_in ranges.now)) }
{
    let mut all = Sequence::new(alloc);
    for range in ranges {
        all.push(range_record(alloc, text, range)?)?;
    }
    Ok(all)
}

// ---- pairs

fn pair_record(alloc: Global, pair: &Pair) -> Result<PairRecord, AllocError>
    ensures { IfOk result (λ r. r ≡ spec.pair_record (pair_of pair.now)) }
{
    Ok(PairRecord {
        from: type_descriptor(alloc, &pair.from)?,
        to: type_descriptor(alloc, &pair.to)?,
    })
}

pub fn pair_records(alloc: Global, pairs: &[Pair]) -> Result<PairRecords, AllocError>
    ensures { IfOk result (λ rs. rs ≡ map spec.pair_record (map pair_of pairs.now)) }
{
    let mut all = Sequence::new(alloc);
    for pair in pairs {
        all.push(pair_record(alloc, pair)?)?;
    }
    Ok(all)
}
