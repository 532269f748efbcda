//! Flags and kinds as bytes. A byte that stands for nothing is read as some value that another byte stands for.

ghost use Rattle.std.specs.Prelude.{◌≡◌};
ghost use Rattle.bcj_tables_rules.specs.Codes as spec;

use bcj_symbolic_trees::MethodKind;
use bcj_tables_rules::{AEntryKind, ClassFlags, FieldFlags, MethodCode};

/// 1 for true.
pub fn bit(b: bool) -> u8
    ensures { result ≡ spec.bit b }
{
    if b { 1 } else { 0 }
}

pub fn is_one(n: u8) -> bool
    ensures { result ≡ spec.is_one n }
{
    n == 1
}

pub fn class_flags_number(f: ClassFlags) -> u8
    ensures { result ≡ spec.class_flags_number f }
{
    bit(f.interface) + 2 * bit(f.is_abstract)
}

pub fn class_flags_of(n: u8) -> ClassFlags
    ensures { result ≡ spec.class_flags_of n }
{
    ClassFlags {
        interface: n % 2 == 1,
        is_abstract: n / 2 % 2 == 1,
    }
}

pub fn field_flags_number(f: FieldFlags) -> u8
    ensures { result ≡ spec.field_flags_number f }
{
    bit(f.is_static) + 2 * bit(f.is_final) + 4 * bit(f.is_private) + 8 * bit(f.is_constant)
}

pub fn field_flags_of(n: u8) -> FieldFlags
    ensures { result ≡ spec.field_flags_of n }
{
    FieldFlags {
        is_static: n % 2 == 1,
        is_final: n / 2 % 2 == 1,
        is_private: n / 4 % 2 == 1,
        is_constant: n / 8 % 2 == 1,
    }
}

fn kind_number(kind: MethodKind) -> u8
    ensures { result ≡ spec.kind_number kind }
{
    match kind {
        MethodKind::Static => 0,
        MethodKind::Instance => 1,
        MethodKind::Abstract => 2,
        MethodKind::Constructor => 3,
    }
}

fn kind_of(n: u8) -> MethodKind
    ensures { result ≡ spec.kind_of n }
{
    if n == 0 {
        MethodKind::Static
    } else if n == 1 {
        MethodKind::Instance
    } else if n == 2 {
        MethodKind::Abstract
    } else {
        MethodKind::Constructor
    }
}

pub fn method_code_number(c: MethodCode) -> u8
    ensures { result ≡ spec.method_code_number c }
{
    kind_number(c.kind) + 4 * bit(c.is_private)
}

pub fn method_code_of(n: u8) -> MethodCode
    ensures { result ≡ spec.method_code_of n }
{
    MethodCode {
        kind: kind_of(n % 4),
        is_private: n / 4 % 2 == 1,
    }
}

pub fn address_number(kind: AEntryKind) -> u8
    ensures { result ≡ spec.address_number kind }
{
    match kind {
        AEntryKind::Field => 0,
        AEntryKind::StaticMethod => 1,
        AEntryKind::Special => 2,
    }
}

pub fn address_of(n: u8) -> AEntryKind
    ensures { result ≡ spec.address_of n }
{
    if n == 0 {
        AEntryKind::Field
    } else if n == 1 {
        AEntryKind::StaticMethod
    } else {
        AEntryKind::Special
    }
}

pub fn is_abstract(kind: MethodKind) -> bool
    ensures { result ≡ spec.is_abstract kind }
{
    matches!(kind, MethodKind::Abstract)
}

pub fn is_static(kind: MethodKind) -> bool
    ensures { result ≡ spec.is_static kind }
{
    matches!(kind, MethodKind::Static)
}

pub fn is_constructor(kind: MethodKind) -> bool
    ensures { result ≡ spec.is_constructor kind }
{
    matches!(kind, MethodKind::Constructor)
}
