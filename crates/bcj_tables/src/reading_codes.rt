//! Flags and kinds, each in one byte. A byte that stands for nothing is bad.

ghost use Rattle.std.specs.Prelude.{◌≡◌, ◌&&◌, ◌==◌};
ghost use Rattle.bcj_tables_rules.specs.Steps.{Reads};
ghost use Rattle.bcj_tables_rules.specs.Format.{code_field};
ghost use Rattle.bcj_tables_rules.specs.Members.{always, are_field_flags};
ghost use Rattle.bcj_tables_rules.specs.Codes as spec;

use crate::codes::{
    address_number, address_of, bit, class_flags_number, class_flags_of, field_flags_number,
    field_flags_of, is_one,
};
use crate::cursor::Cursor;
use bcj_tables_rules::{AEntryKind, ClassFlags, FieldFlags, Stop};

/// Whether the byte stands for a truth value.
#[tactic(auto, using(crate::proofs::Tests::and_true))]
fn is_bit(byte: u8) -> bool
    ensures { result ≡ (spec.bit (spec.is_one byte) == byte && always (spec.is_one byte)) }
{
    bit(is_one(byte)) == byte
}

/// The next byte as a truth value.
pub fn read_bit(cursor: &mut Cursor<'_>) -> Result<bool, Stop>
    ensures { Reads (λ b. b) ((code_field spec.bit spec.is_one always).reads cursor.old) result cursor.new }
{
    let good = is_bit(cursor.next_byte());
    let byte = cursor.take_byte(good)?;
    Ok(is_one(byte))
}

/// Whether the byte stands for the kind of an address.
#[tactic(auto, using(crate::proofs::Tests::and_true))]
fn is_address(byte: u8) -> bool
    ensures { result ≡ (spec.address_number (spec.address_of byte) == byte && always (spec.address_of byte)) }
{
    address_number(address_of(byte)) == byte
}

/// The next byte as the kind of an address.
pub fn read_address(cursor: &mut Cursor<'_>) -> Result<AEntryKind, Stop>
    ensures { Reads (λ k. k) ((code_field spec.address_number spec.address_of always).reads cursor.old) result cursor.new }
{
    let good = is_address(cursor.next_byte());
    let byte = cursor.take_byte(good)?;
    Ok(address_of(byte))
}

/// Whether the byte stands for the flags of a class.
#[tactic(auto, using(crate::proofs::Tests::and_true))]
fn are_class_flags(byte: u8) -> bool
    ensures { result ≡ (spec.class_flags_number (spec.class_flags_of byte) == byte && always (spec.class_flags_of byte)) }
{
    class_flags_number(class_flags_of(byte)) == byte
}

/// The next byte as the flags of a class.
pub fn read_class_flags(cursor: &mut Cursor<'_>) -> Result<ClassFlags, Stop>
    ensures { Reads (λ f. f) ((code_field spec.class_flags_number spec.class_flags_of always).reads cursor.old) result cursor.new }
{
    let good = are_class_flags(cursor.next_byte());
    let byte = cursor.take_byte(good)?;
    Ok(class_flags_of(byte))
}

/// Whether a field may have these flags, where `is_open` says that members may be private.
fn are_flags(f: FieldFlags, is_open: bool) -> bool
    ensures { result ≡ are_field_flags is_open f }
{
    (!f.is_constant || f.is_static) && (!f.is_private || is_open)
}

/// Whether the byte stands for flags that a field may have.
fn is_flags_byte(byte: u8, is_open: bool) -> bool
    ensures { result ≡ (spec.field_flags_number (spec.field_flags_of byte) == byte && are_field_flags is_open (spec.field_flags_of byte)) }
{
    let flags = field_flags_of(byte);
    field_flags_number(flags) == byte && are_flags(flags, is_open)
}

/// The next byte as the flags of a field.
pub fn read_field_flags(cursor: &mut Cursor<'_>, is_open: bool) -> Result<FieldFlags, Stop>
    ensures { Reads (λ f. f) ((code_field spec.field_flags_number spec.field_flags_of (are_field_flags is_open)).reads cursor.old) result cursor.new }
{
    let good = is_flags_byte(cursor.next_byte(), is_open);
    let byte = cursor.take_byte(good)?;
    Ok(field_flags_of(byte))
}
