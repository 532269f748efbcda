//! Bytes as an object.

ghost use Rattle.std.specs.Prelude.{◌≡◌, ◌≢◌, ◌≤◌, length, take, drop, IfOk, IfErr, IfSome, IfNone};
ghost use Rattle.bcj_elf.specs.Plain.{plain, PlainObject};
ghost use Rattle.bcj_elf.specs.Layout.{rec_at, sizes};
ghost use Rattle.bcj_elf.specs.Rules.{IsObject};
ghost use Rattle.bcj_elf.specs.Spelling.{spelling};
ghost use Rattle.bcj_elf.specs.Stops.{IsBadAt};

use crate::cutting::parts_of;
use crate::decoding::object_in;
use crate::elf::{SECTION_HEADER_SIZE, SH_OFFSET};
use crate::judging::judge_file;
use crate::object::Object;
use crate::parts::{behind, word_of};
use crate::rules::is_object;
use crate::sizes::{ALL_HEADERS_SIZE, REC_INDEX, SECTION_HEADERS_SIZE};
use crate::stop::ElfStop;
use crate::writing::write;
use std::alloc::{AllocError, Global};

/// The object that the bytes spell, if there is one.
fn accepted(alloc: Global, bytes: &[u8]) -> Result<Option<Object>, AllocError>
    ensures some { IfOk result (λ r. IfSome r (λ o. IsObject (plain o) × (spelling (plain o) ≡ bytes.now))) }
    ensures none { IfOk result (λ r. IfNone r ((p : PlainObject) → IsObject p → spelling p ≡ bytes.now → ⊥)) }
{
    let Some(parts) = parts_of(bytes) else {
        return Ok(None);
    };
    let o = object_in(alloc, &parts)?;
    if !is_object(&o) {
        return Ok(None);
    }
    let again = write(alloc, &o)?;
    if again.as_slice() == bytes {
        Ok(Some(o))
    } else {
        Ok(None)
    }
}

/// The object that these bytes spell, in memory of a small multiple of their number. The first wrong
/// field is the first in this order: the header, the section headers, where the contents end, the
/// padding, and the contents of `.shstrtab`, `.strtab`, `.symtab`, `.rela.text` and `.rela.bcj.tab`.
pub fn read(alloc: Global, bytes: &[u8]) -> Result<Object, ElfStop>
    ensures found { IfOk result (λ o. IsObject (plain o) × (spelling (plain o) ≡ bytes.now)) }

    // No other object has these bytes.
    ensures only { IfOk result (λ o. (p : PlainObject) → IsObject p → spelling p ≡ bytes.now → plain o ≡ p) }

    // The bad field is the first one in the order of reading.
    ensures place { IfErr result (IsBadAt bytes.now) }

    // A file is refused only where no object has these bytes.
    ensures bad { IfErr result (λ e. e ≢ ElfStop.NoMemory → (p : PlainObject) → IsObject p → spelling p ≡ bytes.now → ⊥) }
{
    match accepted(alloc, bytes)? {
        Some(o) => Ok(o),
        None => match judge_file(bytes) {
            Err(field) => Err(ElfStop::Bad {
                at: field.at,
                what: field.what,
            }),
            // A file with no bad field spells an object.
            Ok(()) => unreachable!(),
        },
    }
}

/// The offset at which the class records stand in a file that `read` accepts.
pub fn rec_start(bytes: &[u8]) -> u32
    ensures place { (p : PlainObject) → IsObject p → spelling p ≡ bytes.now → result ≡ rec_at (sizes p) }
    ensures records { (p : PlainObject) → IsObject p → spelling p ≡ bytes.now → take (length p.rec) (drop result bytes.now) ≡ p.rec }
{
    if bytes.len() < ALL_HEADERS_SIZE {
        return 0;
    }
    let headers = behind(bytes, bytes.len() - SECTION_HEADERS_SIZE);
    word_of(
        headers,
        REC_INDEX * SECTION_HEADER_SIZE as usize + SH_OFFSET,
    )
}

/// No two objects have one spelling.
pub fn one_spelling()
    ensures { (p q : PlainObject) → IsObject p → IsObject q → spelling p ≡ spelling q → p ≡ q }
{}
