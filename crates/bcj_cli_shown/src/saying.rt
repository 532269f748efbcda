ghost use Rattle.std.specs.Prelude.{◌≡◌, ◌⊎◌, ◌++◌, ℕ, List, [], true, codes, decimal, string_bytes, IfOk, OnOk};
ghost use Rattle.bcj_edge.specs.Causes.{Rose, Appends, AppendsFront};
ghost use Rattle.bcj_cli_telling.specs.Faults.{Fails};
ghost use Rattle.bcj_cli_telling.specs.Lines.{line_of, no_memory_text};
ghost use Rattle.bcj_cli_telling.specs.Statuses.{status_no_memory, status_write_fault};
ghost use Rattle.bcj_cli_shown.specs.Causes.{IsCause};
ghost use Rattle.bcj_cli_shown.specs.Shows.{called, status_unlinked};
ghost use Rattle.bcj_cli_shown.specs.Sayings.{IsSaid, SaidInPart, has_text, told_of};

use bcj_cli_telling::{NO_MEMORY, refuse};
use bcj_edge::Sink;
use bcj_linker_objects::{LinkStop, LinkTotal};
use std::alloc::{AllocError, Global};

/// An object isn't well formed, a name stands twice, or a total passes its limit.
pub const UNLINKED: u8 = 7;

/// How an object is called: boot is the first one.
fn called<'a>(file: &'a str, object: u32) -> &'a str
    ensures { result.now ≡ called file.entry.now object }
{
    match object {
        0 => "boot",
        _ => file,
    }
}

/// The place of damage in a file.
fn place_text(alloc: Global, file: &str, at: u32) -> Result<String, AllocError>
    ensures { IfOk result (λ told. string_bytes told ≡ file.now ++ (codes ": malformed at " ++ decimal at)) }
{
    format!(in alloc; "{file}: malformed at {at}")
}

/// The text that tells why an object isn't shown; none for want of memory.
fn cause_text(alloc: Global, file: &str, stop: &LinkStop) -> Result<String, AllocError>
    ensures text { IfOk result (λ told. string_bytes told ≡ told_of file.now stop.now) }
    ensures some { OnOk result (has_text stop.now ≡ true) }
{
    match stop {
        LinkStop::Malformed { at, .. } => place_text(alloc, file, *at),
        LinkStop::Duplicate {
            name,
            first,
            second,
        } => {
            let name = name.as_str();
            let earlier = called(file, *first);
            let later = called(file, *second);
            format!(in alloc; "duplicate {name} in {earlier} and {later}")
        }
        LinkStop::TooLarge { what } => match what {
            LinkTotal::Types => String::from_str(alloc, "too large: types"),
            LinkTotal::Image => String::from_str(alloc, "too large: image"),
        },
        LinkStop::NoMemory => Err(AllocError),
    }
}

fn refuse_for_memory<E: Sink>(err: &mut E) -> u8
    ensures status { Fails result }
    ensures told { result ≡ status_no_memory → Appends (E.taken err.old) (E.taken err.new) no_memory_text }
    ensures part { AppendsFront (E.taken err.old) (E.taken err.new) no_memory_text }
    ensures fault { result ≡ status_write_fault → Rose (E.faults err.old) (E.faults err.new) }
{
    refuse(err, NO_MEMORY, "out of memory", "")
}

/// Says why an object isn't shown.
#[tactic(auto, using(crate::proofs::Refusals::cause_is_told))]
pub fn refuse_object<E: Sink>(alloc: Global, file: &str, stop: &LinkStop, err: &mut E) -> u8
    ensures status { (result ≡ status_unlinked) ⊎ Fails result }
    ensures told { (bytes : List ℕ) → IsCause bytes stop.now → result ≡ status_unlinked → IsSaid file.now bytes (E.taken err.old) (E.taken err.new) }
    ensures no_memory { result ≡ status_no_memory → Appends (E.taken err.old) (E.taken err.new) no_memory_text }
    ensures part { (bytes : List ℕ) → IsCause bytes stop.now → SaidInPart file.now bytes (E.taken err.old) (E.taken err.new) }
    ensures fault { result ≡ status_write_fault → Rose (E.faults err.old) (E.faults err.new) }
{
    match cause_text(alloc, file, stop) {
        Ok(told) => refuse(err, UNLINKED, told.as_str(), ""),
        Err(AllocError) => refuse_for_memory(err),
    }
}
