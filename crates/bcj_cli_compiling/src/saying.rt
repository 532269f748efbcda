// What is said of sources that give no object.
ghost use Rattle.std.specs.Prelude.{◌≡◌, ◌⊎◌};
ghost use Rattle.bcj_edge.specs.Causes.{Rose, Appends, AppendsFront};
ghost use Rattle.bcj_cli_telling.specs.Faults.{Fails};
ghost use Rattle.bcj_cli_telling.specs.Lines.{line_of, no_memory_text, place_and_kind};
ghost use Rattle.bcj_cli_telling.specs.Statuses.{status_no_memory, status_refused, status_write_fault};

use bcj_cli_telling::{NO_MEMORY, REFUSED, refuse};
use bcj_edge::Sink;
use std::alloc::{AllocError, Global};

pub fn refuse_for_memory<E: Sink>(err: &mut E) -> u8
    ensures status { Fails result }
    ensures told { result ≡ status_no_memory → Appends (E.taken err.old) (E.taken err.new) no_memory_text }
    ensures part { AppendsFront (E.taken err.old) (E.taken err.new) no_memory_text }
    ensures fault { result ≡ status_write_fault → Rose (E.faults err.old) (E.faults err.new) }
{
    refuse(err, NO_MEMORY, "out of memory", "")
}

/// Says at which place of a file a cause of refusal stands, and of what kind it is.
pub fn refuse_source<E: Sink>(alloc: Global, file: &str, at: u32, kind: &str, err: &mut E) -> u8
    ensures status { (result ≡ status_refused) ⊎ Fails result }
    ensures told { result ≡ status_refused → Appends (E.taken err.old) (E.taken err.new) (line_of file.now (place_and_kind at kind.now)) }
    ensures no_memory { result ≡ status_no_memory → Appends (E.taken err.old) (E.taken err.new) no_memory_text }
    ensures part { AppendsFront (E.taken err.old) (E.taken err.new) (line_of file.now (place_and_kind at kind.now))
        ⊎ AppendsFront (E.taken err.old) (E.taken err.new) no_memory_text }
    ensures fault { result ≡ status_write_fault → Rose (E.faults err.old) (E.faults err.new) }
{
    match format!(in alloc; ":{at}: {kind}") {
        Ok(told) => refuse(err, REFUSED, file, told.as_str()),
        Err(AllocError) => refuse_for_memory(err),
    }
}
