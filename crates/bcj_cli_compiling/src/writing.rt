// The writing of an object.
ghost use Rattle.std.specs.Prelude.{◌≡◌, ◌≢◌, ◌⊎◌, codes, []};
ghost use Rattle.bcj_edge.specs.Causes.{Rose, Appends};
ghost use Rattle.bcj_edge.specs.Store.{KeepsOthers, Sets};
ghost use Rattle.bcj_cli_telling.specs.Faults.{Fails, Said};
ghost use Rattle.bcj_cli_telling.specs.Lines.{no_memory_text};
ghost use Rattle.bcj_cli_telling.specs.Statuses.{status_done, status_no_memory, status_write_fault};

use crate::saying::refuse_for_memory;
use bcj_cli_telling::{DONE, WRITE_FAULT, refuse};
use bcj_edge::{Files, Sink, WriteStop};

/// Writes an object under a name.
pub fn write_object<F: Files, E: Sink>(name: &str, object: &[u8], files: &mut F, err: &mut E) -> u8
    ensures status { (result ≡ status_done) ⊎ Fails result }
    ensures done { result ≡ status_done → Sets (F.held files.old) (F.held files.new) name.now object.now }
    ensures silent { result ≡ status_done → err.new ≡ err.old }
    ensures no_memory { result ≡ status_no_memory → Appends (E.taken err.old) (E.taken err.new) no_memory_text }
    ensures fault { result ≡ status_write_fault
        → (Rose (F.write_faults files.old) (F.write_faults files.new) × Said (E.taken err.old) (E.taken err.new) (codes "write fault") [])
        ⊎ (Rose (E.faults err.old) (E.faults err.new) × (F.held files.new ≡ F.held files.old) × Said (E.taken err.old) (E.taken err.new) (codes "out of memory") []) }
    ensures kept { result ≢ status_done → result ≢ status_write_fault → F.held files.new ≡ F.held files.old }
    ensures others_kept { result ≡ status_write_fault → KeepsOthers (F.held files.old) (F.held files.new) name.now }
{
    match files.write(name, object) {
        Ok(()) => DONE,
        Err(WriteStop::Failed) => refuse(err, WRITE_FAULT, "write fault", ""),
        Err(WriteStop::NoMemory) => refuse_for_memory(err),
    }
}
