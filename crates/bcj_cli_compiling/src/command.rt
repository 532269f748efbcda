// The command that compiles a source.
ghost use Rattle.std.specs.Prelude.{◌≡◌, ◌≢◌, ◌==◌, IsTrue, IsSome, IfSome};
ghost use Rattle.std.specs.List.{list_any};
ghost use Rattle.bcj_edge.specs.Causes.{Rose, Appends};
ghost use Rattle.bcj_edge.specs.Store.{KeepsOthers};
ghost use Rattle.bcj_cli_telling.specs.Faults.{counts};
ghost use Rattle.bcj_cli_telling.specs.Lines.{no_memory_text};
ghost use Rattle.bcj_cli_telling.specs.Statuses.{compile_statuses, status_done, status_no_memory, status_refused, status_unread, status_write_fault};
ghost use Rattle.bcj_cli_compiling.specs.Compilations.{CompileFault, CompileStatus, Compiled, SourceUnread, Uncompiled};
ghost use Rattle.bcj_cli_compiling.specs.Form.{compilation_of};

use crate::form::{FIRST_SOURCE, OBJECT};
use crate::saying::{refuse_for_memory, refuse_source};
use crate::sources::read_sources;
use crate::writing::write_object;
use bcj_cli_compile::{CompileStop, compile};
use bcj_cli_telling::refuse_read;
use bcj_edge::{Files, Sink, Words};
use std::alloc::Global;

/// Which of the sources is compiled.
const OWN_SOURCE: u32 = 0;

/// Does what the words `compile OUT UNIT CONTEXT*` ask for, and gives its status. The object is written once it is complete.
pub fn compile_command<F: Files, E: Sink>(
    alloc: Global,
    words: &Words,
    files: &mut F,
    err: &mut E,
) -> u8
    requires { IsSome (compilation_of words.now) }
    ensures known { IsTrue (list_any (λ s. s == result) compile_statuses) }
    ensures compiled { IfSome (compilation_of words.now) (λ asked. result ≡ status_done → Compiled (F.held files.old) asked (F.held files.new)) }
    ensures silent { result ≡ status_done → err.new ≡ err.old }
    ensures uncompiled { IfSome (compilation_of words.now) (λ asked. result ≡ status_refused → Uncompiled (F.held files.old) asked (Appends (E.taken err.old) (E.taken err.new))) }
    ensures source_unread { IfSome (compilation_of words.now) (λ asked. result ≡ status_unread → SourceUnread (F.held files.old) asked
        (counts (F.read_faults files.old) (F.absents files.old) (F.overs files.old))
        (counts (F.read_faults files.new) (F.absents files.new) (F.overs files.new))
        (E.taken err.old) (E.taken err.new)) }
    ensures fault { IfSome (compilation_of words.now) (λ asked. result ≡ status_write_fault → CompileFault (F.held files.old) asked (F.held files.new)
        (Rose (F.write_faults files.old) (F.write_faults files.new)) (Rose (E.faults err.old) (E.faults err.new)) (E.taken err.old) (E.taken err.new)) }
    ensures no_memory { result ≡ status_no_memory → Appends (E.taken err.old) (E.taken err.new) no_memory_text }
    ensures kept { result ≢ status_done → result ≢ status_write_fault → F.held files.new ≡ F.held files.old }
    ensures others_kept { IfSome (compilation_of words.now) (λ asked. result ≡ status_write_fault → KeepsOthers (F.held files.old) (F.held files.new) asked.out) }

    // Where the files tell what they hold, they and the words decide the status.
    ensures status { IfSome (F.held files.old) (λ m. IfSome (compilation_of words.now) (λ asked. CompileStatus m asked.files result (Rose (F.read_faults files.old) (F.read_faults files.new)))) }
{
    let sources = match read_sources(alloc, words, files) {
        Ok(sources) => sources,
        Err(unread) => return refuse_read(err, &unread.stop, unread.file),
    };
    match compile(alloc, &sources, OWN_SOURCE) {
        Ok(object) => {
            let Some(name) = words.get(OBJECT) else {
                unreachable!()
            };
            write_object(name, object.as_slice(), files, err)
        }
        Err(CompileStop::Refused { file, at, kind }) => {
            let Some(name) = words.get(file as usize + FIRST_SOURCE) else {
                unreachable!()
            };
            refuse_source(alloc, name, at, kind.as_str(), err)
        }
        Err(CompileStop::NoMemory) => refuse_for_memory(err),
    }
}
