// The top call.
ghost use Rattle.std.specs.Prelude.{◌≡◌, ◌≢◌, ◌⊎◌, ℕ, ◌≤◌, ◌==◌, Bool, true, false, List, [], ◌∷◌, length, Option, Some, None, IsTrue, IfSome, IsSomeAnd, codes, if◌then◌else◌};
ghost use Rattle.std.specs.List.{list_any};
ghost use Rattle.bcj_edge.specs.Causes.{Rose, Appends, AppendsFront};
ghost use Rattle.bcj_edge.specs.Store.{KeepsOthers};
ghost use Rattle.bcj_cli.specs.Command.{request_of};
ghost use Rattle.bcj_cli_telling.specs.Lines.{line_of, no_memory_text};
ghost use Rattle.bcj_cli_compiling.specs.Form.{compilation_of};
ghost use Rattle.bcj_cli_compiling.specs.Compilations.{Compiled, Uncompiled, SourceUnread, CompileFault, CompileStatus};
ghost use Rattle.bcj_cli_telling.specs.Faults.{Counts, Said, counts};
ghost use Rattle.bcj_cli.specs.Runs.{Ran, RanInPart, Refused, UnreadOf, StatusOf, WriteFault};
ghost use Rattle.bcj_cli_telling.specs.Statuses.{statuses, compile_statuses, status_done, status_bad_words, status_turns_spent, status_refused, status_unread, status_write_fault, status_no_memory};
ghost use Rattle.bcj_cli.specs.function.Texts.{source_status, source_text};

use crate::command::read_words;
use crate::source::{Printed, SourceStop, run_source};
use bcj_cli_compiling::{asks_to_compile, compile_command};
use bcj_cli_telling::{
    BAD_WORDS, DONE, MAX_SOURCE_BYTES, NO_MEMORY, REFUSED, TURNS_SPENT, WRITE_FAULT, put_some,
    refuse, refuse_read,
};
use bcj_edge::{Files, Sink, Words};
use std::alloc::Global;

/// Does what the words of a command ask for, and gives its status, one of `specs/Statuses.antt`. Every status but that of a run
/// that came to its end has a text on `err`.
pub fn top<F: Files, O: Sink, E: Sink>(
    alloc: Global,
    words: &Words,
    files: &mut F,
    out: &mut O,
    err: &mut E,
) -> u8
    ensures known { IsTrue (list_any (λ s. s == result) statuses) }

    // Words of no command.
    ensures bad_words { result ≡ status_bad_words → (request_of words.now ≡ None) × (compilation_of words.now ≡ None) }
    ensures form { request_of words.now ≡ None → compilation_of words.now ≡ None → result ≡ status_bad_words ⊎ result ≡ status_write_fault }
    ensures bad_words_text { result ≡ status_bad_words → Appends (E.taken err.old) (E.taken err.new) (line_of (codes "bad words") []) }
    ensures unasked { request_of words.now ≡ None → compilation_of words.now ≡ None → files.new ≡ files.old }

    // All commands.
    ensures no_memory { result ≡ status_no_memory → Appends (E.taken err.old) (E.taken err.new) no_memory_text }
    ensures quiet { result ≢ status_done → result ≢ status_turns_spent → result ≢ status_write_fault → out.new ≡ out.old }
    ensures silent { result ≡ status_done → err.new ≡ err.old }

    // `try`.
    ensures done { compilation_of words.now ≡ None → result ≡ status_done → Ran (F.held files.old) words.now true (O.taken out.old) (O.taken out.new) (out.new ≡ out.old) }
    ensures spent { result ≡ status_turns_spent → Ran (F.held files.old) words.now false (O.taken out.old) (O.taken out.new) (out.new ≡ out.old) }
    ensures spent_text { result ≡ status_turns_spent → Appends (E.taken err.old) (E.taken err.new) (line_of (codes "turns spent") []) }
    ensures refused { compilation_of words.now ≡ None → result ≡ status_refused → Refused (F.held files.old) words.now (E.taken err.old) (E.taken err.new) }
    ensures unread { compilation_of words.now ≡ None → result ≡ status_unread → UnreadOf (F.held files.old) words.now
        (counts (F.read_faults files.old) (F.absents files.old) (F.overs files.old))
        (counts (F.read_faults files.new) (F.absents files.new) (F.overs files.new))
        (E.taken err.old) (E.taken err.new) }
    ensures write_fault { compilation_of words.now ≡ None → result ≡ status_write_fault → WriteFault (F.held files.old) words.now (Rose (O.faults out.old) (O.faults out.new)) (Rose (E.faults err.old) (E.faults err.new))
        (E.taken err.old) (E.taken err.new) }
    ensures part { (out.new ≡ out.old) ⊎ RanInPart (F.held files.old) words.now (O.taken out.old) (O.taken out.new) }
    ensures files { compilation_of words.now ≡ None → F.held files.new ≡ F.held files.old }

    // Where the files tell what they hold, they and the words decide the status.
    ensures status { StatusOf (F.held files.old) words.now result (Rose (F.read_faults files.old) (F.read_faults files.new)) }

    // `compile`.
    ensures compile_known { IfSome (compilation_of words.now) (λ asked. IsTrue (list_any (λ s. s == result) compile_statuses)) }
    ensures compiled { IfSome (compilation_of words.now) (λ asked. result ≡ status_done → Compiled (F.held files.old) asked (F.held files.new)) }
    ensures uncompiled { IfSome (compilation_of words.now) (λ asked. result ≡ status_refused → Uncompiled (F.held files.old) asked (Appends (E.taken err.old) (E.taken err.new))) }
    ensures source_unread { IfSome (compilation_of words.now) (λ asked. result ≡ status_unread → SourceUnread (F.held files.old) asked
        (counts (F.read_faults files.old) (F.absents files.old) (F.overs files.old))
        (counts (F.read_faults files.new) (F.absents files.new) (F.overs files.new))
        (E.taken err.old) (E.taken err.new)) }
    ensures compile_fault { IfSome (compilation_of words.now) (λ asked. result ≡ status_write_fault → CompileFault (F.held files.old) asked (F.held files.new)
        (Rose (F.write_faults files.old) (F.write_faults files.new)) (Rose (E.faults err.old) (E.faults err.new)) (E.taken err.old) (E.taken err.new)) }
    ensures kept { IfSome (compilation_of words.now) (λ asked. result ≢ status_done → result ≢ status_write_fault → F.held files.new ≡ F.held files.old) }
    ensures others_kept { IfSome (compilation_of words.now) (λ asked. result ≡ status_write_fault → KeepsOthers (F.held files.old) (F.held files.new) asked.out) }
    ensures unput { IfSome (compilation_of words.now) (λ asked. out.new ≡ out.old) }

    // Where the files tell what they hold, they and the words decide the status.
    ensures compile_status { IfSome (F.held files.old) (λ m. IfSome (compilation_of words.now) (λ asked. CompileStatus m asked.files result (Rose (F.read_faults files.old) (F.read_faults files.new)))) }
{
    if asks_to_compile(words) {
        return compile_command(alloc, words, files, err);
    }
    let Some(request) = read_words(words) else {
        return refuse(err, BAD_WORDS, "bad words", "");
    };
    let text = match files.read(alloc, request.file, MAX_SOURCE_BYTES) {
        Ok(text) => text,
        Err(stop) => return refuse_read(err, &stop, request.file),
    };
    match run_source(alloc, request.main, text.as_slice(), request.turns) {
        Ok(printed) => finish(&printed, out, err),
        Err(stop) => refuse_source(err, &stop, request.file),
    }
}

/// Says why a source didn't run.
fn refuse_source<E: Sink>(err: &mut E, stop: &SourceStop, file: &str) -> u8
    ensures status { result ≡ source_status stop.now ⊎ (result ≡ status_write_fault) }
    ensures told { result ≢ status_write_fault → Appends (E.taken err.old) (E.taken err.new) (source_text stop.now file.now) }
    ensures part { AppendsFront (E.taken err.old) (E.taken err.new) (source_text stop.now file.now) }
    ensures fault { result ≡ status_write_fault → Rose (E.faults err.old) (E.faults err.new) }
{
    match stop {
        SourceStop::Refused(told) => refuse(err, REFUSED, file, told.as_str()),
        SourceStop::NoMemory => refuse(err, NO_MEMORY, "out of memory", ""),
    }
}

/// Puts what a run printed, and says so where its turns were spent.
fn finish<O: Sink, E: Sink>(printed: &Printed, out: &mut O, err: &mut E) -> u8
    ensures status { (result ≡ (if printed.now.finished then status_done else status_turns_spent)) ⊎ (result ≡ status_write_fault) }
    ensures whole { result ≢ status_write_fault → Appends (O.taken out.old) (O.taken out.new) printed.now.out.items }
    ensures part { AppendsFront (O.taken out.old) (O.taken out.new) printed.now.out.items }
    ensures spent_text { result ≡ status_turns_spent → Appends (E.taken err.old) (E.taken err.new) (line_of (codes "turns spent") []) }
    ensures silent { result ≡ status_done → err.new ≡ err.old }
    ensures nothing { printed.now.out.items ≡ [] → out.new ≡ out.old }
    ensures fault { result ≡ status_write_fault
        → (Rose (O.faults out.old) (O.faults out.new) × Said (E.taken err.old) (E.taken err.new) (codes "write fault") [])
        ⊎ (Rose (E.faults err.old) (E.faults err.new) × Said (E.taken err.old) (E.taken err.new) (codes "turns spent") []) }
{
    if put_some(out, printed.out.as_slice()).is_err() {
        return refuse(err, WRITE_FAULT, "write fault", "");
    }
    if printed.finished {
        DONE
    } else {
        refuse(err, TURNS_SPENT, "turns spent", "")
    }
}
