ghost use Rattle.std.specs.Prelude.{◌≡◌, ◌≢◌, ◌==◌, ◌⊎◌, [], codes, IsTrue, IsSome, IfSome};
ghost use Rattle.std.specs.List.{list_any};
ghost use Rattle.bcj_edge.specs.Causes.{Rose, Appends, AppendsFront};
ghost use Rattle.bcj_cli_telling.specs.Faults.{counts, Said};
ghost use Rattle.bcj_cli_telling.specs.Lines.{no_memory_text};
ghost use Rattle.bcj_cli_telling.specs.Statuses.{status_done, status_no_memory, status_unread, status_write_fault};
ghost use Rattle.bcj_cli_shown.specs.Form.{shown_file};
ghost use Rattle.bcj_cli_shown.specs.Shows.{show_statuses, status_unlinked, ObjectUnread, Shown, ShowFault, Unshown};

use crate::form::OBJECT;
use crate::saying::refuse_object;
use crate::text::text_of;
use bcj_cli_showing::put_pieces;
use bcj_cli_telling::{DONE, WRITE_FAULT, refuse, refuse_read};
use bcj_edge::{Failed, Files, Sink, Words};
use std::alloc::Global;

/// The most bytes of an object file.
const MAX_OBJECT_BYTES: u32 = 4_194_304;

/// Puts a whole text on the output.
fn put_text<O: Sink, E: Sink>(text: &[u8], out: &mut O, err: &mut E) -> u8
    ensures status { (result ≡ status_done) ⊎ (result ≡ status_write_fault) }
    ensures done { result ≡ status_done → Appends (O.taken out.old) (O.taken out.new) text.now }
    ensures silent { result ≡ status_done → err.new ≡ err.old }
    ensures part { AppendsFront (O.taken out.old) (O.taken out.new) text.now }
    ensures fault { result ≡ status_write_fault → Rose (O.faults out.old) (O.faults out.new) }
    ensures said { result ≡ status_write_fault → Said (E.taken err.old) (E.taken err.new) (codes "write fault") [] }
{
    match put_pieces(out, text) {
        Ok(()) => DONE,
        Err(Failed) => refuse(err, WRITE_FAULT, "write fault", ""),
    }
}

/// Does what the words `show OBJECT` ask for, and gives its status.
pub fn show_command<F: Files, O: Sink, E: Sink>(
    alloc: Global,
    words: &Words,
    files: &mut F,
    out: &mut O,
    err: &mut E,
) -> u8
    requires { IsSome (shown_file words.now) }
    ensures known { IsTrue (list_any (λ s. s == result) show_statuses) }
    ensures shown { IfSome (shown_file words.now) (λ file. result ≡ status_done → Shown (F.held files.old) file (O.taken out.old) (O.taken out.new)) }
    ensures silent { result ≡ status_done → err.new ≡ err.old }
    ensures unshown { IfSome (shown_file words.now) (λ file. result ≡ status_unlinked → Unshown (F.held files.old) file (Appends (E.taken err.old) (E.taken err.new))) }
    ensures unread { IfSome (shown_file words.now) (λ file. result ≡ status_unread → ObjectUnread (F.held files.old) file
        (counts (F.read_faults files.old) (F.absents files.old) (F.overs files.old))
        (counts (F.read_faults files.new) (F.absents files.new) (F.overs files.new))
        (E.taken err.old) (E.taken err.new)) }
    ensures fault { IfSome (shown_file words.now) (λ file. result ≡ status_write_fault → ShowFault (F.held files.old) file
        (Rose (O.faults out.old) (O.faults out.new)) (out.new ≡ out.old) (Rose (E.faults err.old) (E.faults err.new))
        (O.taken out.old) (O.taken out.new) (E.taken err.old) (E.taken err.new)) }
    ensures no_memory { result ≡ status_no_memory → Appends (E.taken err.old) (E.taken err.new) no_memory_text }
    ensures unput { result ≢ status_done → result ≢ status_write_fault → out.new ≡ out.old }
    ensures kept { F.held files.new ≡ F.held files.old }
{
    let Some(file) = words.get(OBJECT) else {
        unreachable!()
    };
    let object = match files.read(alloc, file, MAX_OBJECT_BYTES) {
        Ok(object) => object,
        Err(stop) => return refuse_read(err, &stop, file),
    };
    match text_of(alloc, object) {
        Ok(text) => put_text(text.as_slice(), out, err),
        Err(stop) => refuse_object(alloc, file, &stop, err),
    }
}
