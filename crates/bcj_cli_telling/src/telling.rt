// Texts on the sink for errors, and output on the other one.
ghost use Rattle.std.specs.Prelude.{◌≡◌, ◌≢◌, ◌≤◌, ◌⊎◌, OnOk, OnErr, [], codes};
ghost use Rattle.bcj_edge.specs.Causes.{Rose, Appends, AppendsFront};
ghost use Rattle.bcj_cli_telling.specs.Lines.{line_of};
ghost use Rattle.bcj_cli_telling.specs.Statuses.{status_write_fault};
ghost use Rattle.bcj_cli_telling.specs.function.Texts.{read_status, read_text};

use crate::status::{NO_MEMORY, UNREAD, WRITE_FAULT};
use bcj_edge::{Failed, ReadStop, Sink};

/// Puts a text in two parts and a line end, without taking memory.
#[tactic(auto, using(crate::proofs::Parts::parts))]
pub fn say<S: Sink>(sink: &mut S, front: &str, back: &str) -> Result<(), Failed>
    ensures ok { OnOk result (Appends (S.taken sink.old) (S.taken sink.new) (line_of front.now back.now)) }
    ensures part { AppendsFront (S.taken sink.old) (S.taken sink.new) (line_of front.now back.now) }
    ensures failed { OnErr result (Rose (S.faults sink.old) (S.faults sink.new)) }
    ensures later { S.faults sink.old ≤ S.faults sink.new }
{
    sink.put(front.as_bytes())?;
    sink.put(back.as_bytes())?;
    sink.put(b"\n")
}

/// Says why a command ends with `status`, and gives that status, or that of a write fault.
#[tactic(auto, using(crate::proofs::Parts::parts))]
pub fn refuse<S: Sink>(sink: &mut S, status: u8, front: &str, back: &str) -> u8
    ensures status { result ≡ status ⊎ (result ≡ status_write_fault) }
    ensures told { result ≢ status_write_fault → Appends (S.taken sink.old) (S.taken sink.new) (line_of front.now back.now) }
    ensures part { AppendsFront (S.taken sink.old) (S.taken sink.new) (line_of front.now back.now) }
    ensures fault { result ≢ status → Rose (S.faults sink.old) (S.faults sink.new) }
    ensures later { S.faults sink.old ≤ S.faults sink.new }
{
    match say(sink, front, back) {
        Ok(()) => status,
        Err(Failed) => WRITE_FAULT,
    }
}

/// Puts a piece that isn't empty.
#[tactic(auto, using(crate::proofs::Parts::parts))]
pub fn put_some<S: Sink>(sink: &mut S, piece: &[u8]) -> Result<(), Failed>
    ensures empty { piece.now ≡ [] → sink.new ≡ sink.old }
    ensures ok { OnOk result (Appends (S.taken sink.old) (S.taken sink.new) piece.now) }
    ensures part { AppendsFront (S.taken sink.old) (S.taken sink.new) piece.now }
    ensures failed { OnErr result (Rose (S.faults sink.old) (S.faults sink.new)) }
    ensures later { S.faults sink.old ≤ S.faults sink.new }
{
    if piece.is_empty() {
        return Ok(());
    }
    sink.put(piece)
}

/// Says why a file wasn't read.
pub fn refuse_read<E: Sink>(err: &mut E, stop: &ReadStop, file: &str) -> u8
    ensures status { result ≡ read_status stop.now ⊎ (result ≡ status_write_fault) }
    ensures told { result ≢ status_write_fault → Appends (E.taken err.old) (E.taken err.new) (read_text stop.now file.now) }
    ensures part { AppendsFront (E.taken err.old) (E.taken err.new) (read_text stop.now file.now) }
    ensures fault { result ≡ status_write_fault → Rose (E.faults err.old) (E.faults err.new) }
{
    match stop {
        ReadStop::Failed => refuse(err, UNREAD, "cannot read ", file),
        ReadStop::Absent => refuse(err, UNREAD, "cannot open ", file),
        ReadStop::TooLong => refuse(err, UNREAD, "too long ", file),
        ReadStop::NoMemory => refuse(err, NO_MEMORY, "out of memory", ""),
    }
}
