// The sources that a compilation names.
ghost use Rattle.std.specs.Prelude.{◌≡◌, ◌<◌, ◌≤◌, ◌^◌, length, OnOk, IfOk};
ghost use Rattle.std.specs.Result.{IfErr};
ghost use Rattle.bcj_cli_telling.specs.Faults.{counts};
ghost use Rattle.bcj_cli_compiling.specs.Compilations.{HaveTexts};
ghost use Rattle.bcj_cli_compiling.specs.function.Named.{IsPushed, Later, StopsAt, WhyUnread, named_in};

use crate::form::FIRST_SOURCE;
use bcj_cli_telling::MAX_SOURCE_BYTES;
use bcj_edge::{Blobs, Files, ReadStop, Words};
use std::alloc::{AllocError, Global};

/// How many sources a list of them may hold.
const MAX_SOURCES: usize = 4_294_967_295;

/// A file that wasn't read.
#[derive(Drop)]
pub struct Unread<'a> {
    pub file: &'a str,
    pub stop: ReadStop,
}

/// Reads a source and puts it behind others.
fn push_source<F: Files>(
    alloc: Global,
    file: &str,
    files: &mut F,
    sources: &mut Blobs,
) -> Result<(), ReadStop>
    ensures ok { OnOk result (IsPushed (F.held files.old) file.now sources.old sources.new) }
    ensures few { OnOk result (length sources.new < 2 ^ 32) }
    ensures stopped { IfErr result (WhyUnread (F.held files.old) file.now
        (counts (F.read_faults files.old) (F.absents files.old) (F.overs files.old))
        (counts (F.read_faults files.new) (F.absents files.new) (F.overs files.new))) }
    ensures later { Later (counts (F.read_faults files.old) (F.absents files.old) (F.overs files.old)) (counts (F.read_faults files.new) (F.absents files.new) (F.overs files.new)) }
    ensures write_later { F.write_faults files.old ≤ F.write_faults files.new }
    ensures held { F.held files.new ≡ F.held files.old }
{
    if sources.len() >= MAX_SOURCES {
        return Err(ReadStop::NoMemory);
    }
    let text = files.read(alloc, file, MAX_SOURCE_BYTES)?;
    match sources.push(text) {
        Ok(()) => Ok(()),
        Err(AllocError) => Err(ReadStop::NoMemory),
    }
}

/// Reads the sources in the order of the words.
pub fn read_sources<'a, F: Files>(
    alloc: Global,
    words: &'a Words,
    files: &mut F,
) -> Result<Blobs, Unread<'a>>
    ensures ok { IfOk result (λ texts. HaveTexts (F.held files.old) (named_in words.entry.now).files texts) }
    ensures few { IfOk result (λ texts. length texts < 2 ^ 32) }
    ensures stopped { IfErr result (λ e. StopsAt (F.held files.old) (named_in words.entry.now).files
        (counts (F.read_faults files.old) (F.absents files.old) (F.overs files.old))
        (counts (F.read_faults files.new) (F.absents files.new) (F.overs files.new)) e.file.now e.stop) }
    ensures write_later { F.write_faults files.old ≤ F.write_faults files.new }
    ensures held { F.held files.new ≡ F.held files.old }
{
    let mut sources = Blobs::new(alloc);
    for at in FIRST_SOURCE..words.len() {
        let Some(file) = words.get(at) else {
            unreachable!()
        };
        match push_source(alloc, file, files, &mut sources) {
            Ok(()) => {}
            Err(stop) => return Err(Unread { file, stop }),
        }
    }
    Ok(sources)
}
