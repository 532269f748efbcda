// Files and sinks: a table for those in memory, and one run over the host's.

use bcj_edge::{Blobs, Bytes, Files, HostFiles, HostSink, MemFiles, MemSink, Sink, Words};
use std::alloc::{AllocError, Global};
use std::test::Fail;
use std::{fs, str};

#[derive(Clone, Copy)]
enum Call {
    Set(&'static str, &'static str),
    Read(&'static str, u32),
    Write(&'static str, &'static str),
}

fn shown(alloc: Global, bytes: &[u8]) -> Result<String, AllocError> {
    match str::from_utf8(bytes) {
        Ok(text) => format!(in alloc; "Ok {text}"),
        Err(_) => String::from_str(alloc, "Ok, not UTF-8"),
    }
}

fn read_shown<F: Files>(
    alloc: Global,
    files: &mut F,
    name: &str,
    limit: u32,
) -> Result<String, AllocError> {
    match files.read(alloc, name, limit) {
        Ok(bytes) => shown(alloc, bytes.as_slice()),
        Err(stop) => format!(in alloc; "{stop}"),
    }
}

fn write_shown<F: Files>(
    alloc: Global,
    files: &mut F,
    name: &str,
    bytes: &[u8],
) -> Result<String, AllocError> {
    match files.write(name, bytes) {
        Ok(()) => String::from_str(alloc, "Ok"),
        Err(stop) => format!(in alloc; "{stop}"),
    }
}

fn is_put<S: Sink>(sink: &mut S, piece: &str) -> bool {
    sink.put(piece.as_bytes()).is_ok()
}

#[test]
fn memory_files_answer_by_call_name_and_limit(rt: HostRuntime) -> Result<(), Fail> {
    let alloc = rt.alloc();
    let mut files = MemFiles::new(alloc);
    files.fail(3)?;
    files.fail(5)?;
    let rows = [
        (Call::Set("a", "xyz"), "Ok"),
        (Call::Read("a", 3), "Ok xyz"),
        (Call::Read("a", 2), "TooLong"),
        (Call::Read("b", 9), "Failed"),
        (Call::Read("b", 9), "Absent"),
        (Call::Write("a", "lost"), "Failed"),
        (Call::Write("b", "q"), "Ok"),
        (Call::Read("b", 1), "Ok q"),
        (Call::Read("a", 3), "Ok xyz"),
        (Call::Set("a", "n"), "Ok"),
        (Call::Read("a", 1), "Ok n"),
        (Call::Set("e", ""), "Ok"),
        (Call::Read("e", 0), "Ok "),
        (Call::Read("b", 0), "TooLong"),
    ];
    for (row, (call, want)) in rows.iter().enumerate() {
        let got = match call {
            Call::Set(name, text) => {
                files.set(name, text.as_bytes())?;
                String::from_str(alloc, "Ok")?
            }
            Call::Read(name, limit) => read_shown(alloc, &mut files, name, *limit)?,
            Call::Write(name, text) => write_shown(alloc, &mut files, name, text.as_bytes())?,
        };
        assert_eq!(rt; got.as_str(), *want, "row {row}");
    }
    Ok(())
}

#[test]
fn memory_sink_takes_what_fits(rt: HostRuntime) -> Result<(), Fail> {
    let alloc = rt.alloc();
    let mut sink = MemSink::new(alloc, 5, Some(3))?;
    let rows = [
        ("ab", true, "Ok ab"),
        ("", true, "Ok ab"),
        ("c", false, "Ok ab"),
        ("cd", true, "Ok abcd"),
        ("ef", false, "Ok abcde"),
        ("", true, "Ok abcde"),
        ("f", false, "Ok abcde"),
    ];
    for (row, (piece, is_ok, taken)) in rows.iter().enumerate() {
        assert_eq!(rt; is_put(&mut sink, piece), *is_ok, "row {row}");
        let got = shown(alloc, sink.taken())?;
        assert_eq!(rt; got.as_str(), *taken, "row {row}");
    }
    Ok(())
}

#[test]
fn lists_keep_their_items(rt: HostRuntime) -> Result<(), Fail> {
    let alloc = rt.alloc();
    let mut words = Words::new(alloc);
    words.push("try")?;
    words.push("")?;
    assert_eq!(rt; words.len(), 2);
    assert_eq!(rt; words.get(0), Some("try"));
    assert_eq!(rt; words.get(1), Some(""));
    assert!(rt; words.get(2).is_none());

    let mut bytes = Bytes::of(Vec::from_slice(alloc, b"abc")?);
    let slice = bytes.as_mut_slice();
    if let Some(last) = slice.last_mut() {
        *last = b'd';
    }
    let mut blobs = Blobs::new(alloc);
    blobs.push(bytes)?;
    assert_eq!(rt; blobs.len(), 1);
    let kept = blobs
        .get(0)
        .is_some_and(|blob| blob.as_slice() == b"abd".as_slice());
    assert!(rt; kept);
    assert!(rt; blobs.get(1).is_none());
    let whole = Bytes::of(vec![in alloc; 7, 8]?).into_vec();
    assert_eq!(rt; whole.as_slice(), [7, 8].as_slice());
    Ok(())
}

#[test]
fn host_files_and_sink(rt: HostRuntime) -> Result<(), Fail> {
    let alloc = rt.alloc();
    let put = "bcj_edge_put.tmp";
    let written = "bcj_edge_written.tmp";
    {
        let mut sink = HostSink::new(fs::create(&rt, put)?);
        assert!(rt; is_put(&mut sink, "12"));
        assert!(rt; is_put(&mut sink, ""));
        assert!(rt; is_put(&mut sink, "345"));
        // Open for reading alone, so each write fails.
        let mut closed = HostSink::new(fs::open(&rt, put)?);
        assert!(rt; !is_put(&mut closed, "6"));
    }
    let mut files = HostFiles::new(&rt);
    let got = write_shown(alloc, &mut files, written, b"abc")?;
    assert_eq!(rt; got.as_str(), "Ok");
    let got = write_shown(alloc, &mut files, "bcj_edge_missing/file", b"abc")?;
    assert_eq!(rt; got.as_str(), "Failed");
    let rows = [
        (put, 5, "Ok 12345"),
        (put, 4, "TooLong"),
        (written, 4_294_967_295, "Ok abc"),
        ("bcj_edge_missing", 9, "Absent"),
        (".", 9, "Failed"),
    ];
    for (name, limit, want) in rows {
        let got = read_shown(alloc, &mut files, name, limit)?;
        assert_eq!(rt; got.as_str(), want, "{name} {limit}");
    }
    fs::remove_file(&rt, put)?;
    fs::remove_file(&rt, written)?;
    Ok(())
}
