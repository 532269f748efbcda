// The top call over files and sinks in memory of which one fails.

use bcj_cli::top;
use bcj_edge::{Failed, MemFiles, MemSink, Sink, Words};
use std::alloc::{AllocError, Global};
use std::str;
use std::test::Fail;

/// `int i = 0; while (i < 3) { System.out.println(i); i = i + 1; }`
const COUNT: &str =
    "class Main { static void main() { int i = 0; while (i < 3) { System.out.println(i); i = i + 1; } } }";

fn words_of(alloc: Global, command: &str) -> Result<Words, AllocError> {
    let mut words = Words::new(alloc);
    for word in command.split(' ') {
        if words.len() < 99 {
            words.push(word)?;
        }
    }
    Ok(words)
}

/// The status, what was put out, and what was said of errors, where the call of the files and the puts with these numbers fail.
fn answer(alloc: Global, command: &str, call: u32, puts: (u32, u32)) -> Result<String, AllocError> {
    let mut files = MemFiles::new(alloc);
    files.set("Main.java", COUNT.as_bytes())?;
    files.fail(call)?;
    let mut out = MemSink::new(alloc, 99, Some(puts.0))?;
    let mut err = MemSink::new(alloc, 99, Some(puts.1))?;
    let words = words_of(alloc, command)?;
    let status = top(alloc, &words, &mut files, &mut out, &mut err);
    let out = str::from_utf8(out.taken()).unwrap_or("?");
    let err = str::from_utf8(err.taken()).unwrap_or("?");
    format!(in alloc; "{status}|{out}|{err}")
}

#[test]
fn faults_have_statuses_and_texts(rt: HostRuntime) -> Result<(), Fail> {
    // No call has the number 0.
    let rows = [
        ("try Main Main.java", 2, (0, 0), "0|0\n1\n2\n|"),
        (
            "try Main Main.java",
            1,
            (0, 0),
            "8||cannot read Main.java\n",
        ),
        ("try Main Main.java", 0, (1, 0), "9||write fault\n"),
        ("try Main No.java", 0, (0, 1), "9||"),
        ("try Main No.java", 0, (0, 2), "9||cannot open "),
        ("try --turns 4 Main Main.java", 0, (0, 1), "9|0\n|"),
        (
            "compile m.o Main.java",
            1,
            (0, 0),
            "8||cannot read Main.java\n",
        ),
        (
            "compile m.o Main.java Main.java",
            2,
            (0, 0),
            "8||cannot read Main.java\n",
        ),
        ("compile m.o Main.java", 2, (0, 0), "9||write fault\n"),
        ("compile m.o Main.java", 2, (0, 1), "9||"),
        ("compile m.o No.java", 0, (0, 2), "9||cannot open "),
        ("compile m.o Main.java Main.java", 0, (0, 2), "9||Main.java"),
    ];
    for (command, call, puts, expected) in rows {
        assert_eq!(rt;
            answer(rt.alloc(), command, call, puts)?.as_str(),
            expected,
            "{command}"
        );
    }
    Ok(())
}

/// A sink that takes nothing.
#[derive(Drop)]
struct Broken {
    faults: u64,
}

impl Sink for Broken {
    ghost use Rattle.std.specs.Prelude.{Some, []};

    ghost taken = { λ _. Some [] };

    ghost faults = { λ s. s.faults };

    fn put(&mut self, _bytes: &[u8]) -> Result<(), Failed> {
        self.faults = self.faults.saturating_add(1);
        Err(Failed)
    }
}

#[test]
fn a_sink_that_takes_nothing_is_a_write_fault(rt: HostRuntime) -> Result<(), Fail> {
    let alloc = rt.alloc();
    let mut files = MemFiles::new(alloc);
    files.set("Main.java", COUNT.as_bytes())?;
    let mut err = MemSink::new(alloc, 3, None)?;
    let words = words_of(alloc, "try Main Main.java")?;
    let status = top(
        alloc,
        &words,
        &mut files,
        &mut Broken { faults: 0 },
        &mut err,
    );
    assert_eq!(rt; status, 9);
    assert_eq!(rt; err.taken(), b"wri".as_slice());
    Ok(())
}
