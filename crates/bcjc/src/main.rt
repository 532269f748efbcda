//! The program: `compile` and its words, the files of the current folder, and the standard streams, for `bcj_cli`'s top call.
#![tactic(auto)]

use bcj_cli::{BAD_WORDS, NO_MEMORY, top};
use bcj_edge::{HostFiles, HostSink, Words};
use std::env::{self, Env};
use std::io::ErrorKind;
use std::process::ExitCode;

/// The word that stands before those of the process.
const COMMAND: &str = "compile";

/// How many words a list of them may hold.
const MAX_WORDS: usize = 4_294_967_295;

/// The command, and the words behind the program's name; or the status where they can't be taken.
fn take_words<R: Env + AllocGlobal>(rt: &R) -> Result<Words, u8> {
    let given = match env::args(rt) {
        Ok(given) => given,
        Err(e) if e.kind() == ErrorKind::InvalidData => return Err(BAD_WORDS),
        Err(_) => return Err(NO_MEMORY),
    };
    let mut words = Words::new(rt.alloc());
    if words.push(COMMAND).is_err() {
        return Err(NO_MEMORY);
    }
    for word in given.skip(1) {
        if words.len() >= MAX_WORDS {
            return Err(BAD_WORDS);
        }
        if words.push(word.as_str()).is_err() {
            return Err(NO_MEMORY);
        }
    }
    Ok(words)
}

fn main(rt: HostRuntime) -> ExitCode {
    let words = match take_words(&rt) {
        Ok(words) => words,
        Err(status) => return ExitCode::from(status),
    };
    let mut files = HostFiles::new(&rt);
    let mut out = HostSink::new(rt.stdout());
    let mut err = HostSink::new(rt.stderr());
    ExitCode::from(top(rt.alloc(), &words, &mut files, &mut out, &mut err))
}
