//! The renderer as a program: the command words, the files of the current folder, and standard error.
#![tactic(auto)]

use povfix::{FolderTexts, run};
use shelf::{FolderShelf, Sink, StdSink};
use std::process::ExitCode;
use std::{env, io};

/// The status where a word isn't UTF-8.
const BAD_WORD: u8 = 1;

/// The status where there is no memory for the words.
const NO_MEMORY: u8 = 9;

/// The words behind the program's own name.
fn words(rt: &HostRuntime) -> io::Result<Vec<String>> {
    let mut words = Vec::new(rt.alloc());
    for word in env::args(rt)?.skip(1) {
        words.push(word)?;
    }
    Ok(words)
}

fn main(rt: HostRuntime) -> ExitCode {
    let mut messages = StdSink::new(rt.stderr());
    let words = match words(&rt) {
        Ok(words) => words,
        Err(error) if error.kind() == io::ErrorKind::InvalidData => {
            let _ = messages.write(b"option fault 7 at word 0\n");
            return ExitCode::from(BAD_WORD);
        }
        Err(_) => {
            let _ = messages.write(b"no memory\n");
            return ExitCode::from(NO_MEMORY);
        }
    };
    let mut texts = FolderTexts::new(rt);
    let shelf = FolderShelf::new(rt, rt.alloc());
    let outcome = run(&rt, rt.alloc(), &words, &mut texts, shelf, &mut messages);
    ExitCode::from(outcome.status)
}
