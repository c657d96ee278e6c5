// One run over memory, and what it comes to, as a line.
use povfix::{Fault, MemTexts, Outcome, run};
use scene_lexer::Place;
use shelf::{MemShelf, MemSink};
use std::alloc::{AllocError, Global};
use std::thread::Threads;

/// What a run left: its outcome, and what it told the sink.
#[derive(Drop)]
pub struct Left {
    pub outcome: Outcome<MemShelf>,
    pub told: MemSink,
}

/// Words as the program gets them.
pub fn asked(alloc: Global, words: &[&str]) -> Result<Vec<String>, AllocError> {
    let mut asked = Vec::new(alloc);
    for word in words {
        asked.push(String::from_str(alloc, word)?)?;
    }
    Ok(asked)
}

/// Runs the words over texts by their names, of which the reading of a number fails, storage without files, and a sink
/// with so much room.
pub fn tried(
    rt: &(impl Threads + Sync),
    alloc: Global,
    words: &[&str],
    texts: &[(&str, &[u8])],
    room: u64,
    failing: Option<u64>,
) -> Result<Left, AllocError> {
    let asked = asked(alloc, words)?;
    let mut held = MemTexts::new(alloc);
    for (name, bytes) in texts {
        held.add(alloc, name.as_bytes(), bytes)?;
    }
    if let Some(call) = failing {
        held.fail_on(call);
    }
    let mut told = MemSink::with_room(alloc, room)?;
    let shelf = MemShelf::new(alloc);
    let outcome = run(rt, alloc, &asked, &mut held, shelf, &mut told);
    Ok(Left { outcome, told })
}

/// Runs the words over texts by their names, storage without files, and a sink with room.
pub fn rendered(
    rt: &(impl Threads + Sync),
    alloc: Global,
    words: &[&str],
    texts: &[(&str, &[u8])],
) -> Result<Left, AllocError> {
    tried(rt, alloc, words, texts, 1000, None)
}

fn placed(alloc: Global, before: &str, kind: u8, place: Place) -> Result<String, AllocError> {
    let file = place.file;
    let at = place.at;
    let line = place.line;
    format!(in alloc; "{before}{kind} {file}@{at}:{line}")
}

/// A fault behind the options as a line, with its kind and place.
pub fn shown(alloc: Global, fault: &Fault) -> Result<String, AllocError> {
    match fault {
        Fault::Done => String::from_str(alloc, "done"),
        Fault::OptionFault(..) => String::from_str(alloc, "option fault"),
        Fault::SceneFault(b'L', kind, place) => placed(alloc, "L", *kind, *place),
        Fault::SceneFault(b'E', kind, place) => placed(alloc, "E", *kind, *place),
        Fault::SceneFault(b'D', kind, place) => placed(alloc, "D", *kind, *place),
        Fault::SceneFault(b'U', kind, place) => placed(alloc, "U", *kind, *place),
        Fault::SceneFault(b'P', kind, place) => placed(alloc, "P", *kind, *place),
        Fault::SceneFault(..) => String::from_str(alloc, "another letter"),
        Fault::Limit(which, place) => placed(alloc, "limit ", *which, *place),
        Fault::Absent(name) => {
            let name = str::from_utf8(name.bytes()).unwrap_or("?");
            format!(in alloc; "absent {name}")
        }
        Fault::TextFault => String::from_str(alloc, "text fault"),
        Fault::ShelfFault => String::from_str(alloc, "shelf fault"),
        Fault::MessageFault => String::from_str(alloc, "message fault"),
        Fault::NoMemory => String::from_str(alloc, "no memory"),
    }
}
