//! What opening a state file of 4096 by 4096 pixels takes.
use crate::blocks::{blocks, large};
use crate::states::{timed_commit, timed_open};
use std::time::{Duration, Instant};
use std::{fs, io};

/// Tells what a measure took.
fn tell(rt: &HostRuntime, what: &str, time: Duration) -> io::Result<()> {
    println!(rt; "{what}: {} us", time.as_micros())?;
    Ok(())
}

/// Makes a state file, and leaves no block or each block open.
fn make(rt: &HostRuntime, name: &str, done: bool) -> io::Result<()> {
    let (pen, time) = timed_open(rt, name, large(), false)?;
    tell(rt, "made anew", time)?;
    if done {
        let blocks = blocks(rt.alloc(), 16384)?;
        tell(
            rt,
            "commit of 16384 blocks",
            timed_commit(rt, pen, &blocks)?,
        )?;
    }
    Ok(())
}

/// Opens the state file, and asks what is left.
fn resume(rt: &HostRuntime, name: &str) -> io::Result<()> {
    let (pen, time) = timed_open(rt, name, large(), true)?;
    tell(rt, "opened", time)?;
    let start = Instant::now(rt)?;
    let todo = pen.todo(rt.alloc())?;
    let time = start.elapsed(rt)?;
    println!(rt;
        "blocks left: {} us, {} blocks",
        time.as_micros(),
        todo.len()
    )?;
    Ok(())
}

/// What reading the file alone takes, into memory that was written before.
fn read(rt: &HostRuntime, name: &str) -> io::Result<()> {
    for _turn in 0..2 {
        let start = Instant::now(rt)?;
        let bytes = fs::read(rt, name)?;
        let time = start.elapsed(rt)?;
        println!(rt;
            "read alone: {} us, {} bytes",
            time.as_micros(),
            bytes.len()
        )?;
    }
    Ok(())
}

/// Measures each in turn, and removes the file.
pub fn run(rt: &HostRuntime, folder: &str) -> io::Result<()> {
    let name = format!(in rt.alloc(); "{folder}/storage_times.pov-state")?;
    for done in [false, true] {
        make(rt, name.as_str(), done)?;
        read(rt, name.as_str())?;
        resume(rt, name.as_str())?;
    }
    fs::remove_file(rt, name.as_str())
}
