// A sink over a stream of the system, such as standard error.
ghost use Rattle.std.specs.Prelude.{◌≡◌, ◌+◌, ◌-◌, ◌^◌, ◌<◌, min, None, length, OnOk, OnErr, IsErr, is_ok, if◌then◌else◌};
ghost use Rattle.shelf.specs.Causes.{HasCause};
ghost use Rattle.shelf.specs.Stream.{with_bytes, GrewByLess};
ghost use Rattle.std.specs.Io.KnownBytes.{Appends};

use crate::count::raise;
use crate::{Failed, Sink};
use std::io::Write;

/// Writes to a stream, and tells nothing of what it wrote.
#[derive(Drop)]
pub struct StdSink<W: Write + Drop> {
    stream: W,
    failures: u64,
}

impl<W: Write + Drop> StdSink<W> {
    pub fn new(stream: W) -> StdSink<W>
        ensures stream { result.stream ≡ stream }
        ensures faults { result.failures ≡ 0 }
    {
        StdSink {
            stream,
            failures: 0,
        }
    }
}

impl<W: Write + Drop> Sink for StdSink<W> {
    ghost written = { λ _. None };

    ghost faults = { λ sink. sink.failures };

    /// On Ok the stream, where it tells what it holds, has all the bytes.
    fn write(&mut self, bytes: &[u8]) -> Result<(), Failed>
        ensures all { OnOk result (None ≡ with_bytes None bytes.now) }
        ensures part { OnErr result (GrewByLess None None bytes.now) }
        ensures cause { HasCause self.old.failures self.new.failures (IsErr result) }
        ensures through { OnOk result
            (Appends (W.contents self.old.stream) (W.contents self.new.stream) bytes.now) }
        ensures counted { self.new.failures ≡ (if is_ok result then self.old.failures
            else min (self.old.failures + 1) (2 ^ 64 - 1)) }
    {
        let answer = write_whole(&mut self.stream, bytes);
        if answer.is_err() {
            raise(&mut self.failures);
        }
        answer
    }
}

/// Writes piece by piece. A write that takes nothing of a piece fails.
fn write_whole<W: Write + Drop>(stream: &mut W, bytes: &[u8]) -> Result<(), Failed>
    ensures whole { OnOk result
        (Appends (W.contents stream.old) (W.contents stream.new) bytes.now) }
    ensures some { OnErr result (0 < length bytes.now) }
{
    let mut rest = bytes;
    while !rest.is_empty() {
        match stream.write(rest) {
            Ok(0) | Err(_) => return Err(Failed),
            Ok(taken) => rest = &rest[taken..],
        }
    }
    Ok(())
}
