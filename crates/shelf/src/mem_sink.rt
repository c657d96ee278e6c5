// A sink in memory.
ghost use Rattle.std.specs.Prelude.{◌≡◌, ◌+◌, ◌-◌, ◌^◌, ◌≤◌, ◌↔◌, min, [], length, Option, Some, IfOk, IsOk, OnOk, OnErr, IsErr, is_ok, if◌then◌else◌, vec_len, vec_capacity};

use crate::count::raise;
use crate::{Failed, Sink};
use std::alloc::{AllocError, Global};

/// Keeps the bytes that it takes, up to the room that it was made with.
#[derive(Drop)]
pub struct MemSink {
    taken: Vec<u8>,
    room: u64,
    failures: u64,
    ghost within: { vec_len taken ≤ room },
    ghost roomy: { room ≤ vec_capacity taken },
}

impl MemSink {
    ghost use Rattle.shelf.specs.Sinks.{taken_by, room_of};

    /// Takes the memory for `room` bytes at once, so that no write takes any.
    pub fn with_room(alloc: Global, room: u64) -> Result<MemSink, AllocError>
        ensures empty { IfOk result (λ sink. taken_by sink ≡ []) }
        ensures room { IfOk result (λ sink. room_of sink ≡ room) }
        ensures faults { IfOk result (λ sink. sink.failures ≡ 0) }
    {
        Ok(MemSink {
            taken: Vec::with_capacity(alloc, room as usize)?,
            room,
            failures: 0,
        })
    }

    /// All that it has taken.
    pub fn bytes(&self) -> &[u8]
        ensures { result.now ≡ taken_by self.now }
    {
        &self.taken
    }
}

impl Sink for MemSink {
    ghost use Rattle.shelf.specs.Causes.{HasCause};
    ghost use Rattle.shelf.specs.Stream.{with_bytes, GrewByLess};
    ghost use Rattle.shelf.specs.Sinks.{taken_by, room_of};

    ghost written = { λ sink. Some (taken_by sink) };

    ghost faults = { λ sink. sink.failures };

    /// Fails exactly where the bytes don't fit the room, and then takes none of them.
    fn write(&mut self, bytes: &[u8]) -> Result<(), Failed>
        ensures all { OnOk result
            (Some (taken_by self.new) ≡ with_bytes (Some (taken_by self.old)) bytes.now) }
        ensures part { OnErr result
            (GrewByLess (Some (taken_by self.old)) (Some (taken_by self.new)) bytes.now) }
        ensures cause { HasCause self.old.failures self.new.failures (IsErr result) }
        ensures fits { IsOk result ↔
            (length (taken_by self.old) + length bytes.now ≤ room_of self.old) }
        ensures untouched { OnErr result (taken_by self.new ≡ taken_by self.old) }
        ensures room { room_of self.new ≡ room_of self.old }
        ensures counted { self.new.failures ≡ (if is_ok result then self.old.failures
            else min (self.old.failures + 1) (2 ^ 64 - 1)) }
    {
        let left = self.room - self.taken.len() as u64;
        if bytes.len() as u64 > left {
            raise(&mut self.failures);
            return Err(Failed);
        }
        let _ = self.taken.extend_from_slice(bytes);
        Ok(())
    }
}
