// Where messages go.
ghost use Rattle.std.specs.Prelude.{◌≡◌, ℕ, List, Option, None, OnOk, OnErr, IsErr, IsOk};
ghost use Rattle.shelf.specs.Causes.{HasCause};
ghost use Rattle.shelf.specs.Stream.{with_bytes, GrewByLess};

/// A call of the outside failed; the object's count of faults rose.
#[derive(Clone, Copy, Debug, PartialEq, Eq)]
pub struct Failed;

/// Takes bytes one after another. A sink may tell what it has taken.
pub trait Sink {
    /// The bytes that it has taken, where it tells them.
    ghost written: { Self → Option (List ℕ) };

    /// How often it has failed.
    ghost faults: { Self → ℕ };

    /// Appends all the bytes, or fails with a proper prefix of them appended.
    fn write(&mut self, bytes: &[u8]) -> Result<(), Failed>
        ensures all { OnOk result (written self.new ≡ with_bytes (written self.old) bytes.now) }
        ensures part { OnErr result (GrewByLess (written self.old) (written self.new) bytes.now) }
        ensures cause { HasCause (faults self.old) (faults self.new) (IsErr result) };
}

/// Takes every write and keeps nothing.
#[derive(Clone, Copy, Debug, PartialEq, Eq)]
pub struct NoSink;

impl Sink for NoSink {
    ghost written = { λ _. None };

    ghost faults = { λ _. 0 };

    fn write(&mut self, _bytes: &[u8]) -> Result<(), Failed>
        ensures all { OnOk result (None ≡ with_bytes None _bytes.now) }
        ensures part { OnErr result (GrewByLess None None _bytes.now) }
        ensures cause { HasCause 0 0 (IsErr result) }
        ensures taken { IsOk result }
    {
        Ok(())
    }
}
