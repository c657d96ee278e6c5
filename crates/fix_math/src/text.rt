// Strings of bytes.
ghost use Rattle.std.specs.Prelude.{◌≡◌};

use std::marker::Model;

/// A string of bytes: a name, or the contents of a text. It need not be UTF-8.
/// Contracts see a `Str` as the list of its bytes.
#[derive(Debug, Drop)]
pub struct Str {
    bytes: Vec<u8>,
}

impl Model for Str {
    ghost use Rattle.std.specs.Prelude.{List, ℕ};

    ghost Value = { List ℕ };

    ghost view = { λ text. text.bytes.items };
}

impl Str {
    /// The string of these bytes. It takes no memory.
    pub fn new(bytes: Vec<u8>) -> Str
        ensures { result ≡ bytes.items }
    {
        Str { bytes }
    }

    /// The bytes, from the first.
    #[inline]
    pub fn bytes(&self) -> &[u8]
        ensures { result.now ≡ self.now }
    {
        &self.bytes
    }
}
