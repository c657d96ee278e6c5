// Words, held in place.
ghost use Rattle.std.specs.Prelude.{◌≡◌, IsTrue, SomeIff, length};
ghost use Rattle.scene_lexer.specs.Bytes.{is_name};

use crate::bytes::is_word;
use std::marker::Model;

/// The greatest length of a word. (Reference manual, identifiers)
const LONGEST: usize = 40;

/// A word of 1 to 40 bytes, held in place.
/// Contracts see a `Name` as the list of its bytes.
#[derive(Drop)]
pub struct Name {
    buffer: [u8; 40],
    len: u8,
}

impl Model for Name {
    ghost use Rattle.std.specs.Prelude.{List, ℕ, ◌≤◌, take};

    ghost Value = { List ℕ };

    ghost view = { λ name. take name.len name.buffer };

    ghost invariant = { λ name. name.len ≤ 40 };
}

impl Name {
    /// The word of these bytes; none exactly where they are no letter followed by letters and digits, 40 bytes at most.
    pub fn new(bytes: &[u8]) -> Option<Name>
        ensures { SomeIff result (IsTrue (is_name bytes.now)) bytes.now }
    {
        if !is_word(bytes) || bytes.len() > LONGEST {
            return None;
        }
        let mut buffer = [0; 40];
        buffer[..bytes.len()].copy_from_slice(bytes);
        Some(Name {
            buffer,
            len: bytes.len() as u8,
        })
    }

    /// The bytes of the word.
    #[inline]
    pub fn bytes(&self) -> &[u8]
        ensures { result.now ≡ self.now }
    {
        &self.buffer[..self.len as usize]
    }

    /// The same word again. It takes no memory.
    pub fn copy(&self) -> Name
        ensures { result ≡ self.now }
    {
        Name {
            buffer: self.buffer,
            len: self.len,
        }
    }
}
