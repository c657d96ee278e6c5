// Tokens and their places.
ghost use Rattle.std.specs.Prelude.{◌≡◌, IfOk, OnErr, IsTrue};
ghost use Rattle.scene_lexer.specs.Tokens.{holds_text};

use crate::Name;
use fix_math::{Fix, Str};
use std::alloc::{AllocError, Global};

/// A place in the texts of a scene.
#[derive(Clone, Copy, Debug, PartialEq, Eq)]
pub struct Place {
    /// The number of the text, in order of first reading, from 0.
    pub file: u32,
    /// The byte of the text, from 0.
    pub at: u32,
    /// The line of the text, from 1. A line ends with LF alone.
    pub line: u32,
}

/// What a token is.
#[derive(Drop)]
pub enum Kind {
    /// A word of 1 to 40 letters, digits and underscores that doesn't begin with a digit.
    Word(Name),
    /// A number, rounded to 16 fraction bits.
    Number(Fix),
    /// The bytes between double quotes, with their escapes resolved.
    Text(Str),
    /// A sign by its code, as the constants of `sign` name it.
    Sign(u8),
}

/// A token with the place of its first byte and the offset behind its last one.
#[derive(Drop)]
pub struct Token {
    pub kind: Kind,
    pub place: Place,
    pub to: u32,
}

impl Kind {
    fn copy(&self, alloc: Global) -> Result<Kind, AllocError>
        ensures copy { IfOk result (λ copy. copy ≡ self.now) }
        ensures memory { OnErr result (IsTrue (holds_text self.now)) }
    {
        Ok(match self {
            Kind::Word(name) => Kind::Word(name.copy()),
            Kind::Number(value) => Kind::Number(*value),
            Kind::Text(text) => Kind::Text(Str::new(Vec::from_slice(alloc, text.bytes())?)),
            Kind::Sign(code) => Kind::Sign(*code),
        })
    }
}

impl Token {
    /// The same token again. Only a text needs memory.
    pub fn copy(&self, alloc: Global) -> Result<Token, AllocError>
        ensures copy { IfOk result (λ copy. copy ≡ self.now) }
        ensures memory { OnErr result (IsTrue (holds_text self.now.kind)) }
    {
        Ok(Token {
            kind: self.kind.copy(alloc)?,
            place: self.place,
            to: self.to,
        })
    }
}

/// Why a text has no tokens. The place is that of the first byte of what is at fault.
#[derive(Clone, Copy, Debug, PartialEq, Eq)]
pub enum LexFault {
    /// A byte that begins no token, comment or white space.
    BadByte(Place),
    /// A comment that isn't closed, at its outermost opening.
    OpenComment(Place),
    /// A text that isn't closed, at its quote.
    OpenString(Place),
    /// A word of more than 40 bytes.
    LongName(Place),
    /// A number of more than 30 digits, with a power of ten outside -30 to 30, or of 2^31 units and more.
    NumberRange(Place),
    /// There is no memory for the tokens.
    NoMemory,
}
