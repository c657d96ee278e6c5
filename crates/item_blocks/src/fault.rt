// Why the tokens of a scene aren't one.
use scene_lexer::{Name, Place};
use xform::XformFault;

/// What is missing where another token stands, or the end.
#[derive(Clone, Copy, Debug, PartialEq, Eq)]
pub enum Wanted {
    /// The word of an item.
    Item = 1,
    OpenBrace = 2,
    CloseBrace = 3,
    /// A parameter of this kind.
    Parameter = 4,
    /// A bracket of a colour map, or its first entry.
    MapBracket = 5,
    /// A step of a transform.
    Step = 6,
    /// A part of a group or mesh.
    Part = 7,
}

/// Why the tokens aren't a scene, with the place of the token at fault.
#[derive(Drop)]
pub enum ParseFault {
    /// What is wanted here is missing, or is of another kind.
    Expected { place: Place, kind: Wanted },
    /// A word that can't stand here: the profile doesn't have it, or not in this place.
    OutOfProfile { place: Place, word: Name },
    /// A parameter outside its range, at its first token, or an expression without a value, at its
    /// operator or call.
    ValueRange { place: Place },
    /// A step that can't be taken, at the first token of its parameter, or a solid that leaves the
    /// world, at the first token of its first parameter.
    Xform { place: Place, fault: XformFault },
    /// A count passes its limit at this token: 5 leaves, 7 lamps, 8 the depth of braces, 9 entries of a
    /// colour map, 10 triangles.
    Limit { which: u8, place: Place },
    /// There is no memory for the scene.
    NoMemory,
}
