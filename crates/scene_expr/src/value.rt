// What expressions are worth, and why one has no value.
ghost use Rattle.std.specs.Prelude.{◌≡◌, ◌≢◌, pos};
ghost use Rattle.scene_expr.specs.Values.{fault_at, trouble_of};

use fix_math::{Fix, NumFault, Str, V3};
use scene_lexer::Place;

/// What a frame tells the expressions of its scene.
#[derive(Clone, Copy, Debug, PartialEq, Eq)]
pub struct Settings {
    pub clock: Fix,
    pub initial_clock: Fix,
    pub final_clock: Fix,
    pub frame_number: u32,
    pub initial_frame: u32,
    pub final_frame: u32,
    /// The width of the picture in pixels.
    pub image_width: u32,
    /// The height of the picture in pixels.
    pub image_height: u32,
}

/// The value of an expression.
#[derive(Drop)]
pub enum Value {
    Float(Fix),
    Vector(V3),
    /// Red, green, blue, filter and transmit.
    Color([Fix; 5]),
    Text(Str),
}

/// The float 0, with which the room of a short row of values is filled.
impl Default for Value {
    fn default() -> Value
        ensures { result ≡ Value.Float (pos 0) }
    {
        Value::Float(Fix(0))
    }
}

/// How loosely the parts of an expression may hang together. (Reference manual, numeric expressions)
#[derive(Clone, Copy, Debug, PartialEq, Eq)]
pub enum Level {
    /// All operators: the expressions of directives, brackets and calls.
    Choice,
    /// Sums and what is tighter: the parameters of items, and the numbers between `<` and `>`.
    Sum,
}

/// Why an expression has no value, with the place of the token at fault.
#[derive(Clone, Copy, Debug, PartialEq, Eq)]
pub enum ExprFault {
    /// A part of the expression is missing: this token, or the end, stands in its place.
    Expected(Place),
    /// A word that names no value, call or colour.
    UnknownName(Place),
    /// An operator, call or colour word, bracket or dot that doesn't take values of this kind.
    Kind(Place),
    /// An operator or call with a divisor of 0.
    ZeroDivisor(Place),
    /// A result or an argument out of range, a text of more than 65,536 bytes, or the 129th depth.
    Range(Place),
    /// There is no memory for a text.
    NoMemory,
}

/// Why an operator or a call makes no value of its parts.
#[derive(Clone, Copy)]
pub enum Trouble {
    Kind,
    ZeroDivisor,
    Range,
    NoMemory,
}

impl Trouble {
    /// The fault of the operator or call that stands here.
    pub fn at(self, place: Place) -> ExprFault
        ensures value { result ≡ fault_at self place }
        ensures memory { result ≡ ExprFault.NoMemory → self ≡ Trouble.NoMemory }
    {
        match self {
            Trouble::Kind => ExprFault::Kind(place),
            Trouble::ZeroDivisor => ExprFault::ZeroDivisor(place),
            Trouble::Range => ExprFault::Range(place),
            Trouble::NoMemory => ExprFault::NoMemory,
        }
    }

    /// The trouble with a calculation of numbers.
    pub fn of(fault: NumFault) -> Trouble
        ensures value { result ≡ trouble_of fault }
        ensures memory { result ≢ Trouble.NoMemory }
    {
        match fault {
            NumFault::ZeroDivisor => Trouble::ZeroDivisor,
            NumFault::Range => Trouble::Range,
        }
    }
}
