// Words that stand for values. (Reference manual, built-in constants and identifiers)
ghost use Rattle.std.specs.Prelude.{◌≡◌, ◌<◌, ◌^◌};
ghost use Rattle.scene_expr.specs.Values.{AreWhole};
ghost use Rattle.scene_expr.specs.Constants.{whole, vector, constant};

use crate::value::{Settings, Value};
use crate::words::Constant;
use fix_math::{Fix, V3};

const ONE: i64 = 65536;

// pi and 3.7, rounded to 16 fraction bits
const PI: i64 = 205_887;

const VERSION: i64 = 242_483;

/// The value that a word stands for.
pub fn constant(word: Constant, set: &Settings) -> Value
    requires { AreWhole set.now }
    ensures { result ≡ constant word set.now }
{
    match word {
        Constant::X => axis(Fix(ONE), Fix(0), Fix(0)),
        Constant::Y => axis(Fix(0), Fix(ONE), Fix(0)),
        Constant::Z => axis(Fix(0), Fix(0), Fix(ONE)),
        Constant::Pi => Value::Float(Fix(PI)),
        Constant::True => whole(1),
        Constant::False => whole(0),
        Constant::Clock => Value::Float(set.clock),
        Constant::InitialClock => Value::Float(set.initial_clock),
        Constant::FinalClock => Value::Float(set.final_clock),
        Constant::FrameNumber => whole(set.frame_number),
        Constant::InitialFrame => whole(set.initial_frame),
        Constant::FinalFrame => whole(set.final_frame),
        Constant::ImageWidth => whole(set.image_width),
        Constant::ImageHeight => whole(set.image_height),
        Constant::Version => Value::Float(Fix(VERSION)),
    }
}

// A whole number as a value.
fn whole(number: u32) -> Value
    requires { number < 2 ^ 31 }
    ensures { result ≡ whole number }
{
    Value::Float(Fix(number as i64 * 65536))
}

// An axis of the world.
fn axis(x: Fix, y: Fix, z: Fix) -> Value
    ensures { result ≡ vector x y z }
{
    Value::Vector(V3 { x, y, z })
}
