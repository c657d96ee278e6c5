// Transforms that rows name.
ghost use Rattle.std.specs.Prelude.{◌≡◌, IfSome};
ghost use Rattle.xform.specs.Transforms.{IsPlaced};

use crate::leaves::vector;
use fix_math::{Fix, V3};
use xform::{Step, Xform, compose, start};

/// A transform.
#[derive(Clone, Copy)]
pub enum Move {
    Stay,
    /// 30, 45 and 60 degrees about the axes.
    Turn,
    /// By 2, 1/2 and 3.
    Scale,
    /// Turned, scaled and turned.
    Squeeze,
    /// x grows with y, and y with z.
    Shear,
    /// By -1 along x.
    Mirror,
    /// Mirrored in a turned plane, sheared and moved.
    All,
    /// 90 degrees about z.
    Quarter,
    /// The same, and then 2 units down.
    QuarterThenDown,
    /// The two exchanged.
    DownThenQuarter,
    /// By 1/2.
    Halve,
    /// By 1/4096.
    Shrink,
    /// By 4096.
    Grow,
}

fn matrix(raws: [i32; 12]) -> Step {
    let [a, b, c] = [
        vector([raws[0], raws[1], raws[2]]),
        vector([raws[3], raws[4], raws[5]]),
        vector([raws[6], raws[7], raws[8]]),
    ];
    let d = vector([raws[9], raws[10], raws[11]]);
    Step::Matrix([a.x, a.y, a.z, b.x, b.y, b.z, c.x, c.y, c.z, d.x, d.y, d.z])
}

fn turn(x: i32, y: i32, z: i32) -> Step {
    Step::Rotate(vector([x, y, z]))
}

fn scale(x: i32, y: i32, z: i32) -> Step {
    Step::Scale(vector([x, y, z]))
}

fn shear() -> Step {
    matrix([65536, 0, 0, 32768, 65536, 0, 0, 16384, 65536, 0, 0, 0])
}

fn down() -> Step {
    Step::Translate(vector([0, -131_072, 0]))
}

/// The transform by its name.
pub fn moved(by: Move) -> Option<Xform>
    ensures { IfSome result IsPlaced }
{
    let found = match by {
        Move::Stay => Ok(start()),
        Move::Turn => compose(&[turn(1_966_080, 2_949_120, 3_932_160)]),
        Move::Scale => compose(&[scale(131_072, 32_768, 196_608)]),
        Move::Squeeze => compose(&[
            turn(655_360, 1_310_720, 1_966_080),
            scale(32_768, 131_072, 65_536),
            turn(2_949_120, 0, 655_360),
        ]),
        Move::Shear => compose(&[shear()]),
        Move::Mirror => compose(&[scale(-65_536, 65_536, 65_536)]),
        Move::All => compose(&[
            turn(0, 1_310_720, 0),
            scale(-65_536, 49_152, 98_304),
            shear(),
            Step::Translate(vector([1000, -2000, 3000])),
        ]),
        Move::Quarter => compose(&[turn(0, 0, 5_898_240)]),
        Move::QuarterThenDown => compose(&[turn(0, 0, 5_898_240), down()]),
        Move::DownThenQuarter => compose(&[down(), turn(0, 0, 5_898_240)]),
        Move::Halve => compose(&[scale(32_768, 32_768, 32_768)]),
        Move::Shrink => compose(&[scale(16, 16, 16)]),
        Move::Grow => compose(&[scale(268_435_456, 268_435_456, 268_435_456)]),
    };
    found.ok()
}
