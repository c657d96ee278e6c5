// Solids to measure with: each is 20 units away along the z axis, and hides it from all rays of a narrow cone.
use written_leaves::Move::{self, Halve, Stay, Turn};
use written_leaves::Written::{self, Ball, Block, Bowl, Half, Horn, Tube};

/// 1 unit.
const UNIT: i32 = 65536;

/// The solids by their names, with their transforms.
pub fn solids() -> [(&'static str, Written, Move); 13] {
    let far = [0, 0, 20 * UNIT];
    let near_end = [0, -10 * UNIT, 20 * UNIT];
    let up = [0, 20 * UNIT, 0];
    // What the turn brings to the same places.
    let turned_far = [-926_819, 463_410, 802_649];
    let turned_end = [-1_328_143, -21_032, 618_932];
    let turned_up = [802_649, 968_883, 367_434];
    let ten = 10 * UNIT;
    let five = 5 * UNIT;
    [
        ("sphere", Ball(far, ten), Stay),
        ("sphere, halved", Ball([0, 0, 40 * UNIT], 2 * ten), Halve),
        ("sphere, turned", Ball(turned_far, ten), Turn),
        (
            "box",
            Block([-ten, -ten, ten], [2 * ten, 2 * ten, 2 * ten]),
            Stay,
        ),
        (
            "box, turned",
            Block([-1_582_179, -191_950, 147_289], [2 * ten, 2 * ten, 2 * ten]),
            Turn,
        ),
        ("plane", Half([0, 0, -1], -2 * ten), Stay),
        (
            "plane, turned",
            Half([46_341, -23_170, -40_132], -2 * ten),
            Turn,
        ),
        ("cylinder", Tube(near_end, up, ten), Stay),
        ("cylinder, turned", Tube(turned_end, turned_up, ten), Turn),
        ("cone", Horn(near_end, up, ten, five), Stay),
        ("cone, turned", Horn(turned_end, turned_up, ten, five), Turn),
        (
            "quadric",
            Bowl([UNIT, UNIT, UNIT, 0, 0, 0, 0, 0, -40 * UNIT, 300 * UNIT]),
            Stay,
        ),
        (
            "quadric, turned",
            Bowl([
                UNIT,
                UNIT,
                UNIT,
                0,
                0,
                0,
                1_853_638,
                -926_820,
                -1_605_298,
                300 * UNIT,
            ]),
            Turn,
        ),
    ]
}
