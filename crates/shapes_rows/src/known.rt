// Ranges that are easily worked out by hand. They were worked out outside of this program with exact whole numbers.
use crate::asked::{Row, first_wrong};
use written_leaves::Move::{DownThenQuarter, Halve, QuarterThenDown, Stay};
use written_leaves::Written::{Ball, Block, Bowl, Half};

/// Spheres, planes, boxes and a quadric in places that are easily worked out by hand.
const KNOWN: [Row; 11] = [
    (
        Ball([0, 0, 262144], 65536),
        Stay,
        [0, 0, 0],
        [0, 0, 65536],
        1,
        [(196608, 327680), (0, 0)],
    ),
    (
        Ball([65536, 0, 262144], 65536),
        Stay,
        [0, 0, 0],
        [0, 0, 65536],
        1,
        [(262144, 262144), (0, 0)],
    ),
    (
        Bowl([0, 0, -65536, 0, 0, 0, 0, 0, 0, 262144]),
        Stay,
        [0, 0, -262144],
        [0, 0, 65536],
        2,
        [(0, 131072), (393216, 268697600)],
    ),
    (
        Half([0, 0, 1], 262144),
        Stay,
        [0, 0, 0],
        [0, 0, 65536],
        1,
        [(0, 262144), (0, 0)],
    ),
    (
        Half([0, 0, 1], 262145),
        Halve,
        [0, 0, 0],
        [0, 0, 65536],
        1,
        [(0, 131072), (0, 0)],
    ),
    (
        Half([0, 0, -1], -262145),
        Halve,
        [0, 0, 0],
        [0, 0, 65536],
        1,
        [(131073, 268435456), (0, 0)],
    ),
    (
        Block([-65536, -65536, 196608], [131072, 131072, 131072]),
        Stay,
        [0, 0, 0],
        [0, 0, 65536],
        1,
        [(196608, 327680), (0, 0)],
    ),
    (
        Block([-65536, -65536, 196608], [131072, 131072, 65536]),
        Stay,
        [0, 0, 0],
        [0, 0, 65536],
        1,
        [(196608, 262144), (0, 0)],
    ),
    (
        Block([65536, -65536, 196608], [131072, 131072, 131072]),
        QuarterThenDown,
        [0, 0, 0],
        [0, 0, 65536],
        1,
        [(196608, 327680), (0, 0)],
    ),
    (
        Block([65536, -65536, 196608], [131072, 131072, 131072]),
        DownThenQuarter,
        [0, 0, 0],
        [0, 0, 65536],
        0,
        [(0, 0), (0, 0)],
    ),
    (
        Ball([0, 0, 268435456], 65536),
        Stay,
        [0, 0, 0],
        [0, 0, 65536],
        1,
        [(268369920, 268435456), (0, 0)],
    ),
];

#[test]
fn ranges_of_known_are_those_of_their_points(rt: HostRuntime) {
    assert_eq!(rt; first_wrong(&KNOWN), None);
}
