// Hits of scenes of single leaves. They were worked out outside of this program, by asking at each number with exact whole numbers.
use crate::asked::{NONE, Row, first_wrong};
use crate::scenes::Kind::{Inverse, Open, Plain};
use crate::scenes::Piece::{End, Object, Shadowless, Solid};
use written_leaves::Written::{Ball, Block, Half, Horn, Tube};

/// Up to two leaves.
const FIRST_LEAVES: [Row; 3] = [
    (
        [
            Solid(Block([-100, -100, 350], [150, 100, 100]), Plain, false),
            Object,
            End,
            End,
        ],
        [9, 12, 0],
        [5851, -5851, 65012],
        false,
        [
            (353, 0, 0, 4, true),
            (454, 0, 0, 5, false),
            NONE,
            NONE,
            NONE,
        ],
    ),
    (
        [
            Solid(Half([0, 0, 65536], 200), Plain, false),
            Object,
            Solid(Horn([-50, -100, 700], [0, 150, 0], 150, 100), Plain, false),
            Object,
        ],
        [-25, -16, 0],
        [0, 0, 65536],
        false,
        [
            (201, 0, 0, 0, false),
            (581, 1, 1, 0, true),
            (820, 1, 1, 0, false),
            NONE,
            NONE,
        ],
    ),
    (
        [
            Solid(Half([0, 0, 65536], 300), Plain, false),
            Object,
            End,
            End,
        ],
        [-14, 23, 0],
        [0, 0, 65536],
        false,
        [(301, 0, 0, 0, false), NONE, NONE, NONE, NONE],
    ),
];

/// Up to two leaves.
const SECOND_LEAVES: [Row; 3] = [
    (
        [
            Solid(Tube([0, 0, 350], [100, 50, 150], 100), Plain, false),
            Object,
            End,
            End,
        ],
        [21, -3, 400],
        [0, 0, 65536],
        true,
        [(140, 0, 0, 0, false), NONE, NONE, NONE, NONE],
    ),
    (
        [
            Solid(Ball([0, 0, 800], 300), Plain, false),
            Shadowless,
            End,
            End,
        ],
        [27, 22, 400],
        [0, 0, 65536],
        false,
        [
            (103, 0, 0, 0, true),
            (698, 0, 0, 0, false),
            NONE,
            NONE,
            NONE,
        ],
    ),
    (
        [
            Solid(Tube([50, 0, 450], [0, 0, 200], 100), Open, false),
            Object,
            Solid(Block([-50, -100, 450], [300, 200, 300]), Plain, false),
            Object,
        ],
        [8, -19, 0],
        [0, 0, 65536],
        true,
        [
            (450, 1, 1, 4, true),
            (751, 1, 1, 5, false),
            NONE,
            NONE,
            NONE,
        ],
    ),
];

/// Up to two leaves.
const THIRD_LEAVES: [Row; 3] = [
    (
        [
            Solid(Block([-150, -100, 400], [200, 150, 350]), Plain, false),
            Object,
            Solid(Half([0, 0, -65536], 400), Plain, false),
            Object,
        ],
        [8, -26, 0],
        [0, 0, 65536],
        true,
        [
            (400, 0, 0, 4, true),
            (751, 0, 0, 5, false),
            NONE,
            NONE,
            NONE,
        ],
    ),
    (
        [
            Solid(Block([-100, -50, 650], [150, 200, 350]), Plain, false),
            Shadowless,
            Solid(Block([-100, -50, 400], [300, 150, 200]), Plain, false),
            Shadowless,
        ],
        [-22, 5, 400],
        [0, 0, 65536],
        false,
        [
            (201, 1, 1, 5, false),
            (250, 0, 0, 4, true),
            (601, 0, 0, 5, false),
            NONE,
            NONE,
        ],
    ),
    (
        [
            Solid(Half([0, 0, 65536], 250), Plain, false),
            Object,
            Solid(Tube([50, 0, 550], [100, 100, 150], 150), Open, false),
            Object,
        ],
        [-21, 13, 0],
        [0, 0, 65536],
        false,
        [
            (251, 0, 0, 0, false),
            (708, 1, 1, 0, false),
            NONE,
            NONE,
            NONE,
        ],
    ),
];

/// Up to two leaves.
const FOURTH_LEAVES: [Row; 3] = [
    (
        [
            Solid(Block([-50, -100, 600], [300, 300, 300]), Plain, false),
            Shadowless,
            Solid(Block([-50, -100, 600], [300, 300, 300]), Plain, false),
            Shadowless,
        ],
        [14, 28, 0],
        [0, 0, 65536],
        false,
        [
            (600, 0, 0, 4, true),
            (901, 0, 0, 5, false),
            NONE,
            NONE,
            NONE,
        ],
    ),
    (
        [
            Solid(Horn([0, 0, 650], [0, 0, 300], 100, 50), Plain, false),
            Shadowless,
            Solid(Horn([0, 0, 650], [0, 0, 300], 100, 50), Plain, false),
            Object,
        ],
        [20, -30, 0],
        [0, 0, 65536],
        false,
        [
            (650, 0, 0, 1, true),
            (951, 0, 0, 2, false),
            NONE,
            NONE,
            NONE,
        ],
    ),
    (
        [
            Solid(Block([0, -50, 550], [150, 250, 150]), Inverse, true),
            Object,
            Solid(Tube([0, -100, 300], [0, 0, 250], 150), Open, false),
            Object,
        ],
        [-17, 6, 400],
        [8974, -10257, 64103],
        false,
        [
            (154, 0, 0, 4, false),
            (307, 0, 0, 5, true),
            NONE,
            NONE,
            NONE,
        ],
    ),
];

#[test]
fn the_first_leaves_are_hit_as_at_each_number(rt: HostRuntime) {
    assert_eq!(rt; first_wrong(rt.alloc(), &FIRST_LEAVES), None);
}

#[test]
fn the_second_leaves_are_hit_as_at_each_number(rt: HostRuntime) {
    assert_eq!(rt; first_wrong(rt.alloc(), &SECOND_LEAVES), None);
}

#[test]
fn the_third_leaves_are_hit_as_at_each_number(rt: HostRuntime) {
    assert_eq!(rt; first_wrong(rt.alloc(), &THIRD_LEAVES), None);
}

#[test]
fn the_fourth_leaves_are_hit_as_at_each_number(rt: HostRuntime) {
    assert_eq!(rt; first_wrong(rt.alloc(), &FOURTH_LEAVES), None);
}
