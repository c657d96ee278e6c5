// Hits that are known by hand: spheres, boxes and planes along z.
use crate::asked::{NONE, Row, first_wrong};
use crate::scenes::Kind::Plain;
use crate::scenes::Piece::{End, Group, Halved, Object, Outside, Shadowless, Solid};
use scene_model::Op::{Difference, Intersection, Merge, Union};
use written_leaves::Written::{Ball, Block, Half};

/// One sphere, the same twice, and two as a union.
const ONE_OR_TWO: [Row; 3] = [
    // One sphere.
    (
        [
            Solid(Ball([0, 0, 262144], 65536), Plain, false),
            Object,
            End,
            End,
        ],
        [0, 0, 0],
        [0, 0, 65536],
        false,
        [
            (196608, 0, 0, 0, true),
            (327681, 0, 0, 0, false),
            NONE,
            NONE,
            NONE,
        ],
    ),
    // The same twice: the first is hit.
    (
        [
            Solid(Ball([0, 0, 262144], 65536), Plain, false),
            Object,
            Solid(Ball([0, 0, 262144], 65536), Plain, false),
            Object,
        ],
        [0, 0, 0],
        [0, 0, 65536],
        false,
        [
            (196608, 0, 0, 0, true),
            (327681, 0, 0, 0, false),
            NONE,
            NONE,
            NONE,
        ],
    ),
    // Two spheres in one another, as a union: all four surfaces.
    (
        [
            Solid(Ball([0, 0, 262144], 65536), Plain, false),
            Solid(Ball([0, 0, 327680], 65536), Plain, false),
            Group(Union, 2),
            Object,
        ],
        [0, 0, 0],
        [0, 0, 65536],
        false,
        [
            (196608, 0, 0, 0, true),
            (262144, 0, 1, 0, true),
            (327681, 0, 0, 0, false),
            (393217, 0, 1, 0, false),
            NONE,
        ],
    ),
];

/// Two spheres, joined otherwise.
const JOINED: [Row; 3] = [
    // As a merge: the two outer ones.
    (
        [
            Solid(Ball([0, 0, 262144], 65536), Plain, false),
            Solid(Ball([0, 0, 327680], 65536), Plain, false),
            Group(Merge, 2),
            Object,
        ],
        [0, 0, 0],
        [0, 0, 65536],
        false,
        [
            (196608, 0, 0, 0, true),
            (393217, 0, 1, 0, false),
            NONE,
            NONE,
            NONE,
        ],
    ),
    // As an intersection: the two inner ones.
    (
        [
            Solid(Ball([0, 0, 262144], 65536), Plain, false),
            Solid(Ball([0, 0, 327680], 65536), Plain, false),
            Group(Intersection, 2),
            Object,
        ],
        [0, 0, 0],
        [0, 0, 65536],
        false,
        [
            (262144, 0, 1, 0, true),
            (327681, 0, 0, 0, false),
            NONE,
            NONE,
            NONE,
        ],
    ),
    // As a difference: what is left of the first, and the second's surface inside.
    (
        [
            Solid(Ball([0, 0, 262144], 65536), Plain, false),
            Solid(Ball([0, 0, 327680], 65536), Plain, true),
            Group(Difference, 2),
            Object,
        ],
        [0, 0, 0],
        [0, 0, 65536],
        false,
        [
            (196608, 0, 0, 0, true),
            (262144, 0, 1, 0, false),
            NONE,
            NONE,
            NONE,
        ],
    ),
];

/// A box that is cut, planes that nearly meet, and an inverse union.
const CUT: [Row; 3] = [
    // A box whose front half is cut away: its front isn't hit, but the cutter's back.
    (
        [
            Solid(
                Block([-65536, -65536, 196608], [131072, 131072, 131072]),
                Plain,
                false,
            ),
            Solid(
                Block([-65536, -65536, 196608], [131072, 131072, 65536]),
                Plain,
                true,
            ),
            Group(Difference, 2),
            Object,
        ],
        [0, 0, 0],
        [0, 0, 65536],
        false,
        [
            (262145, 0, 1, 5, true),
            (327681, 0, 0, 5, false),
            NONE,
            NONE,
            NONE,
        ],
    ),
    // Two planes that meet between two numbers: none is inside.
    (
        [
            Halved(Half([0, 0, 65536], 262145)),
            Halved(Half([0, 0, -65536], -262145)),
            Group(Intersection, 2),
            Object,
        ],
        [0, 0, 0],
        [0, 0, 65536],
        false,
        [NONE, NONE, NONE, NONE, NONE],
    ),
    // An inverse union has the same surfaces, and goes in where it went out.
    (
        [
            Solid(Ball([0, 0, 262144], 65536), Plain, true),
            Solid(Ball([0, 0, 327680], 65536), Plain, true),
            Outside(Union, 2),
            Object,
        ],
        [0, 0, 0],
        [0, 0, 65536],
        false,
        [
            (196608, 0, 0, 0, false),
            (262144, 0, 1, 0, false),
            (327681, 0, 0, 0, true),
            (393217, 0, 1, 0, true),
            NONE,
        ],
    ),
];

/// Shadow rays, and a ray that begins outside of the world.
const SHADOWS: [Row; 3] = [
    // In a shadow ray objects without shadow are passed over.
    (
        [
            Solid(Ball([0, 0, 262144], 65536), Plain, false),
            Shadowless,
            Solid(Ball([0, 0, 327680], 65536), Plain, false),
            Object,
        ],
        [0, 0, 0],
        [0, 0, 65536],
        true,
        [
            (262144, 1, 1, 0, true),
            (393217, 1, 1, 0, false),
            NONE,
            NONE,
            NONE,
        ],
    ),
    // In another ray they aren't.
    (
        [
            Solid(Ball([0, 0, 262144], 65536), Plain, false),
            Shadowless,
            Solid(Ball([0, 0, 327680], 65536), Plain, false),
            Object,
        ],
        [0, 0, 0],
        [0, 0, 65536],
        false,
        [
            (196608, 0, 0, 0, true),
            (262144, 1, 1, 0, true),
            (327681, 0, 0, 0, false),
            (393217, 1, 1, 0, false),
            NONE,
        ],
    ),
    // A ray that begins outside of the world hits nothing.
    (
        [
            Solid(Ball([0, 0, 262144], 65536), Plain, false),
            Object,
            End,
            End,
        ],
        [0, 0, -268435457],
        [0, 0, 65536],
        false,
        [NONE, NONE, NONE, NONE, NONE],
    ),
];

#[test]
fn the_hits_of_spheres_by_hand(rt: HostRuntime) {
    assert_eq!(rt; first_wrong(rt.alloc(), &ONE_OR_TWO), None);
}

#[test]
fn the_hits_of_joined_spheres_by_hand(rt: HostRuntime) {
    assert_eq!(rt; first_wrong(rt.alloc(), &JOINED), None);
}

#[test]
fn the_hits_of_cut_solids_by_hand(rt: HostRuntime) {
    assert_eq!(rt; first_wrong(rt.alloc(), &CUT), None);
}

#[test]
fn the_hits_of_shadow_rays_by_hand(rt: HostRuntime) {
    assert_eq!(rt; first_wrong(rt.alloc(), &SHADOWS), None);
}
