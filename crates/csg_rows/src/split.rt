// Hits of objects in several pieces, that are known by hand. All rays go along z from the middle: the nearer ball is entered
// at 196608 and left before 327681, the farther one at 262144 and before 393217, and the one beside is missed.
use crate::asked::{Expected, NONE, are_hits};
use crate::scenes::Kind::{Inverse, Plain};
use crate::scenes::Piece;
use crate::scenes::Piece::{Again, End, Group, Object, Outside, Shadowless, Solid};
use scene_model::Op::{Difference, Intersection, Merge, Union};
use std::alloc::Global;
use written_leaves::Written;
use written_leaves::Written::Ball;

/// A row: a scene, whether it is a shadow ray, and its hits, up to the first that isn't there.
type Row = ([Piece; 7], bool, [Expected; 5]);

const NEARER: Written = Ball([0, 0, 262144], 65536);

const FARTHER: Written = Ball([0, 0, 327680], 65536);

const BESIDE: Written = Ball([500000, 0, 262144], 65536);

/// Unions in unions.
const NESTED: [Row; 4] = [
    // In an inverse union one goes in where one else goes out.
    (
        [
            Solid(NEARER, Plain, false),
            Solid(FARTHER, Plain, true),
            Outside(Union, 1),
            Group(Union, 2),
            Object,
            End,
            End,
        ],
        false,
        [
            (196608, 0, 0, 0, true),
            (262144, 0, 1, 0, false),
            (327681, 0, 0, 0, false),
            (393217, 0, 1, 0, true),
            NONE,
        ],
    ),
    // So too two unions deep, where all is turned twice.
    (
        [
            Solid(NEARER, Plain, true),
            Solid(FARTHER, Plain, false),
            Outside(Union, 1),
            Outside(Union, 2),
            Object,
            End,
            End,
        ],
        false,
        [
            (196608, 0, 0, 0, false),
            (262144, 0, 1, 0, true),
            (327681, 0, 0, 0, true),
            (393217, 0, 1, 0, false),
            NONE,
        ],
    ),
    // A merge in a union: its inner surfaces aren't hit, nor is the ball that is in both hit twice.
    (
        [
            Solid(NEARER, Plain, false),
            Solid(FARTHER, Plain, false),
            Group(Merge, 2),
            Again(0),
            Group(Union, 2),
            Object,
            End,
        ],
        false,
        [
            (196608, 0, 0, 0, true),
            (327681, 0, 0, 0, false),
            (393217, 0, 1, 0, false),
            NONE,
            NONE,
        ],
    ),
    // A union without parts is nowhere, and the next object has the next number.
    (
        [
            Group(Union, 0),
            Object,
            Solid(NEARER, Plain, false),
            Object,
            End,
            End,
            End,
        ],
        false,
        [
            (196608, 1, 0, 0, true),
            (327681, 1, 0, 0, false),
            NONE,
            NONE,
            NONE,
        ],
    ),
];

/// Several that are struck at one number.
const TIED: [Row; 4] = [
    // Of the parts of one object the leaf with the least number, also where its part stands last.
    (
        [
            Solid(NEARER, Plain, false),
            Shadowless,
            Solid(NEARER, Plain, false),
            Again(0),
            Group(Union, 2),
            Object,
            End,
        ],
        true,
        [
            (196608, 1, 0, 0, true),
            (327681, 1, 0, 0, false),
            NONE,
            NONE,
            NONE,
        ],
    ),
    // Of two objects the first, also where its leaf has the higher number.
    (
        [
            Solid(NEARER, Plain, false),
            Solid(NEARER, Plain, false),
            Object,
            Object,
            End,
            End,
            End,
        ],
        false,
        [
            (196608, 0, 1, 0, true),
            (327681, 0, 1, 0, false),
            NONE,
            NONE,
            NONE,
        ],
    ),
    // One leaf in two parts.
    (
        [
            Solid(FARTHER, Plain, false),
            Solid(NEARER, Plain, false),
            Again(0),
            Group(Union, 3),
            Object,
            End,
            End,
        ],
        false,
        [
            (196608, 0, 1, 0, true),
            (262144, 0, 0, 0, true),
            (327681, 0, 1, 0, false),
            (393217, 0, 0, 0, false),
            NONE,
        ],
    ),
    // In a shadow ray all parts of an object without shadow are passed over.
    (
        [
            Solid(NEARER, Plain, false),
            Solid(FARTHER, Plain, false),
            Group(Union, 2),
            Shadowless,
            Solid(FARTHER, Plain, false),
            Object,
            End,
        ],
        true,
        [
            (262144, 1, 2, 0, true),
            (393217, 1, 2, 0, false),
            NONE,
            NONE,
            NONE,
        ],
    ),
];

/// Groups with a ball that the ray misses.
const MISSED: [Row; 4] = [
    // What isn't there cuts nothing off.
    (
        [
            Solid(NEARER, Plain, false),
            Solid(BESIDE, Plain, true),
            Group(Difference, 2),
            Object,
            End,
            End,
            End,
        ],
        false,
        [
            (196608, 0, 0, 0, true),
            (327681, 0, 0, 0, false),
            NONE,
            NONE,
            NONE,
        ],
    ),
    // Nothing is in both.
    (
        [
            Solid(NEARER, Plain, false),
            Solid(BESIDE, Plain, false),
            Group(Intersection, 2),
            Object,
            End,
            End,
            End,
        ],
        false,
        [NONE, NONE, NONE, NONE, NONE],
    ),
    // An inverse ball that is missed is everywhere on the ray.
    (
        [
            Solid(NEARER, Plain, false),
            Solid(BESIDE, Inverse, true),
            Group(Intersection, 2),
            Object,
            End,
            End,
            End,
        ],
        false,
        [
            (196608, 0, 0, 0, true),
            (327681, 0, 0, 0, false),
            NONE,
            NONE,
            NONE,
        ],
    ),
    // A merge with it is the same as without.
    (
        [
            Solid(BESIDE, Plain, false),
            Solid(NEARER, Plain, false),
            Solid(FARTHER, Plain, false),
            Group(Merge, 3),
            Object,
            End,
            End,
        ],
        false,
        [
            (196608, 0, 1, 0, true),
            (393217, 0, 2, 0, false),
            NONE,
            NONE,
            NONE,
        ],
    ),
];

/// The first row of a table that isn't right.
fn first_wrong(alloc: Global, rows: &[Row]) -> Option<usize> {
    for (number, row) in rows.iter().enumerate() {
        let (pieces, shadow, hits) = row;
        if are_hits(alloc, pieces, (&[0, 0, 0], &[0, 0, 65536]), *shadow, hits) != Ok(true) {
            return Some(number);
        }
    }
    None
}

#[test]
fn the_hits_of_unions_in_unions_by_hand(rt: HostRuntime) {
    assert_eq!(rt; first_wrong(rt.alloc(), &NESTED), None);
}

#[test]
fn the_hits_at_one_number_by_hand(rt: HostRuntime) {
    assert_eq!(rt; first_wrong(rt.alloc(), &TIED), None);
}

#[test]
fn the_hits_beside_a_ball_that_is_missed_by_hand(rt: HostRuntime) {
    assert_eq!(rt; first_wrong(rt.alloc(), &MISSED), None);
}
