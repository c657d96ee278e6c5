// The boxes of trees as objects, by hand: of solids along the world's axes.
use crate::trees::built;
use shapes::Point;
use std::alloc::{AllocError, Global};

/// A tree, and the corners of its box in raw numbers.
type Bounded = (&'static [u8], [i32; 3], [i32; 3]);

/// Half the world's side, in raw numbers.
const FAR: i32 = 268435456;

/// Single leaves, with an end and without.
const LEAVES: [Bounded; 8] = [
    (b"a", [-200, -200, 200], [200, 200, 600]),
    (b"e", [-150, -150, 300], [150, 150, 600]),
    (b"j", [-130, -130, 250], [130, 130, 750]),
    (b"m", [-220, -220, 300], [220, 220, 700]),
    (b"h", [-FAR, -FAR, -FAR], [FAR, FAR, FAR]),
    (b"q", [-FAR, -FAR, -FAR], [FAR, FAR, FAR]),
    (b"n", [-FAR, -FAR, -FAR], [FAR, FAR, FAR]),
    (b"o", [-FAR, -FAR, -FAR], [FAR, FAR, FAR]),
];

/// Groups.
const GROUPS: [Bounded; 14] = [
    (b"U(ab)", [-200, -200, 200], [200, 200, 800]),
    (b"M(ba)", [-200, -200, 200], [200, 200, 800]),
    (b"I(ab)", [-200, -200, 400], [200, 200, 600]),
    (b"D(ab)", [-200, -200, 200], [200, 200, 600]),
    (b"D(bag)", [-200, -200, 400], [200, 200, 800]),
    (b"U(cg)", [-300, -300, 380], [300, 300, 620]),
    (b"I(ageh)", [-150, -150, 500], [150, 150, 600]),
    (b"!I(ab)", [-FAR, -FAR, -FAR], [FAR, FAR, FAR]),
    (b"U(a!I(bc))", [-FAR, -FAR, -FAR], [FAR, FAR, FAR]),
    (b"I(a!U(bc))", [-200, -200, 200], [200, 200, 600]),
    (b"D(a!U(bc))", [-200, -200, 200], [200, 200, 600]),
    (b"D(hU(ab))", [-FAR, -FAR, -FAR], [FAR, FAR, FAR]),
    (b"D(I(M(af)U(ej))D(kq))", [-150, -150, 250], [150, 150, 600]),
    (b"M(D(fa)I(c1))", [-100, -100, 380], [170, 140, 600]),
];

/// A corner in units of 2^-32.
fn corner(raws: &[i32; 3]) -> Point {
    [
        raws[0] as i64 * 65536,
        raws[1] as i64 * 65536,
        raws[2] as i64 * 65536,
    ]
}

/// The first row that isn't right.
fn first_other(alloc: Global, rows: &[Bounded]) -> Result<Option<usize>, AllocError> {
    for (at, (tree, low, high)) in rows.iter().enumerate() {
        let found = built(alloc, tree)?.bounds(0);
        if found.lo != corner(low) || found.hi != corner(high) {
            return Ok(Some(at));
        }
    }
    Ok(None)
}

#[test]
fn the_boxes_of_leaves(rt: HostRuntime) -> Result<(), AllocError> {
    assert_eq!(rt; first_other(rt.alloc(), &LEAVES)?, None);
    Ok(())
}

#[test]
fn the_boxes_of_groups(rt: HostRuntime) -> Result<(), AllocError> {
    assert_eq!(rt; first_other(rt.alloc(), &GROUPS)?, None);
    Ok(())
}

#[test]
fn a_number_without_an_object_has_the_world(rt: HostRuntime) -> Result<(), AllocError> {
    let found = built(rt.alloc(), b"a")?.bounds(1);
    assert_eq!(rt; found.lo, corner(&[-FAR, -FAR, -FAR]));
    assert_eq!(rt; found.hi, corner(&[FAR, FAR, FAR]));
    Ok(())
}
