// Boxes of leaves of every kind. They were worked out outside of this program with exact whole numbers.
ghost use Rattle.scene_model.specs.Solids.{IsLeaf};

use fix_math::Fix;
use leaf_boxes::{Box3, leaf_box};
use scene_model::Leaf;
use shapes::Point;
use written_leaves::Move::{
    All, Grow, Mirror, Quarter, QuarterThenDown, Shear, Shrink, Squeeze, Stay, Turn,
};
use written_leaves::Written::{Ball, Block, Bowl, Half, Horn, Tube};
use written_leaves::{Move, Written, leaf, moved};

/// A solid, the transform, and the corners of its box.
type Row = (Written, Move, Point, Point);

const WORLD: Box3 = Box3 {
    lo: [-17592186044416, -17592186044416, -17592186044416],
    hi: [17592186044416, 17592186044416, 17592186044416],
};

const BOXES: [Row; 20] = [
    (
        Ball([0, 0, 262144], 65536),
        Stay,
        [-4294967296, -4294967296, 12884901888],
        [4294967296, 4294967296, 21474836480],
    ),
    (
        Ball([0, 0, 0], 65536),
        Turn,
        [-7155364669, -7009089231, -7185700615],
        [7155364669, 7009089231, 7185700615],
    ),
    (
        Ball([65536, -65536, 196608], 40000),
        Squeeze,
        [4133540539, -14932646233, -1745727356],
        [9128848709, -1159849639, 11183435644],
    ),
    (
        Ball([5, 6, 7], 0),
        All,
        [65203772, -130683728, 197054449],
        [65212868, -130673840, 197079055],
    ),
    (
        Block([-65536, -65536, 196608], [131072, 131072, 131072]),
        Stay,
        [-4294967296, -4294967296, 12884901888],
        [4294967296, 4294967296, 21474836480],
    ),
    (
        Block([65536, -65536, 196608], [131072, 131072, 131072]),
        Quarter,
        [-4294967296, 4294967296, 12884901888],
        [4294967296, 12884901888, 21474836480],
    ),
    (
        Block([65536, -65536, 196608], [131072, 131072, 131072]),
        QuarterThenDown,
        [-4294967296, -4294967296, 12884901888],
        [4294967296, 4294967296, 21474836480],
    ),
    (
        Block([-7, 11, 13], [196608, 1, 77777]),
        Turn,
        [-313368, 347363, -9109980050],
        [8323747532, 9319874021, 3122610729],
    ),
    (
        Block([0, 0, 0], [65536, 131072, 196608]),
        Mirror,
        [-4294967296, 0, 0],
        [0, 8589934592, 12884901888],
    ),
    (
        Block([1, 2, 3], [100000, 200000, 300000]),
        Shear,
        [131072, 196608, 196608],
        [13107331072, 18022596608, 19660996608],
    ),
    (
        Block([-9, -9, -9], [18, 18, 18]),
        Grow,
        [-2415919104, -2415919104, -2415919104],
        [2415919104, 2415919104, 2415919104],
    ),
    (
        Tube([0, 0, 0], [196608, 262144, 786432], 65536),
        Stay,
        [-4394221568, -5010251776, -2826469376],
        [17279385600, 22190186496, 54366273536],
    ),
    (
        Tube([1, 2, 3], [-65536, 5, 7], 131072),
        All,
        [-6094783702, -9600805713, -11911768279],
        [10261639682, 9890193273, 14509603192],
    ),
    (
        Horn([0, 0, 0], [0, 65536, 0], 65536, 196608),
        Stay,
        [-12884901888, 0, -12884901888],
        [12884901888, 4294967296, 12884901888],
    ),
    (
        Horn([65536, 65536, 0], [65536, 131072, -65536], 196608, 0),
        Squeeze,
        [-11451385134, 2404499525, -8623340736],
        [6207568307, 31032039762, 34573728782],
    ),
    (
        Ball([0, 0, 0], 268435456),
        Grow,
        [-17592186044416, -17592186044416, -17592186044416],
        [17592186044416, 17592186044416, 17592186044416],
    ),
    (
        Ball([268435456, 0, 0], 65536),
        Stay,
        [17587891077120, -4294967296, -4294967296],
        [17592186044416, 4294967296, 4294967296],
    ),
    (
        Ball([0, 0, 0], 65536),
        Shrink,
        [-1048576, -1048576, -1048576],
        [1048576, 1048576, 1048576],
    ),
    (
        Half([1, 2, 3], 5),
        Turn,
        [-17592186044416, -17592186044416, -17592186044416],
        [17592186044416, 17592186044416, 17592186044416],
    ),
    (
        Bowl([65536, 65536, 65536, 0, 0, 0, 0, 0, 0, -65536]),
        Stay,
        [-17592186044416, -17592186044416, -17592186044416],
        [17592186044416, 17592186044416, 17592186044416],
    ),
];

fn kept(leaf: Leaf) -> Box3
    requires { IsLeaf leaf }
{
    leaf_box(&leaf)
}

fn box_of(written: &Written, by: Move) -> Option<Box3> {
    let x = moved(by)?;
    match leaf(written, &x) {
        Some(leaf) => Some(kept(leaf)),
        None => None,
    }
}

/// The same leaf, the other way round.
fn inverse(leaf: Leaf) -> Leaf
    requires { IsLeaf leaf }
    ensures { IsLeaf result }
{
    Leaf {
        inverse: true,
        ior: Fix(65536),
        ..leaf
    }
}

fn box_of_inverse(written: &Written, by: Move) -> Option<Box3> {
    let x = moved(by)?;
    match leaf(written, &x) {
        Some(leaf) => Some(kept(inverse(leaf))),
        None => None,
    }
}

/// The number of the first row with another box.
fn first_wrong(rows: &[Row]) -> Option<usize> {
    for (i, row) in rows.iter().enumerate() {
        let (written, by, lo, hi) = row;
        match box_of(written, *by) {
            Some(found) => {
                if found.lo != *lo || found.hi != *hi {
                    return Some(i);
                }
            }
            None => return Some(i),
        }
    }
    None
}

#[test]
fn boxes_are_as_worked_out(rt: HostRuntime) {
    assert_eq!(rt; first_wrong(&BOXES), None);
}

#[test]
fn inverse_leaves_have_the_world(rt: HostRuntime) {
    assert_eq!(rt;
        box_of_inverse(&Ball([0, 0, 262_144], 65_536), Stay),
        Some(WORLD)
    );
}
