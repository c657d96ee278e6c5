// Parts of a picture: each is what the whole picture has there. Expected values are worked out with exact whole numbers outside
// this program, from the formulas.
use crate::drawn::is_drawn;
use crate::stages::{Flat, Stage};

/// A red box at the left, one at the right whose red is over 1, and a small one that no middle of a pixel shows.
const BOXES: [Flat; 3] = [
    (
        [-196608, -196608, 196608],
        [160563, 209715, 131072],
        [65536, 0, 0],
    ),
    (
        [39322, -19661, 196608],
        [157286, 216269, 131072],
        [131072, 32768, 0],
    ),
    (
        [-26214, -91750, 131072],
        [19660, 19660, 131072],
        [0, 65536, 12345],
    ),
];

fn stage<'a>(boxes: &'a [Flat]) -> Stage<'a> {
    Stage {
        boxes,
        background: [20000, 30000, 1234],
        camera: [[0, 0, 65536], [262144, 0, 0], [0, 196608, 0]],
        orthographic: true,
    }
}

/// Left column, upper row, width and height, and the bytes.
type Row<'a> = ([u16; 4], &'a [u8]);

#[test]
fn a_part_has_the_bytes_of_the_whole(rt: HostRuntime) {
    let rows: [Row; 6] = [
        (
            [0, 0, 2, 2],
            &[78, 117, 5, 78, 117, 5, 196, 39, 2, 117, 91, 4],
        ),
        (
            [2, 0, 2, 2],
            &[137, 120, 3, 255, 128, 0, 117, 119, 4, 196, 124, 2],
        ),
        (
            [0, 2, 4, 1],
            &[255, 0, 0, 128, 93, 8, 78, 117, 5, 78, 117, 5],
        ),
        (
            [0, 1, 4, 1],
            &[196, 39, 2, 117, 91, 4, 117, 119, 4, 196, 124, 2],
        ),
        ([3, 0, 1, 3], &[255, 128, 0, 196, 124, 2, 78, 117, 5]),
        ([1, 1, 1, 1], &[117, 91, 4]),
    ];
    for (place, bytes) in &rows {
        assert!(rt;
            is_drawn(
                rt.alloc(),
                &stage(&BOXES),
                (4, 3, false, Some((19661, 3))),
                *place,
                bytes
            ),
            "parts"
        );
    }
}
