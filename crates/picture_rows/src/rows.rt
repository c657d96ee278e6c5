// Pictures that are known by hand.
use crate::drawn::{is_drawn, is_picture};
use crate::stages::{Flat, Stage};

const WHITE: [u32; 3] = [65536, 65536, 65536];

/// A black box before a white background, by its left side and its width, and the width of the picture in units.
fn edge<'a>(boxes: &'a [Flat], width: i32) -> Stage<'a> {
    Stage {
        boxes,
        background: WHITE,
        camera: [[0, 0, 65536], [width, 0, 0], [0, 65536, 0]],
        orthographic: true,
    }
}

fn black(left: i32, width: i32) -> [Flat; 1] {
    [([left, -65536, 196608], [width, 131072, 131072], [0, 0, 0])]
}

#[test]
fn samples_are_rounded_and_have_the_high_byte_first(rt: HostRuntime) {
    let stage = Stage {
        boxes: &[],
        background: [65536, 32768, 0],
        camera: [[0, 0, 65536], [65536, 0, 0], [0, 65536, 0]],
        orthographic: false,
    };
    assert!(rt;
        is_picture(rt.alloc(), &stage, (1, 1, false, None), &[255, 128, 0]),
        "8 bits"
    );
    assert!(rt;
        is_picture(
            rt.alloc(),
            &stage,
            (1, 1, true, None),
            &[255, 255, 128, 0, 0, 0]
        ),
        "16 bits"
    );
}

#[test]
fn edges_inside_a_pixel_are_smoothed_where_a_neighbour_differs(rt: HostRuntime) {
    // The box ends at 0.3, at -0.3, and at 0.1.
    for (left, width, bytes) in [
        (-131072, 150733, [0, 0, 0, 128, 128, 128]),
        (-131072, 111411, [128, 128, 128, 255, 255, 255]),
    ] {
        let boxes = black(left, width);
        assert!(rt;
            is_picture(
                rt.alloc(),
                &edge(&boxes, 131072),
                (2, 1, false, Some((19661, 2))),
                &bytes
            ),
            "two pixels"
        );
    }
    let boxes = black(-131072, 137626);
    assert!(rt;
        is_picture(
            rt.alloc(),
            &edge(&boxes, 65536),
            (1, 1, false, Some((0, 2))),
            &[128, 128, 128]
        ),
        "threshold 0"
    );
    assert!(rt;
        is_picture(
            rt.alloc(),
            &edge(&boxes, 65536),
            (1, 1, false, Some((19661, 2))),
            &[0, 0, 0]
        ),
        "no neighbour"
    );
}

#[test]
fn a_neighbour_may_stand_in_another_part(rt: HostRuntime) {
    let boxes = black(-1310720, 2352742);
    let shape = (33, 1, false, Some((19661, 2)));
    assert!(rt;
        is_drawn(
            rt.alloc(),
            &edge(&boxes, 2162688),
            shape,
            [32, 0, 1, 1],
            &[128, 128, 128]
        ),
        "the last pixel"
    );
    assert!(rt;
        is_drawn(
            rt.alloc(),
            &edge(&boxes, 2162688),
            shape,
            [0, 0, 32, 1],
            &[0; 96]
        ),
        "the others"
    );
}

#[test]
fn a_neighbour_counts_as_its_ray_shows_it(rt: HostRuntime) {
    // A small box in each of the two left pixels, that their middle rays miss; and one before the middle of the last.
    let boxes = [
        ([-91750, 6554, 196608], [19660, 19660, 131072], WHITE),
        ([-26214, 6554, 196608], [19660, 19660, 131072], WHITE),
        ([39322, -65536, 196608], [52428, 131072, 131072], WHITE),
    ];
    let stage = Stage {
        boxes: &boxes,
        background: [0, 0, 0],
        camera: [[0, 0, 65536], [196608, 0, 0], [0, 65536, 0]],
        orthographic: true,
    };
    assert!(rt;
        is_picture(
            rt.alloc(),
            &stage,
            (3, 1, false, Some((19661, 2))),
            &[0, 0, 0, 64, 64, 64, 255, 255, 255]
        ),
        "three pixels"
    );
}

#[test]
fn rows_go_down_from_the_top(rt: HostRuntime) {
    for (low, height, bytes) in [
        (
            6554,
            190054,
            [255, 255, 255, 255, 255, 255, 0, 0, 0, 0, 0, 0],
        ),
        (
            26214,
            170394,
            [255, 255, 255, 128, 128, 128, 0, 0, 0, 0, 0, 0],
        ),
    ] {
        let boxes = [([-65536, low, 196608], [131072, height, 131072], WHITE)];
        let stage = Stage {
            boxes: &boxes,
            background: [0, 0, 0],
            camera: [[0, 0, 65536], [65536, 0, 0], [0, 262144, 0]],
            orthographic: true,
        };
        assert!(rt;
            is_picture(rt.alloc(), &stage, (1, 4, false, Some((19661, 2))), &bytes),
            "one column"
        );
    }
}
