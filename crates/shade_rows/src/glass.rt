// Rays through surfaces that are clear, and bent by them. Expected values are worked out with exact whole numbers outside this
// program, from the formulas, or by hand.
use crate::seen::{Set, seen};
use crate::stages::Thing;
use written_leaves::Written;
use written_leaves::Written::{Ball, Half};

const NO_SHINE: [u32; 4] = [0, 1, 0, 1];

/// A thing that shows nothing but what is behind it.
fn clear(solid: Written, colour: [u32; 5], ior: u32) -> Thing {
    Thing {
        solid,
        colour,
        ambient: 0,
        diffuse: 0,
        shine: NO_SHINE,
        reflection: 0,
        ior,
        no_shadow: false,
    }
}

/// A plane that ends in a direction, at a distance, and shows its own colour.
fn wall(direction: [i32; 3], distance: i32, colour: [u32; 3]) -> Thing {
    Thing {
        solid: Half(direction, distance),
        colour: [colour[0], colour[1], colour[2], 0, 0],
        ambient: 65536,
        diffuse: 0,
        shine: NO_SHINE,
        reflection: 0,
        ior: 65536,
        no_shadow: false,
    }
}

#[test]
fn each_surface_filters_what_is_behind_it(rt: HostRuntime) {
    let glass = [32768, 32768, 32768, 65536, 0];
    let things = [
        clear(Ball([0, 0, 262144], 65536), glass, 65536),
        clear(Ball([0, 0, 327680], 65536), glass, 65536),
    ];
    let set = Set {
        things: &things,
        lamps: &[],
        background: [65536, 65536, 65536],
        adc: 257,
    };
    let view = ([0, 0, 0], [0, 0, 65536], 5, 65536);
    assert_eq!(rt; seen(rt.alloc(), set, view), Ok([4096, 4096, 4096]));
}

/// Water of index 2 up to a height of 1 unit, red above it, and green far ahead.
fn water() -> [Thing; 3] {
    [
        clear(
            Half([0, 65536, 0], 65536),
            [65536, 65536, 65536, 65536, 0],
            131072,
        ),
        wall([0, -65536, 0], -196608, [65536, 0, 0]),
        wall([0, 0, -65536], -131072, [0, 65536, 0]),
    ]
}

#[test]
fn a_ray_that_does_not_get_out_is_thrown_back(rt: HostRuntime) {
    let things = water();
    let set = Set {
        things: &things,
        lamps: &[],
        background: [0, 0, 65536],
        adc: 257,
    };
    for (dir, shown) in [
        ([0, 65536, 0], [65536, 0, 0]),
        ([0, 62682, 19129], [65536, 0, 0]),
        ([0, 52103, 39752], [0, 65536, 0]),
    ] {
        let found = seen(rt.alloc(), set, ([0, 0, 0], dir, 5, 65536));
        assert_eq!(rt; found, Ok(shown), "out of water");
    }
}

#[test]
fn all_is_thrown_back_inside(rt: HostRuntime) {
    let things = [
        clear(
            Half([0, 65536, 0], 65536),
            [65536, 65536, 65536, 65536, 0],
            131072,
        ),
        wall([0, -65536, 0], -196608, [65536, 0, 0]),
    ];
    let set = Set {
        things: &things,
        lamps: &[],
        background: [0, 0, 65536],
        adc: 257,
    };
    let view = ([0, 0, 0], [0, 46341, 46341], 5, 65536);
    assert_eq!(rt; seen(rt.alloc(), set, view), Ok([0, 0, 65536]));
}

/// A ball of glass, red far ahead, green above and blue below.
fn room() -> [Thing; 4] {
    [
        clear(
            Ball([0, 0, 262144], 65536),
            [49152, 65536, 32768, 32768, 16384],
            98304,
        ),
        wall([0, 0, -65536], -589824, [65536, 0, 0]),
        wall([0, -65536, 0], -196608, [0, 65536, 0]),
        wall([0, 65536, 0], -196608, [0, 0, 65536]),
    ]
}

#[test]
fn rays_are_bent_into_glass_and_out_of_it(rt: HostRuntime) {
    let things = room();
    let set = Set {
        things: &things,
        lamps: &[],
        background: [100, 200, 300],
        adc: 257,
    };
    for (dir, levels, shown) in [
        ([0, 0, 65536], 5, [25600, 0, 0]),
        ([0, 8916, 64927], 5, [25600, 0, 0]),
        ([0, 8916, 64927], 2, [0, 0, 0]),
        ([0, 8916, 64927], 3, [25600, 0, 0]),
        ([2948, -11792, 64399], 5, [25600, 0, 0]),
        ([0, 16365, 63460], 5, [0, 0, 16384]),
        ([0, 16908, 63317], 5, [65536, 0, 0]),
    ] {
        let found = seen(rt.alloc(), set, ([0, 0, 0], dir, levels, 65536));
        assert_eq!(rt; found, Ok(shown), "a ball of glass");
    }
}
