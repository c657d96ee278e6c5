// Surfaces to which lamps add nothing, and which show no more than their own light. Expected values are worked out with exact
// whole numbers outside this program, from the formulas, or by hand.
use crate::seen::{Set, View, seen};
use crate::stages::{Lamp, Thing};
use written_leaves::Written;
use written_leaves::Written::{Ball, Block};

const NO_SHINE: [u32; 4] = [0, 1, 0, 1];

const BALL: Written = Ball([0, 0, 262144], 65536);

const PANE: Written = Block([-524288, -524288, 262144], [1048576, 1048576, 65536]);

/// A thing that no lamp shines upon.
fn dull(solid: Written, colour: [u32; 5], ambient: u32, reflection: u32) -> Thing {
    Thing {
        solid,
        colour,
        ambient,
        diffuse: 0,
        shine: NO_SHINE,
        reflection,
        ior: 65536,
        no_shadow: false,
    }
}

fn lamp(at: [i32; 3], strength: u32) -> Lamp {
    Lamp {
        at,
        strength,
        shadowless: false,
        spot: None,
        fade: None,
    }
}

/// Two before the ball, and one inside it.
fn lamps() -> [Lamp; 3] {
    [
        lamp([131072, 65536, 0], 65536),
        lamp([0, -196608, -65536], 32768),
        lamp([0, 0, 262144], 65536),
    ]
}

fn ahead(levels: u32) -> View {
    ([0, 0, 0], [0, 0, 65536], levels, 65536)
}

fn set<'a>(things: &'a [Thing], lamps: &'a [Lamp], adc: u32) -> Set<'a> {
    Set {
        things,
        lamps,
        background: [65536, 32768, 16384],
        adc,
    }
}

#[test]
fn a_surface_is_dull_without_each_kind_of_light(rt: HostRuntime) {
    let lamps = lamps();
    let colour = [49152, 65536, 32768, 0, 0];
    for (diffuse, phong, specular, shown) in [
        (0, 0, 0, [9830, 13107, 6554]),
        (32768, 0, 0, [39365, 52487, 26245]),
        (0, 32768, 0, [49210, 52487, 45934]),
        (0, 0, 49152, [79798, 83075, 76522]),
        (1, 0, 0, [9831, 13109, 6555]),
        (0, 1, 0, [9832, 13109, 6556]),
        (0, 0, 1, [9832, 13109, 6556]),
    ] {
        let thing = Thing {
            diffuse,
            shine: [phong, 1, specular, 1],
            ..dull(BALL, colour, 13107, 0)
        };
        let things = [thing];
        let found = seen(rt.alloc(), set(&things, &lamps, 257), ahead(2));
        assert_eq!(rt; found, Ok(shown), "kinds of light");
    }
}

#[test]
fn a_dull_mirror_shows_what_it_throws_back(rt: HostRuntime) {
    let lamps = lamps();
    let things = [dull(BALL, [16384, 65536, 32768, 0, 0], 65536, 32768)];
    for (levels, adc, shown) in [
        (1, 257, [16384, 65536, 32768]),
        (2, 257, [49152, 81920, 40960]),
        (2, 32768, [49152, 81920, 40960]),
        (2, 32769, [16384, 65536, 32768]),
    ] {
        let found = seen(rt.alloc(), set(&things, &lamps, adc), ahead(levels));
        assert_eq!(rt; found, Ok(shown), "a dull mirror");
    }
}

#[test]
fn a_dull_pane_shows_what_is_behind_it(rt: HostRuntime) {
    let lamps = lamps();
    let things = [dull(PANE, [49152, 65536, 32768, 32768, 16384], 65536, 0)];
    for (levels, adc, shown) in [
        (1, 257, [12288, 16384, 8192]),
        (2, 257, [19968, 28672, 12288]),
        (3, 257, [45568, 47104, 16384]),
        (3, 36864, [45568, 47104, 16384]),
        (3, 36865, [19968, 28672, 12288]),
        (3, 49152, [19968, 28672, 12288]),
        (3, 49153, [12288, 16384, 8192]),
    ] {
        let found = seen(rt.alloc(), set(&things, &lamps, adc), ahead(levels));
        assert_eq!(rt; found, Ok(shown), "a dull pane");
    }
}
