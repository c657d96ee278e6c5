// Rays thrown back between two mirrors. Expected values are worked out with exact whole numbers outside this program, from the
// formulas, or by hand.
use crate::seen::{Set, View, seen};
use crate::stages::Thing;
use written_leaves::Written::Half;

const NO_SHINE: [u32; 4] = [0, 1, 0, 1];

/// A plane that ends in a direction, at a distance, with a colour that shows of itself, and what it throws back.
fn mirror(
    direction: [i32; 3],
    distance: i32,
    colour: [u32; 3],
    ambient: u32,
    reflection: u32,
) -> Thing {
    Thing {
        solid: Half(direction, distance),
        colour: [colour[0], colour[1], colour[2], 0, 0],
        ambient,
        diffuse: 0,
        shine: NO_SHINE,
        reflection,
        ior: 65536,
        no_shadow: false,
    }
}

/// A red plane ahead and a blue one behind, which show themselves.
fn two_planes(reflection: u32) -> [Thing; 2] {
    [
        mirror([0, 0, 65536], 262144, [16384, 0, 0], 65536, reflection),
        mirror([0, 0, -65536], 262144, [0, 0, 16384], 65536, reflection),
    ]
}

fn ahead(levels: u32) -> View {
    ([0, 0, 0], [0, 0, 65536], levels, 65536)
}

fn set<'a>(things: &'a [Thing], adc: u32) -> Set<'a> {
    Set {
        things,
        lamps: &[],
        background: [0, 0, 0],
        adc,
    }
}

#[test]
fn so_many_levels_of_rays_follow_one_another(rt: HostRuntime) {
    let things = two_planes(65536);
    for (levels, shown) in [
        (0, [0, 0, 0]),
        (1, [16384, 0, 0]),
        (2, [16384, 0, 16384]),
        (3, [32768, 0, 16384]),
    ] {
        let found = seen(rt.alloc(), set(&things, 257), ahead(levels));
        assert_eq!(rt; found, Ok(shown), "levels");
    }
}

#[test]
fn a_ray_of_too_little_weight_is_black(rt: HostRuntime) {
    let things = two_planes(16384);
    for (adc, shown) in [
        (32768, [16384, 0, 0]),
        (16385, [16384, 0, 0]),
        (16384, [16384, 0, 4096]),
        (4097, [16384, 0, 4096]),
        (4096, [17408, 0, 4096]),
    ] {
        let found = seen(rt.alloc(), set(&things, adc), ahead(3));
        assert_eq!(rt; found, Ok(shown), "adc_bailout");
    }
}

/// A dark mirror ahead, and behind a grey one that shows itself.
fn slanting_mirrors() -> [Thing; 2] {
    [
        mirror([0, 0, 65536], 327680, [65536, 65536, 65536], 0, 49152),
        mirror([0, 0, -65536], 196608, [32768, 32768, 32768], 13107, 32768),
    ]
}

#[test]
fn weights_fall_by_what_each_mirror_throws_back(rt: HostRuntime) {
    let things = slanting_mirrors();
    let slanting = [0, 20856, 62129];
    for (levels, weight, adc, grey) in [
        (1, 65536, 257, 0),
        (2, 65536, 257, 4916),
        (3, 65536, 257, 4916),
        (4, 65536, 257, 6759),
        (5, 65536, 18432, 6759),
        (5, 65536, 18433, 4916),
        (5, 65536, 49152, 4916),
        (5, 65536, 49153, 0),
        (5, 700, 257, 4916),
        (5, 258, 257, 0),
        (5, 256, 257, 0),
        (5, 0, 0, 0),
    ] {
        let found = seen(
            rt.alloc(),
            set(&things, adc),
            ([0, 0, 0], slanting, levels, weight),
        );
        assert_eq!(rt; found, Ok([grey, grey, grey]), "weights");
    }
}

#[test]
fn a_ray_from_outside_the_world_shows_the_background(rt: HostRuntime) {
    let things = two_planes(0);
    let outside = Set {
        things: &things,
        lamps: &[],
        background: [5, 6, 7],
        adc: 257,
    };
    let view = ([0, 0, -268435457], [0, 0, 65536], 5, 65536);
    assert_eq!(rt; seen(rt.alloc(), outside, view), Ok([5, 6, 7]));
}
