// Lamps, and what stands before them. Expected values are worked out with exact whole numbers outside this program, from the
// formulas, or by hand.
use crate::seen::{Set, View, seen};
use crate::stages::{Cone, Lamp, Thing};
use written_leaves::Written;
use written_leaves::Written::{Ball, Block};

const NO_SHINE: [u32; 4] = [0, 1, 0, 1];

const WHITE: [u32; 5] = [65536, 65536, 65536, 0, 0];

/// A thing that shows what light falls on it.
fn matt(solid: Written, colour: [u32; 5], diffuse: u32) -> Thing {
    Thing {
        solid,
        colour,
        ambient: 0,
        diffuse,
        shine: NO_SHINE,
        reflection: 0,
        ior: 65536,
        no_shadow: false,
    }
}

fn lamp(at: [i32; 3], strength: u32) -> Lamp {
    Lamp {
        at,
        strength,
        shadowless: false,
        spot: None,
        fade: None,
    }
}

fn set<'a>(things: &'a [Thing], lamps: &'a [Lamp]) -> Set<'a> {
    Set {
        things,
        lamps,
        background: [0, 0, 0],
        adc: 257,
    }
}

const AHEAD: View = ([0, 0, 0], [0, 0, 65536], 5, 65536);

/// Looking down at a floor.
const DOWN: View = ([-65536, 262144, 0], [0, -65536, 0], 5, 65536);

fn floor() -> Thing {
    matt(
        Block([-524288, -131072, -524288], [1048576, 131072, 1048576]),
        WHITE,
        65536,
    )
}

/// A pane above the floor.
fn pane(height: i32, colour: [u32; 5]) -> Thing {
    matt(
        Block([-524288, height, -524288], [1048576, 16384, 1048576]),
        colour,
        65536,
    )
}

const RED: [u32; 5] = [65536, 32768, 16384, 65536, 0];

const BLUE: [u32; 5] = [8192, 32768, 65536, 52429, 6554];

/// More light passes it than falls on it.
const BRIGHT: [u32; 5] = [196608, 131072, 32768, 65536, 0];

const ABOVE: [i32; 3] = [131072, 393216, 0];

#[test]
fn panes_filter_the_light_of_a_lamp(rt: HostRuntime) {
    let lamps = [lamp(ABOVE, 65536)];
    for (first, second, shown) in [
        (None, None, [58617, 58617, 58617]),
        (Some((294912, RED)), None, [58617, 14654, 3664]),
        (
            Some((294912, RED)),
            Some((344064, BLUE)),
            [2345, 3664, 2967],
        ),
        (
            Some((294912, BRIGHT)),
            Some((344064, BLUE)),
            [2345, 14655, 11871],
        ),
        (Some((294912, RED)), Some((327680, WHITE)), [0, 0, 0]),
        // It stands behind the lamp.
        (Some((393217, WHITE)), None, [58617, 58617, 58617]),
    ] {
        let nowhere = floor();
        let first = first.map_or(nowhere, |(height, colour)| pane(height, colour));
        let second = second.map_or(nowhere, |(height, colour)| pane(height, colour));
        let things = [floor(), first, second];
        let found = seen(rt.alloc(), set(&things, &lamps), DOWN);
        assert_eq!(rt; found, Ok(shown), "panes");
    }
}

#[test]
fn what_has_no_shadow_and_lamps_without_shadow(rt: HostRuntime) {
    let mut through = pane(327680, WHITE);
    through.no_shadow = true;
    let mut everywhere = lamp(ABOVE, 65536);
    everywhere.shadowless = true;
    let opaque = pane(327680, WHITE);
    let all = Ok([58617, 58617, 58617]);
    let found = seen(
        rt.alloc(),
        set(&[floor(), through], &[lamp(ABOVE, 65536)]),
        DOWN,
    );
    assert_eq!(rt; found, all, "no_shadow");
    let found = seen(rt.alloc(), set(&[floor(), opaque], &[everywhere]), DOWN);
    assert_eq!(rt; found, all, "shadowless");
}

#[test]
fn lamps_add_up_where_they_shine_upon_a_surface(rt: HostRuntime) {
    let things = [floor(), pane(294912, RED)];
    let two = [lamp(ABOVE, 65536), lamp([-327680, 196608, 65536], 32768)];
    let found = seen(rt.alloc(), set(&things, &two), DOWN);
    assert_eq!(rt; found, Ok([77896, 33933, 22943]), "two");
    for (at, grey) in [
        // Below the floor; on it; where the ray meets it; just above.
        ([0, -262144, 0], 0),
        ([196608, 0, 0], 0),
        ([-65536, 0, 0], 0),
        ([-65536, 1, 0], 65536),
    ] {
        let found = seen(rt.alloc(), set(&[floor()], &[lamp(at, 65536)]), DOWN);
        assert_eq!(rt; found, Ok([grey, grey, grey]), "beside");
    }
}

#[test]
fn all_of_a_lamp_arrives_where_it_stands(rt: HostRuntime) {
    let wall = matt(
        Block([-262144, -262144, -131072], [524288, 524288, 131072]),
        [65536, 32768, 16384, 0, 0],
        65536,
    );
    let things = [wall];
    let lamps = [lamp([65536, 32768, 0], 65536)];
    let view = ([65536, 32768, 196608], [0, 0, -65536], 5, 65536);
    let found = seen(rt.alloc(), set(&things, &lamps), view);
    assert_eq!(rt; found, Ok([65536, 32768, 16384]));
}

#[test]
fn four_filters_to_the_lamp_and_four_to_the_eye(rt: HostRuntime) {
    let glass = [32768, 32768, 32768, 65536, 0];
    let things = [
        matt(
            Block([-65536, -65536, 131072], [131072, 131072, 65536]),
            glass,
            39322,
        ),
        matt(
            Block([-65536, -65536, 262144], [131072, 131072, 65536]),
            glass,
            39322,
        ),
        matt(
            Block([-65536, -65536, 524288], [131072, 131072, 65536]),
            WHITE,
            65536,
        ),
    ];
    let found = seen(rt.alloc(), set(&things, &[lamp([0, 0, 0], 1048576)]), AHEAD);
    assert_eq!(rt; found, Ok([4096, 4096, 4096]));
}

/// A cone from 10 to 20 degrees.
fn narrow(axis: [i32; 3]) -> Cone {
    Cone {
        axis,
        inner: 64540,
        outer: 61584,
    }
}

/// A cone from 0 to 60 degrees.
fn wide(axis: [i32; 3]) -> Cone {
    Cone {
        axis,
        inner: 65536,
        outer: 32768,
    }
}

#[test]
fn shaped_lights_on_a_ball(rt: HostRuntime) {
    let things = [matt(Ball([0, 0, 262144], 65536), WHITE, 32768)];
    for (spot, fade, grey) in [
        (None, None, 32768),
        (None, Some((65536, 2)), 6554),
        (Some(narrow([0, 0, 65536])), None, 32768),
        (Some(narrow([65536, 0, 0])), None, 0),
        (Some(wide([0, 46341, 46341])), None, 12209),
    ] {
        let shaped = Lamp {
            at: [0, 0, 0],
            strength: 65536,
            shadowless: false,
            spot,
            fade,
        };
        let found = seen(rt.alloc(), set(&things, &[shaped]), AHEAD);
        assert_eq!(rt; found, Ok([grey, grey, grey]), "shaped");
    }
}

#[test]
fn a_ball_shines(rt: HostRuntime) {
    let lamps = [lamp([196608, 327680, -131072], 65536)];
    for (shine, shown) in [
        ([0, 1, 0, 1], [16075, 8038, 4018]),
        ([52429, 40, 39322, 50], [16400, 8363, 4343]),
    ] {
        let mut ball = matt(
            Ball([0, 0, 262144], 65536),
            [32768, 16384, 8192, 0, 0],
            39322,
        );
        ball.ambient = 6554;
        ball.shine = shine;
        let found = seen(rt.alloc(), set(&[ball], &lamps), AHEAD);
        assert_eq!(rt; found, Ok(shown), "highlights");
    }
}
