// Expected values are worked out by hand or with exact whole numbers outside this program, from the formulas.
ghost use Rattle.std.specs.Prelude.{◌≡◌, ◌≤◌, ◌^◌, pos, ◌≤ℤ◌, ◌<ℤ◌, unsigned_abs, IfSome, IfOk};
ghost use Rattle.fix_math.specs.Matrices.{IsRowWithin, IsVectorWithin};
ghost use Rattle.scene_model.specs.Amounts.{IsRgbft};
ghost use Rattle.scene_model.specs.Looks.{IsBrickSize, IsMap, IsPattern};

use super::*;
use crate::cells::{checker_place, shows_mortar};
use crate::hexagons::hexagon_place;
use crate::maps::{gradient_at, map_colour};
use crate::space::in_pattern;
use fix_math::{Fix, V3};
use scene_model::{Entry, Pattern, Pigment, Rgbft};
use std::alloc::{AllocError, Global};
use std::test::Fail;
use xform::{Step, Xform, compose, start};

fn number(raw: i32) -> Fix
    ensures value { result ≡ raw }
    ensures small { unsigned_abs result ≤ 2 ^ 31 }
{
    Fix(raw as i64)
}

/// A length above 0.
fn side(raw: u32) -> Fix
    ensures { pos 0 <ℤ result }
{
    Fix(raw.max(1) as i64)
}

/// The sizes of bricks.
fn bricks(x: u32, y: u32, z: u32) -> V3
    ensures { IsBrickSize result }
{
    V3 {
        x: side(x),
        y: side(y),
        z: side(z),
    }
}

fn vector(raws: [i32; 3]) -> V3
    ensures { IsVectorWithin (2 ^ 43) result }
{
    V3 {
        x: number(raws[0]),
        y: number(raws[1]),
        z: number(raws[2]),
    }
}

fn coordinate(place: i64) -> i64
    ensures { unsigned_abs result ≤ 2 ^ 44 }
{
    place.clamp(-(1 << 44), 1 << 44)
}

/// A point of the world by its coordinates, in units of 2^-32.
fn point(places: [i64; 3]) -> Point
    ensures { IsRowWithin (2 ^ 44) result }
{
    [
        coordinate(places[0]),
        coordinate(places[1]),
        coordinate(places[2]),
    ]
}

fn raws(v: &V3) -> [i64; 3] {
    [v.x.raw(), v.y.raw(), v.z.raw()]
}

fn channels(colour: Rgbft) -> [i64; 5] {
    [
        colour[0].raw(),
        colour[1].raw(),
        colour[2].raw(),
        colour[3].raw(),
        colour[4].raw(),
    ]
}

#[test]
fn checkers_change_below_each_unit(rt: HostRuntime) {
    for (at, place) in [
        ([0, 0, 0], 0),
        ([-32, 0, 0], 0),
        ([-33, 0, 0], 1),
        ([65503, 0, 0], 0),
        ([65504, 0, 0], 1),
        ([-65536, 0, 0], 1),
        ([-65568, 0, 0], 1),
        ([-65569, 0, 0], 0),
        ([32768, 65536, 131072], 1),
        ([-1, -33, 65536], 0),
        ([196608, -131105, 327648], 1),
    ] {
        assert_eq!(rt; checker_place(&vector(at)), place, "checker");
    }
}

#[test]
fn mortar_lies_before_each_brick(rt: HostRuntime) {
    for (at, is_mortar) in [
        ([65536, 65536, 65536], false),
        ([65536, 16384, 65536], true),
        ([65536, 262144, 65536], false),
        ([275251, 262144, 65536], true),
        ([65536, 32735, 65536], true),
        ([65536, 32736, 65536], false),
        ([32735, 65536, 65536], true),
        ([32736, 65536, 65536], false),
        ([65536, 65536, 32735], true),
        ([65536, 65536, 32736], false),
        // Below 0.
        ([65536, -33, 65536], false),
        ([65536, -196608, 65536], true),
        ([65536, -163873, 65536], true),
        ([-65536, -65536, 65536], false),
        // Odd layers.
        ([294879, 262144, 65536], true),
        ([294880, 262144, 65536], false),
        ([262111, 262144, 65536], false),
        ([65536, 262144, 147423], false),
        ([65536, 262144, 147424], true),
        ([65536, 262144, 180192], false),
        ([-262177, -65536, 65536], false),
        ([-262176, -65536, 65536], true),
        ([-229408, -65536, 65536], false),
    ] {
        assert_eq!(rt;
            shows_mortar(Fix(32768), &bricks(524288, 196608, 294912), &vector(at)),
            is_mortar,
            "brick"
        );
    }
}

#[test]
fn mortar_may_be_nothing_or_all(rt: HostRuntime) {
    for (at, width, is_mortar) in [
        ([0, 0, 0], 0, false),
        ([0, 0, 0], 2, false),
        ([0, 0, 0], 9, true),
        ([1, 1, 1], 0, false),
        ([1, 1, 1], 1, true),
        ([2, 2, 2], 1, false),
        ([2, 2, 2], 2, true),
        ([-1, -2, -3], 0, false),
        ([-1, -2, -3], 1, true),
    ] {
        assert_eq!(rt;
            shows_mortar(number(width), &bricks(5, 3, 7), &vector(at)),
            is_mortar,
            "narrow brick"
        );
    }
}

#[test]
fn hexagons_meet_at_their_sides(rt: HostRuntime) {
    for (at, place) in [
        ([0, 0, 0], 0),
        ([98304, 0, 56756], 1),
        ([98304, 0, -56756], 2),
        ([49153, 0, 0], 0),
        ([65536, 0, 0], 0),
        ([65537, 0, 0], 2),
        ([-65536, 0, 0], 0),
        ([-65537, 0, 0], 1),
        ([0, 0, 56757], 0),
        ([0, 0, -56756], 1),
        ([98304, 0, 0], 2),
        ([98304, 0, 1], 1),
        ([98304, 0, -1], 2),
        ([-98304, 0, -40000], 2),
        ([196608, 0, 0], 0),
        ([-200000, 777, 123456], 2),
        ([-400000, 777, -323456], 0),
        ([1000001, -5, -2000003], 0),
        ([32768, 0, 56756], 1),
        ([32767, 0, 56756], 2),
    ] {
        assert_eq!(rt; hexagon_place(&vector(at)), place, "hexagon");
    }
}

#[test]
fn gradients_repeat_each_unit(rt: HostRuntime) {
    for (axis, at, place) in [
        ([65536, 0, 0], [40960, 5, 7], 40960),
        ([65536, 0, 0], [-1, 0, 0], 65535),
        ([65536, 0, 0], [-65536, 0, 0], 0),
        ([65536, 0, 0], [196613, 0, 0], 5),
        ([65536, 65536, 0], [40000, 40000, 1], 14464),
        ([-65536, 0, 131072], [1000, 0, -200], 64136),
        // Each product is rounded.
        ([46341, 46341, 0], [1, 1, 0], 2),
        ([32768, 0, 0], [1, 0, 0], 1),
        ([32768, 0, 0], [-1, 0, 0], 0),
        ([32767, 0, 0], [1, 0, 0], 0),
    ] {
        assert_eq!(rt;
            gradient_at(&vector(axis), &vector(at)).raw(),
            place,
            "gradient"
        );
    }
}

/// An entry whose channels are from 0 to 1.
fn entry(at: i32, colour: [u16; 5]) -> Entry
    ensures at { result.at ≡ at }
    ensures colour { IsRgbft result.colour }
{
    Entry {
        at: number(at),
        colour: [
            Fix(colour[0] as i64),
            Fix(colour[1] as i64),
            Fix(colour[2] as i64),
            Fix(colour[3] as i64),
            Fix(colour[4] as i64),
        ],
    }
}

const FIRST: [u16; 5] = [0, 60000, 100, 0, 60000];

const SECOND: [u16; 5] = [60000, 0, 101, 60000, 0];

const THIRD: [u16; 5] = [7, 7, 7, 7, 7];

fn at_least(number: i32, least: i32) -> i32
    ensures { least ≤ℤ result }
{
    number.max(least)
}

/// The map of three entries at these places, which ascend.
fn three(first: i32, second: i32, third: i32) -> [Entry; 3]
    ensures { IsMap result }
{
    let second = at_least(second, first);
    let third = at_least(third, second);
    [
        entry(first, FIRST),
        entry(second, SECOND),
        entry(third, THIRD),
    ]
}

fn shown(map: [Entry; 3], at: u16) -> [i64; 5]
    requires { IsMap map }
{
    channels(map_colour(&map, Fix(at as i64)))
}

#[test]
fn maps_go_from_entry_to_entry(rt: HostRuntime) {
    for (at, colour) in [
        (0, [0, 60000, 100, 0, 60000]),
        (16384, [0, 60000, 100, 0, 60000]),
        (16385, [4, 59996, 100, 4, 59996]),
        (24576, [30000, 30000, 101, 30000, 30000]),
        (32767, [59996, 4, 101, 59996, 4]),
        (32768, [60000, 0, 101, 60000, 0]),
        (40000, [33519, 3, 60, 33519, 3]),
        (49151, [11, 7, 7, 11, 7]),
        (49152, [7, 7, 7, 7, 7]),
        (65535, [7, 7, 7, 7, 7]),
    ] {
        assert_eq!(rt; shown(three(16384, 32768, 49152), at), colour, "map");
    }
}

#[test]
fn the_last_of_equal_entries_counts(rt: HostRuntime) {
    for (places, at, colour) in [
        ((20000, 20000, 40000), 19999, [0, 60000, 100, 0, 60000]),
        ((20000, 20000, 40000), 20000, [60000, 0, 101, 60000, 0]),
        ((20000, 20000, 40000), 20001, [59997, 0, 101, 59997, 0]),
        ((20000, 30000, 30000), 29999, [59994, 6, 101, 59994, 6]),
        ((20000, 30000, 30000), 30000, [7, 7, 7, 7, 7]),
        ((5, 5, 5), 4, [0, 60000, 100, 0, 60000]),
        ((5, 5, 5), 5, [7, 7, 7, 7, 7]),
        // Places far below and above.
        ((-1000000000, 1, 1000000000), 0, [60000, 0, 101, 60000, 0]),
        (
            (-1000000000, 1, 1000000000),
            65535,
            [59996, 0, 101, 59996, 0],
        ),
    ] {
        assert_eq!(rt;
            shown(three(places.0, places.1, places.2), at),
            colour,
            "equal places"
        );
    }
}

fn moved(steps: &[Step], at: [i32; 3]) -> Option<[i64; 3]> {
    let places = [
        at[0] as i64 * 65536,
        at[1] as i64 * 65536,
        at[2] as i64 * 65536,
    ];
    match compose(steps) {
        Ok(x) => Some(raws(&in_pattern(&x, &point(places)))),
        Err(_) => None,
    }
}

#[test]
fn points_go_back_through_the_steps(rt: HostRuntime) {
    let turned = [
        Step::Rotate(vector([0, 0, 5898240])),
        Step::Translate(vector([0, -131072, 0])),
    ];
    let scaled = [Step::Scale(vector([131072, 196608, -16384]))];
    for (at, q) in [
        ([0, 0, 0], [131072, 0, 0]),
        ([100, -130972, 0], [100, -100, 0]),
        ([-65536, 65536, 5], [196608, 65536, 5]),
    ] {
        assert_eq!(rt; moved(&turned, at), Some(q), "turned");
    }
    for (at, q) in [
        ([5, 5, 5], [3, 2, -20]),
        ([-5, -5, -5], [-2, -2, 20]),
        ([65536, 65536, 65536], [32768, 21845, -262144]),
    ] {
        assert_eq!(rt; moved(&scaled, at), Some(q), "scaled");
    }
}

/// A colour of this red.
fn red(raw: u8) -> Rgbft
    ensures { IsRgbft result }
{
    [Fix(raw as i64), Fix(0), Fix(0), Fix(0), Fix(0)]
}

fn red_at(pattern: Pattern, at: [i64; 3]) -> i64
    requires { IsPattern pattern }
{
    let pigment = Pigment {
        pattern,
        xform: start(),
    };
    let colour = color_at(&pigment, point(at));
    colour[0].raw()
}

#[test]
fn each_pattern_has_its_colours(rt: HostRuntime) {
    assert_eq!(rt; red_at(Pattern::Plain(red(9)), [1, 2, 3]), 9, "plain");
    // The point is rounded to a raw number before its cell is looked for.
    for (at, shown) in [([-2129920, 0, 0], 1), ([-2129921, 0, 0], 2)] {
        let checker = Pattern::Checker([red(1), red(2)]);
        assert_eq!(rt; red_at(checker, at), shown, "checker");
    }
    for (at, shown) in [
        ([4294967296, 1073741824, 4294967296], 1),
        ([4294967296, 4294967296, 4294967296], 2),
    ] {
        let brick = Pattern::Brick {
            mortar: red(1),
            brick: red(2),
            size: bricks(524288, 196608, 294912),
            width: Fix(32768),
        };
        assert_eq!(rt; red_at(brick, at), shown, "brick");
    }
    for (at, shown) in [
        ([0, 0, 0], 1),
        ([6442450944, 0, 3719561216], 2),
        ([6442450944, 0, -3719561216], 3),
    ] {
        let hexagon = Pattern::Hexagon([red(1), red(2), red(3)]);
        assert_eq!(rt; red_at(hexagon, at), shown, "hexagon");
    }
}

fn gradient(alloc: Global, map: [Entry; 3]) -> Result<Pattern, AllocError>
    requires { IsMap map }
    ensures { IfOk result IsPattern }
{
    Ok(Pattern::Gradient {
        axis: vector([0, 65536, 0]),
        map: Vec::from_slice(alloc, &map)?,
    })
}

#[test]
fn a_gradient_goes_by_its_map(rt: HostRuntime) {
    let Ok(pattern) = gradient(rt.alloc(), three(16384, 32768, 49152)) else {
        assert!(rt; false, "memory");
        return;
    };
    assert_eq!(rt; red_at(pattern, [7, 1610612736, 9]), 30000, "gradient");
}
