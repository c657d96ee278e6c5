// Expected values are worked out by hand or with exact whole numbers outside this program, from the formulas.
ghost use Rattle.std.specs.Prelude.{◌≡◌, ◌≤◌, ◌<◌, ◌^◌, pos, ◌≤ℤ◌, unsigned_abs, IfSome};
ghost use Rattle.fix_math.specs.Matrices.{IsVectorWithin};
ghost use Rattle.scene_model.specs.Amounts.{IsAmount, IsIor};
ghost use Rattle.scene_model.specs.Looks.{IsSpotlight, IsFade, IsFinish};
ghost use Rattle.shapes.specs.Rays.{IsRayDirection};

use super::*;
use crate::directions::{passed_on, thrown_back};
use crate::finish::highlights;
use fix_math::{Fix, V3};
use scene_model::{Fade, Finish, Rgb, Spotlight};
use std::test::Fail;

type Raws = [i32; 3];

fn within(raw: i32) -> Fix
    ensures { unsigned_abs result ≤ 65536 }
{
    Fix(raw.clamp(-65536, 65536) as i64)
}

fn vector(raws: Raws) -> V3
    ensures { IsVectorWithin 65536 result }
{
    V3 {
        x: within(raws[0]),
        y: within(raws[1]),
        z: within(raws[2]),
    }
}

fn raws(v: &V3) -> [i64; 3] {
    [v.x.raw(), v.y.raw(), v.z.raw()]
}

fn size(number: Fix) -> u64
    ensures { result ≡ unsigned_abs number }
{
    number.raw().unsigned_abs()
}

/// A direction that rays may have; none where it is too short.
fn direction(raws: Raws) -> Option<V3>
    ensures small { IfSome result (IsVectorWithin 65536) }
    ensures long { IfSome result IsRayDirection }
{
    let v = vector(raws);
    if size(v.x).max(size(v.y)).max(size(v.z)) < 32768 {
        return None;
    }
    Some(v)
}

/// A number from 0 to 1.
fn amount(raw: u32) -> Fix
    ensures { IsAmount 65536 result }
{
    Fix(raw.min(65536) as i64)
}

/// A spotlight by its axis, its inner and its outer cosine, and its tightness.
fn spotlight(axis: V3, inner: u32, outer: u32, tightness: u8) -> Spotlight
    requires small { IsVectorWithin 65536 axis }
    requires direction { IsRayDirection axis }
    ensures { IsSpotlight result }
{
    Spotlight {
        axis,
        inner: amount(inner),
        outer: amount(outer),
        tightness: (tightness as u32).min(100),
    }
}

fn cone_at(axis: Raws, cosines: (u32, u32), tightness: u8, ld: Raws) -> Option<i64> {
    let axis = direction(axis)?;
    let spot = spotlight(axis, cosines.0, cosines.1, tightness);
    Some(cone(&spot, vector(ld)).raw())
}

#[test]
fn cones_fall_from_the_inner_to_the_outer_cosine(rt: HostRuntime) {
    for (axis, cosines, tightness, ld, strong) in [
        ([0, 46341, 46341], (65536, 32768), 0, [0, 0, -65536], 24417),
        ([0, 0, 65536], (64540, 61584), 0, [0, 0, -65536], 65536),
        ([0, 0, 65536], (64540, 61584), 0, [0, 0, 65536], 0),
        ([65536, 0, 0], (64540, 61584), 0, [0, 0, -65536], 0),
        ([0, 0, 65536], (65536, 0), 10, [0, 0, -65536], 65536),
        ([0, 0, 65536], (65536, 0), 10, [10000, 0, -64768], 58225),
        ([0, 0, 65536], (65536, 0), 10, [30000, -20000, -54700], 9969),
        ([0, 0, 65536], (65536, 0), 10, [46341, 0, -46341], 1624),
        ([0, 0, 65536], (65536, 0), 10, [65536, 0, 0], 0),
        // No part of the light lies between cones that are turned round, or one.
        ([0, 0, 65536], (0, 65536), 3, [0, 0, -65536], 65536),
        ([0, 0, 65536], (0, 65536), 3, [10000, 0, -64768], 0),
        ([0, 0, 65536], (40000, 40000), 1, [46341, 0, -46341], 46341),
    ] {
        assert_eq!(rt; cone_at(axis, cosines, tightness, ld), Some(strong), "cone");
    }
}

/// A fading; none where it isn't one.
fn fade(distance: u64, power: u32) -> Option<Fade>
    ensures { IfSome result IsFade }
{
    if distance == 0 || distance > 1 << 36 || power == 0 || power > 4 {
        return None;
    }
    Some(Fade {
        distance: Fix(distance as i64),
        power,
    })
}

fn fading_at(distance: u64, power: u32, length: u64) -> Option<i64> {
    let fade = fade(distance, power)?;
    if length >= 1 << 40 {
        return None;
    }
    Some(fading(&fade, length).raw())
}

#[test]
fn light_fades_by_the_distance(rt: HostRuntime) {
    for (distance, power, length, strong) in [
        (65536, 2, 0, 131072),
        (65536, 2, 65536, 65536),
        (65536, 2, 131072, 26214),
        (65536, 2, 196608, 13107),
        (65536, 2, 1099511627775, 0),
        (65536, 2, 30000, 108364),
        (65536, 1, 1, 131070),
        (65536, 1, 131072, 43691),
        // The number of distances is cut.
        (65536, 1, 274877906944, 8),
        (65536, 1, 1099511627775, 8),
        (65536, 4, 196608, 1598),
        (1, 4, 1, 65536),
        (1, 4, 1099511627775, 0),
        (68719476736, 1, 1099511627775, 7710),
        (68719476736, 4, 1099511627775, 2),
        (30000, 3, 15000, 116508),
        (30000, 3, 123456, 1854),
    ] {
        assert_eq!(rt; fading_at(distance, power, length), Some(strong), "fading");
    }
}

#[test]
fn surfaces_throw_rays_back(rt: HostRuntime) {
    for (d, n, back) in [
        ([0, 0, 65536], [0, 0, -65536], [0, 0, -65536]),
        ([46341, 0, 46341], [0, 0, -65536], [46341, 0, -46341]),
        (
            [21581, -35968, 50355],
            [7067, 63602, -14134],
            [30949, 48346, 31619],
        ),
        ([65536, 0, 0], [0, 65536, 0], [65536, 0, 0]),
    ] {
        assert_eq!(rt;
            raws(&thrown_back(&vector(d), &vector(n))),
            back,
            "thrown back"
        );
    }
}

/// An index of refraction.
fn index(raw: u32) -> Fix
    ensures { IsIor result }
{
    Fix(raw.clamp(4096, 1 << 20) as i64)
}

fn passed(d: Raws, n: Raws, entering: bool, ior: u32) -> Option<[i64; 3]> {
    let d = direction(d)?;
    Some(raws(&passed_on(&d, &vector(n), entering, index(ior))))
}

#[test]
fn rays_are_bent_or_don_t_get_through(rt: HostRuntime) {
    let slanting = [46341, 0, 46341];
    let ahead = [0, 0, 65536];
    let steep = [2799, -4665, 65310];
    for (d, n, entering, ior, on) in [
        (ahead, [0, 0, -65536], true, 98304, [0, 0, 65536]),
        (slanting, [0, 0, -65536], true, 98304, [30894, 0, 57797]),
        (slanting, [0, 0, -65536], false, 98304, [46341, 0, -46341]),
        (
            [0, 46341, 46341],
            [0, -65536, 0],
            false,
            131072,
            [0, -46341, 46341],
        ),
        (slanting, [0, 0, -65536], true, 65536, [46341, 0, 46341]),
        (
            [21581, -35968, 50355],
            [7067, 63602, -14134],
            true,
            87163,
            [13908, -47911, 42498],
        ),
        (
            [21581, -35968, 50355],
            [7067, 63602, -14134],
            false,
            87163,
            [34291, 2453, 55795],
        ),
        (
            steep,
            [7067, 63602, -14134],
            true,
            4096,
            [6749, 30877, 57411],
        ),
        (
            steep,
            [327, 2946, -65469],
            false,
            1048576,
            [49806, -29000, 31198],
        ),
        (ahead, [0, 0, -65536], false, 1048576, [0, 0, 65536]),
    ] {
        assert_eq!(rt; passed(d, n, entering, ior), Some(on), "passed on");
    }
}

/// A finish with these highlights: phong, its size, specular and gloss.
fn shiny(phong: u32, size: u16, specular: u32, gloss: u16) -> Finish
    ensures { IsFinish result }
{
    Finish {
        ambient: [Fix(0), Fix(0), Fix(0)],
        diffuse: Fix(0),
        phong: amount(phong),
        phong_size: (size as u32).max(1),
        specular: amount(specular),
        gloss: (gloss as u32).max(1),
        reflection: [Fix(0), Fix(0), Fix(0)],
    }
}

fn highlights_of(finish: &Finish, d: Raws, n: Raws, ld: Raws) -> [i64; 3]
    requires { IsFinish finish.now }
{
    let light: Rgb = [Fix(65536), Fix(1000), Fix(33554432)];
    let shown = highlights(finish, &vector(d), &vector(n), &vector(ld), &light);
    [shown[0].raw(), shown[1].raw(), shown[2].raw()]
}

#[test]
fn highlights_lie_about_two_directions(rt: HostRuntime) {
    let both = shiny(52429, 40, 39322, 50);
    let phong = shiny(52429, 40, 0, 50);
    let specular = shiny(0, 40, 39322, 50);
    let ahead = [0, 0, 65536];
    let slanting = [46341, 0, 46341];
    let back = [0, 0, -65536];
    let near = [40000, 10000, -50930];
    for (finish, d, n, ld, shown) in [
        (&both, ahead, back, back, [91751, 1400, 46976512]),
        (&both, slanting, back, near, [51662, 789, 26450929]),
        (&phong, slanting, back, near, [24431, 373, 12508822]),
        (&specular, slanting, back, near, [27231, 416, 13942107]),
        (&both, ahead, back, [65536, 0, 0], [0, 0, 0]),
        (
            &both,
            [21581, -35968, 50355],
            [7067, 63602, -14134],
            [17515, 35031, 52546],
            [5142, 78, 2632932],
        ),
    ] {
        assert_eq!(rt; highlights_of(finish, d, n, ld), shown, "highlights");
    }
}
