// Expected values are worked out by hand or with exact whole numbers outside this program, from the formulas.
ghost use Rattle.std.specs.Prelude.{◌≤◌, ◌^◌, unsigned_abs};
ghost use Rattle.fix_math.specs.Matrices.{IsVectorWithin};
ghost use Rattle.scene_model.specs.Looks.{IsCamera};

use super::*;
use fix_math::{Fix, V3};
use scene_model::Camera;
use shapes::Ray;
use std::test::Fail;

type Raws = [i64; 3];

fn within(raw: i64) -> Fix
    ensures { unsigned_abs result ≤ 2 ^ 36 }
{
    Fix(raw.clamp(-(1 << 36), 1 << 36))
}

fn vector(raws: Raws) -> V3
    ensures { IsVectorWithin (2 ^ 36) result }
{
    V3 {
        x: within(raws[0]),
        y: within(raws[1]),
        z: within(raws[2]),
    }
}

/// A camera by its location, direction, right and up.
fn camera(vectors: [Raws; 4], orthographic: bool) -> Camera
    ensures { IsCamera result }
{
    Camera {
        location: vector(vectors[0]),
        direction: vector(vectors[1]),
        right: vector(vectors[2]),
        up: vector(vectors[3]),
        orthographic,
    }
}

fn raws(v: &V3) -> Raws {
    [v.x.raw(), v.y.raw(), v.z.raw()]
}

fn parts(ray: &Ray) -> (Raws, Raws) {
    (raws(&ray.origin), raws(&ray.dir))
}

/// The ray of a pixel; none where there is no such pixel.
fn pixel(camera: &Camera, place: [u32; 4]) -> Option<(Raws, Raws)>
    requires { IsCamera camera.now }
{
    let [w, h, column, row] = place;
    if column >= w || row >= h {
        return None;
    }
    Some(parts(&pixel_ray(camera, w, h, column, row)))
}

/// The ray of a part of a pixel; none where there is no such part.
fn part(camera: &Camera, place: [u32; 4], part: [u32; 3]) -> Option<(Raws, Raws)>
    requires { IsCamera camera.now }
{
    let [w, h, column, row] = place;
    let [n, j, k] = part;
    if column >= w || row >= h || n > 9 || j >= n || k >= n {
        return None;
    }
    Some(parts(&sub_ray(camera, w, h, column, row, n, j, k)))
}

const DEFAULT: [Raws; 4] = [[0, 0, 0], [0, 0, 65536], [87163, 0, 0], [0, 65536, 0]];

const FROM_ABOVE: [Raws; 4] = [
    [0, 262144, 0],
    [0, -65536, 0],
    [262144, 0, 0],
    [0, 0, 262144],
];

const SLANTING: [Raws; 4] = [
    [1000, -2000, 3000],
    [30000, -5000, 70001],
    [-50001, 777, 20003],
    [333, 60001, -4099],
];

const FAR: [Raws; 4] = [
    [68719476736, -68719476736, 68719476736],
    [68719476736, -68719476736, -68719476736],
    [68719476736, 68719476736, -68719476736],
    [68719476736, -68719476736, 68719476736],
];

#[test]
fn rays_go_through_the_middles_of_pixels(rt: HostRuntime) {
    for (place, dir) in [
        ([1, 1, 0, 0], [0, 0, 65536]),
        ([2, 1, 0, 0], [-20678, 0, 62188]),
        ([2, 1, 1, 0], [20678, 0, 62188]),
        ([160, 120, 0, 0], [-33388, 25051, 50524]),
        ([160, 120, 159, 119], [33388, -25051, 50524]),
        ([160, 120, 80, 59], [272, 273, 65535]),
        ([3, 5, 2, 1], [26128, 11787, 58935]),
    ] {
        assert_eq!(rt;
            pixel(&camera(DEFAULT, false), place),
            Some(([0, 0, 0], dir)),
            "default"
        );
    }
    for (place, dir) in [
        ([7, 5, 2, 4], [29098, -22887, 54078]),
        ([7, 5, 6, 0], [7148, 15877, 63181]),
        ([33554433, 33554432, 33554432, 1], [4121, 20255, 62191]),
    ] {
        assert_eq!(rt;
            pixel(&camera(SLANTING, false), place),
            Some(([1000, -2000, 3000], dir)),
            "slanting"
        );
    }
}

#[test]
fn parallel_rays_begin_at_the_pixels(rt: HostRuntime) {
    for (place, origin) in [
        ([4, 1, 0, 0], [-98304, 262144, 0]),
        ([4, 1, 1, 0], [-32768, 262144, 0]),
        ([4, 1, 3, 0], [98304, 262144, 0]),
        ([3, 3, 1, 2], [0, 262144, -87381]),
    ] {
        assert_eq!(rt;
            pixel(&camera(FROM_ABOVE, true), place),
            Some((origin, [0, -65536, 0])),
            "from above"
        );
    }
    assert_eq!(rt;
        pixel(&camera(SLANTING, true), [7, 5, 2, 4]),
        Some(([8010, -26111, 1782], [25760, -4293, 60108])),
        "slanting"
    );
}

#[test]
fn cameras_may_be_far_and_pictures_large(rt: HostRuntime) {
    let far = [68719476736, -68719476736, 68719476736];
    for (place, dir) in [
        ([8192, 8192, 0, 8191], [6, -46341, -46341]),
        (
            [4294967295, 4294967295, 4294967294, 4294967294],
            [29309, 0, -58617],
        ),
    ] {
        assert_eq!(rt; pixel(&camera(FAR, false), place), Some((far, dir)), "far");
    }
    for (place, origin) in [
        (
            [8192, 8192, 8191, 0],
            [137430564864, -68719476736, 68719476736],
        ),
        (
            [4294967295, 3, 0, 1],
            [34359738376, -103079215096, 103079215096],
        ),
    ] {
        assert_eq!(rt;
            pixel(&camera(FAR, true), place),
            Some((origin, [37837, -37837, -37837])),
            "far and parallel"
        );
    }
}

#[test]
fn parts_of_a_pixel_have_rays_of_their_own(rt: HostRuntime) {
    for (place, dir) in [
        ([1, 0, 0], [0, 0, 65536]),
        ([2, 0, 0], [-20120, 15127, 60509]),
        ([2, 1, 0], [20120, 15127, 60509]),
        ([2, 0, 1], [-20120, -15127, 60509]),
        ([3, 1, 1], [0, 0, 65536]),
    ] {
        assert_eq!(rt;
            part(&camera(DEFAULT, false), [1, 1, 0, 0], place),
            Some(([0, 0, 0], dir)),
            "default"
        );
    }
    for (pixel, place, origin) in [
        ([4, 1, 3, 0], [2, 1, 1], [114688, 262144, -65536]),
        ([4, 1, 0, 0], [9, 8, 0], [-69177, 262144, 116508]),
    ] {
        assert_eq!(rt;
            part(&camera(FROM_ABOVE, true), pixel, place),
            Some((origin, [0, -65536, 0])),
            "from above"
        );
    }
    for (place, dir) in [
        ([3, 2, 1], [27306, -22926, 54989]),
        ([9, 0, 8], [30572, -26262, 51678]),
    ] {
        assert_eq!(rt;
            part(&camera(SLANTING, false), [7, 5, 2, 4], place),
            Some(([1000, -2000, 3000], dir)),
            "slanting"
        );
    }
    assert_eq!(rt;
        part(
            &camera(FAR, true),
            [4294967295, 4294967295, 0, 0],
            [9, 0, 0]
        ),
        Some((
            [68719476736, -137438953470, 137438953470],
            [37837, -37837, -37837]
        )),
        "far"
    );
}
